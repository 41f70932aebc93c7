// The file words that a command loads.
ghost use Rattle.std.specs.Prelude.{◌≡◌, ◌≤◌, IsTrue, IfOk, length};
ghost use Rattle.ksi_tlv.specs.Spelling.{AreBytes};
ghost use Rattle.ksi_top.specs.Loading.{content, loaded, loaded_as, file_limit};
ghost use Rattle.ksi_top.specs.Promised.{IsLoaded};

use crate::reading::FileWord;
use crate::report::{Halt, Report};
use crate::status::Status;
use ksi_imprint::Bytes;
use ksi_journal::laws::are_bytes;
use ksi_lines::Word::{Number, Text};
use ksi_lines::print;
use ksi_ports::{Files, LoadRefusal};
use std::alloc::Global;

/// The most bytes that a signature file may have.
pub(crate) const SIGNATURE_LIMIT: usize = 65_539;

/// The most bytes that any other file may have, but that of a line.
pub(crate) const FILE_LIMIT: usize = 67_108_864;

/// What file word `n` is, by its kind.
pub(crate) fn load<W: FileWord, F: Files>(
    alloc: Global,
    files: &mut F,
    n: usize,
    name: &str,
) -> Result<W, Halt>
    ensures loaded { IsLoaded F.Files n file_limit (loaded_as W.kind file_limit n (F.held files.old) name.now) files.old files.new result }
    ensures is { IsTrue F.tells → IfOk result (W.spells (content (F.held files.old) name.now)) }
    ensures bytes { IsTrue F.tells → IfOk result (λ _. AreBytes (content (F.held files.old) name.now)) }
{
    let bytes = load_file(alloc, files, FILE_LIMIT, n, name)?;
    let slice = bytes.as_slice();
    are_bytes(slice);
    W::read(alloc, n, slice)
}

/// The bytes of file word `n`, at most `limit` of them.
#[tactic(auto, unfolding(crate::specs::Loading::loaded))]
pub(crate) fn load_file<F: Files>(
    alloc: Global,
    files: &mut F,
    limit: usize,
    n: usize,
    name: &str,
) -> Result<Bytes, Halt>
    requires { limit ≤ 67108864 }
    ensures loaded { IsLoaded F.Files n limit (loaded limit n (F.held files.old) name.now) files.old files.new result }
    ensures whole { IsTrue F.tells → IfOk result (λ bytes. bytes ≡ content (F.held files.old) name.now) }
    ensures within { IfOk result (λ bytes. length bytes ≤ limit) }
{
    match files.load(alloc, name, limit) {
        Ok(bytes) => Ok(bytes),
        Err(LoadRefusal::Failed) => Err(Halt::Fault),
        Err(LoadRefusal::NoMemory) => Err(Halt::NoMemory),
        Err(LoadRefusal::TooLong) => {
            let line = print(Text("too"), &[Text("long")], &[Number(n as u64)]);
            Err(Halt::Reported(Report::new(Status::TooLong, line)))
        }
    }
}
