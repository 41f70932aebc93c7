// Files of the command line.
ghost use Rattle.std.specs.Prelude.{◌≡◌, ◌≤◌, IsTrue, IfOk, length};
ghost use Rattle.ksi_blocks.specs.Loading.{Gives, loaded};

use crate::report::{Halt, too_long};
use ksi_imprint::Bytes;
use ksi_ports::{Files, LoadRefusal};
use std::alloc::Global;

/// The most bytes that a log or a proof may have.
pub(crate) const FILE_LIMIT: usize = 67_108_864;

/// The bytes of the file of word `n`, which has at most `most` of them.
pub(crate) fn load<F: Files>(
    alloc: Global,
    files: &mut F,
    n: u64,
    most: usize,
    name: &str,
) -> Result<Bytes, Halt>
    ensures told { IsTrue F.tells → Gives (loaded n most (F.held files.old name.now)) result }
    ensures stays { F.held files.new ≡ F.held files.old }
    ensures within { IfOk result (λ bytes. length bytes ≤ most) }
{
    match files.load(alloc, name, most) {
        Ok(bytes) => Ok(bytes),
        Err(LoadRefusal::Failed) => Err(Halt::Fault),
        Err(LoadRefusal::TooLong) => Err(Halt::Reported(too_long(n))),
        Err(LoadRefusal::NoMemory) => Err(Halt::NoMemory),
    }
}
