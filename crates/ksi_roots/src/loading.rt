// Files of the command line.
ghost use Rattle.std.specs.Prelude.{◌≡◌, IsTrue, IfOk, Some};

use crate::report::{Halt, too_long};
use ksi_imprint::Bytes;
use ksi_ports::{Files, LoadRefusal};
use std::alloc::Global;

/// The bytes of the file of word `n`, or of one that it names, which has at most `most` of them.
pub(crate) fn load<F: Files>(
    alloc: Global,
    files: &mut F,
    n: u64,
    name: &str,
    most: usize,
) -> Result<Bytes, Halt>
    ensures told { IsTrue F.tells → IfOk result (λ bytes. F.held files.old name.now ≡ Some bytes) }
    ensures stays { F.held files.new ≡ F.held files.old }
{
    match files.load(alloc, name, most) {
        Ok(bytes) => Ok(bytes),
        Err(LoadRefusal::Failed) => Err(Halt::Fault),
        Err(LoadRefusal::TooLong) => Err(Halt::Reported(too_long(n))),
        Err(LoadRefusal::NoMemory) => Err(Halt::NoMemory),
    }
}
