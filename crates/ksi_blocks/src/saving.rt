// The end of a command that saves.
ghost use Rattle.std.specs.Prelude.{IsTrue, Ok};
ghost use Rattle.ksi_blocks.specs.Loading.{Gives, Leaves, SavesFile};

use crate::report::{Halt, Report};
use ksi_imprint::Bytes;
use ksi_ports::{Files, SaveRefusal};
use std::alloc::Global;

/// Saves the file of a report, if it has one.
pub(crate) fn finish<F: Files>(
    alloc: Global,
    files: &mut F,
    report: Report,
    out: &str,
) -> Result<Report, Halt>
    ensures told { Gives (Ok report) result }
    ensures leaves { IsTrue F.tells → Leaves out.now (F.held files.old) (F.held files.new) result }
{
    match save(alloc, files, &report.file, out) {
        Ok(()) => Ok(report),
        Err(SaveRefusal::Failed) => Err(Halt::Fault),
        Err(SaveRefusal::NoMemory) => Err(Halt::NoMemory),
    }
}

fn save<F: Files>(
    alloc: Global,
    files: &mut F,
    file: &Option<Bytes>,
    out: &str,
) -> Result<(), SaveRefusal>
    ensures { IsTrue F.tells → SavesFile out.now (F.held files.old) (F.held files.new) result file.now }
{
    match file {
        None => Ok(()),
        Some(bytes) => files.save(alloc, out, bytes.as_slice()),
    }
}
