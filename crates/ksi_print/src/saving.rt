// The command `read`.
ghost use Rattle.std.specs.Prelude.{◌≡◌, ◌∷◌, [], IsTrue};
ghost use Rattle.ksi_ports.specs.Stored.{with_file};
ghost use Rattle.ksi_publications.specs.File.{publications_text};
ghost use Rattle.ksi_print.specs.Printing.{IsSaved, Leaves};

use crate::loading::load;
use crate::report::{Halt, not_read};
use ksi_imprint::{Imprint, Refused};
use ksi_ports::{Files, SaveRefusal};
use ksi_printed::read;
use ksi_publications::write;
use std::alloc::Global;

/// The most bytes that a text may have, with its spaces and line breaks.
const TEXT_LIMIT: usize = 65_536;

/// Saves the publications file of a text, and returns its second and root. If it is refused, no file changes.
pub(crate) fn save_publication<F: Files>(
    alloc: Global,
    files: &mut F,
    name: &str,
    out: &str,
) -> Result<(u64, Imprint), Halt>
    ensures { IsTrue F.tells → Leaves (IsSaved name.now out.now (F.held files.old) (F.held files.new)) (F.held files.old) (F.held files.new) result }
{
    let text = load(alloc, files, name, TEXT_LIMIT)?;
    match read(alloc, text.as_slice()) {
        Ok(publication) => {
            save(alloc, files, out, &publication)?;
            Ok(publication)
        }
        Err(Refused::Fault(fault)) => Err(Halt::Reported(not_read(fault))),
        Err(Refused::NoMemory) => Err(Halt::NoMemory),
    }
}

/// Saves the publications file of a pair, as `ksi publish` does for a journal with this publication alone.
fn save<F: Files>(
    alloc: Global,
    files: &mut F,
    out: &str,
    publication: &(u64, Imprint),
) -> Result<(), Halt>
    ensures { IsTrue F.tells → Leaves (λ _. F.held files.new ≡ with_file (F.held files.old) out.now (publications_text publication.now.0 (publication.now ∷ [])))
        (F.held files.old) (F.held files.new) result }
{
    match write(alloc, publication.0, &[*publication]) {
        Ok(file) => {
            match files.save(alloc, out, file.as_slice()) {
                Ok(()) => Ok(()),
                Err(SaveRefusal::Failed) => Err(Halt::Fault),
                Err(SaveRefusal::NoMemory) => Err(Halt::NoMemory),
            }
        }
        Err(_) => Err(Halt::NoMemory),
    }
}
