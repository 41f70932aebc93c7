// The command `text`.
ghost use Rattle.std.specs.Prelude.{◌<◌, ◌^◌, IsTrue, IfOk};
ghost use Rattle.ksi_print.specs.Printing.{IsTextOf};

use crate::loading::load;
use crate::report::{Halt, Report, no_publication};
use ksi_imprint::Bytes;
use ksi_lines::publications_fault_line;
use ksi_ports::Files;
use ksi_printed::print;
use ksi_publications::PublicationsView;
use std::alloc::Global;

/// The most bytes that a publications file may have.
const PUBLICATIONS_LIMIT: usize = 67_108_864;

/// The text of the publication of a second.
pub(crate) fn text_of<F: Files>(
    alloc: Global,
    files: &mut F,
    name: &str,
    second: u64,
) -> Result<Bytes, Halt>
    requires { second < 10 ^ 12 }
    ensures { IsTrue F.tells → IfOk result (λ text. IsTextOf (F.held files.old) name.now second text) }
{
    let bytes = load(alloc, files, name, PUBLICATIONS_LIMIT)?;
    match PublicationsView::of(bytes.as_slice()) {
        Ok(publications) => {
            match publications.find(second) {
                Some(root) => {
                    match print(alloc, second, &root) {
                        Ok(text) => Ok(text),
                        Err(_) => Err(Halt::NoMemory),
                    }
                }
                None => Err(Halt::Reported(no_publication(second))),
            }
        }
        Err(fault) => Err(Halt::Reported(Report::malformed(publications_fault_line(1, fault)))),
    }
}
