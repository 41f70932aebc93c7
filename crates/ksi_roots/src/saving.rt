// One signature, extended and saved.
ghost use Rattle.std.specs.Prelude.{◌<◌, ◌^◌, IsTrue};
ghost use Rattle.ksi_imprint.specs.Imprints.{imprint_of};
ghost use Rattle.ksi_calendar.specs.Calendar.{is_covered};
ghost use Rattle.ksi_roots.specs.Saved.{IsSaved, Leaves};

use crate::loading::load;
use crate::report::{Halt, Report};
use ksi_calendar::Calendar;
use ksi_calendar_extender::{ExtendRefusal, extend};
use ksi_imprint::{Refused, Sha};
use ksi_lines::Word::{Number, Text};
use ksi_lines::{Line, not_extended_line, print};
use ksi_ports::{Files, SaveRefusal};
use ksi_signature::view;
use std::alloc::Global;

/// The most bytes that a signature file may have.
pub(crate) const SIGNATURE_LIMIT: usize = 65_539;

/// Saves a signature extended to `p`, and returns the line of its second. If it is refused, no file changes.
pub(crate) fn save_extended<F: Files>(
    alloc: Global,
    files: &mut F,
    calendar: &Calendar<Sha>,
    name: &str,
    p: u64,
    out: &str,
) -> Result<Line, Halt>
    requires early { p < 2 ^ 63 }
    requires covered { IsTrue (is_covered calendar.now p) }
    ensures { IsTrue F.tells → Leaves (IsSaved imprint_of calendar.now p name.now out.now (F.held files.old) (F.held files.new))
        (F.held files.old) (F.held files.new) result }
{
    let bytes = load(alloc, files, 2, name, SIGNATURE_LIMIT)?;
    match extend(alloc, calendar, bytes.as_slice(), p) {
        Ok(text) => {
            match files.save(alloc, out, text.as_slice()) {
                Ok(()) => Ok(extended_line(text.as_slice(), p)),
                Err(SaveRefusal::Failed) => Err(Halt::Fault),
                Err(SaveRefusal::NoMemory) => Err(Halt::NoMemory),
            }
        }
        Err(Refused::Fault(refusal)) => Err(Halt::Reported(not_extended(&refusal))),
        Err(Refused::NoMemory) => Err(Halt::NoMemory),
    }
}

/// The line of a signature that is extended to `p`, with the time of its first chain.
fn extended_line(bytes: &[u8], p: u64) -> Line {
    let second = match view(bytes) {
        Ok(signature) => signature.chains()[0].time(),
        Err(_) => 0,
    };
    print(Text("extended"), &[], &[Number(second), Number(p)])
}

fn not_extended(refusal: &ExtendRefusal) -> Report {
    let line = not_extended_line(2, refusal);
    match refusal {
        ExtendRefusal::Malformed(_) => Report::malformed(line),
        _ => Report::refused(line),
    }
}
