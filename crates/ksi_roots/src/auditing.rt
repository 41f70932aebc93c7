// The command `audit`.
ghost use Rattle.std.specs.Prelude.{◌<◌, ◌^◌};

use crate::loading::load;
use crate::report::{Halt, Report};
use crate::saving::SIGNATURE_LIMIT;
use ksi_calendar_auditor::{Audit, audit};
use ksi_calendar_folder::gather;
use ksi_imprint::{Imprint, Refused, Sha};
use ksi_journal::Journal;
use ksi_lines::{audit_line, journal_fault_line, signature_fault_line};
use ksi_ports::Files;
use ksi_signature::{SignatureView, view};
use std::alloc::Global;

/// The most bytes that the journal of the items may have.
const ITEMS_LIMIT: usize = 67_108_864;

/// Prints the place of a signature's hash among the items of a second.
pub(crate) fn report<F: Files>(
    alloc: Global,
    files: &mut F,
    folder: &str,
    signature: &str,
    hash: &Imprint,
    second: u64,
    items: &str,
) -> Result<Report, Halt>
    requires { second < 2 ^ 63 }
{
    let bytes = load(alloc, files, 2, signature, SIGNATURE_LIMIT)?;
    match view(bytes.as_slice()) {
        Ok(signature) => audit_over(alloc, files, folder, &signature, hash, second, items),
        Err(fault) => {
            let line = signature_fault_line(2, fault);
            Err(Halt::Reported(Report::malformed(line)))
        }
    }
}

/// Loads the calendar files to the signature's publication time, and then the items.
fn audit_over<F: Files>(
    alloc: Global,
    files: &mut F,
    folder: &str,
    signature: &SignatureView<'_>,
    hash: &Imprint,
    second: u64,
    items: &str,
) -> Result<Report, Halt>
    requires { second < 2 ^ 63 }
{
    let p = last_second(signature, second);
    let calendar = gather::<Sha, F>(alloc, files, folder, p)?;
    let bytes = load(alloc, files, 5, items, ITEMS_LIMIT)?;
    let items = items_of(alloc, bytes.as_slice())?;
    let answer = audit(alloc, &calendar, p, second, &items, signature, hash)?;
    let line = audit_line(alloc, &answer)?;
    Ok(match answer {
        Audit::Inside(..) | Audit::Beneath(..) => Report::done(line),
        Audit::Clash(_) => Report::clash(line),
        _ => Report::refused(line),
    })
}

/// The publication time of a signature, or the second if it has no calendar chain: then no check of a calendar is reached.
fn last_second(signature: &SignatureView<'_>, second: u64) -> u64
    requires { second < 2 ^ 63 }
    ensures { result < 2 ^ 63 }
{
    match signature.calendar() {
        Some(chain) => chain.publication(),
        None => second,
    }
}

/// The journal of the items, which is word 5.
fn items_of(alloc: Global, bytes: &[u8]) -> Result<Journal<Sha>, Halt> {
    match ksi_journal::load::<Sha>(alloc, bytes) {
        Ok(items) => Ok(items),
        Err(Refused::Fault(fault)) => {
            let line = journal_fault_line(5, &fault);
            Err(Halt::Reported(Report::malformed(line)))
        }
        Err(Refused::NoMemory) => Err(Halt::NoMemory),
    }
}
