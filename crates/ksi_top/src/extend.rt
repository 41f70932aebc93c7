// The command `extend`.
ghost use Rattle.std.specs.Prelude.{◌≡◌, ◌<◌, ◌^◌, IfOk};
ghost use Rattle.ksi_imprint.specs.Imprints.{imprint_of};
ghost use Rattle.ksi_signature.specs.Seen.{seen, bytes_seen};
ghost use Rattle.ksi_extender.specs.Accepted.{first_time};
ghost use Rattle.ksi_extender.specs.Extended.{extended};
ghost use Rattle.ksi_top.specs.declared.status.Status.TheVariants as statuses;
ghost use Rattle.ksi_top.specs.Reports.{report};
ghost use Rattle.ksi_top.specs.Promised.{Performed};
ghost use Rattle.ksi_lines.specs.Answers.{not_extended_line};
ghost use Rattle.ksi_top.specs.Extend.{SavesExtension, extend_command, extend_over, extended_report, refusal_status};

use crate::loading::{SIGNATURE_LIMIT, load, load_file};
use crate::reading::view_signature;
use crate::report::{Halt, Report, Saved, ended};
use crate::status::Status;
use ksi_extender::{ExtendRefusal, extend_view};
use ksi_imprint::{NoMemory, Refused, Sha};
use ksi_journal::Journal;
use ksi_lines::Word::{Number, Text};
use ksi_lines::{not_extended_line, print};
use ksi_ports::Files;
use ksi_signature::SignatureView;
use std::alloc::Global;

/// Loads the journal, then the signature, and saves it extended to the second.
pub(crate) fn extend<F: Files>(
    alloc: Global,
    files: &mut F,
    journal: &str,
    signature: &str,
    second: u64,
    out: &str,
) -> Result<Report, Halt>
    requires { second < 2 ^ 63 }
    ensures { Performed F.Files (extend_command journal.now signature.now second out.now) files.old files.new result }
{
    let journal = load::<Journal<Sha>, F>(alloc, files, 1, journal)?;
    extend_over(alloc, files, &journal, signature, second, out)
}

/// Loads the signature, and saves it extended to the second.
fn extend_over<F: Files>(
    alloc: Global,
    files: &mut F,
    journal: &Journal<Sha>,
    signature: &str,
    second: u64,
    out: &str,
) -> Result<Report, Halt>
    requires { second < 2 ^ 63 }
    ensures { Performed F.Files (extend_over journal.now signature.now second out.now) files.old files.new result }
{
    let bytes = load_file(alloc, files, SIGNATURE_LIMIT, 2, signature)?;
    let signature = view_signature(2, bytes.as_slice())?;
    ended(extended_report(alloc, journal, &signature, second, out))
}

/// The time of the first aggregation chain.
fn first_time(signature: &SignatureView<'_>) -> u64
    ensures { result ≡ first_time (seen signature.now) }
{
    let chains = signature.chains();
    chains[0].time()
}

/// A signature, extended to a publication time.
fn extended_report(
    alloc: Global,
    journal: &Journal<Sha>,
    signature: &SignatureView<'_>,
    publication: u64,
    out: &str,
) -> Result<Report, NoMemory>
    requires { publication < 2 ^ 63 }
    ensures taken { IfOk result (λ report. report ≡ extended_report (first_time (seen signature.now)) publication out.now
        (extended imprint_of journal.now (bytes_seen signature.now) publication)) }
    ensures extended { IfOk result (λ report. report.status ≡ statuses.Done →
        SavesExtension journal.now (bytes_seen signature.now) publication out.now report) }
{
    match extend_view::<Sha>(alloc, journal, signature, publication) {
        Ok(text) => {
            let second = first_time(signature);
            let line = print(
                Text("extended"),
                &[],
                &[Number(second), Number(publication)],
            );
            Ok(Report::saving(line, Saved::named(alloc, out, text)?))
        }
        Err(Refused::Fault(refusal)) => Ok(not_extended(&refusal)),
        Err(Refused::NoMemory) => Err(NoMemory),
    }
}

/// The refusal's line and its status.
fn not_extended(refusal: &ExtendRefusal) -> Report
    ensures { result ≡ report (refusal_status refusal.now) (not_extended_line 2 refusal.now) }
{
    let line = not_extended_line(2, refusal);
    Report::new(status_of(refusal), line)
}

fn status_of(refusal: &ExtendRefusal) -> Status
    ensures { result ≡ refusal_status refusal.now }
{
    match refusal {
        ExtendRefusal::Malformed(_) => Status::Malformed,
        _ => Status::Refused,
    }
}
