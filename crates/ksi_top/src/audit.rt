// The command `audit`.
ghost use Rattle.std.specs.Prelude.{◌≡◌, IfOk};
ghost use Rattle.ksi_imprint.specs.Imprints.{imprint_of};
ghost use Rattle.ksi_publications.specs.Lent.{lent_pairs};
ghost use Rattle.ksi_signature.specs.Seen.{seen};
ghost use Rattle.ksi_auditor.specs.Audit as audits;
ghost use Rattle.ksi_auditor.specs.Shown.{IsShort};
ghost use Rattle.ksi_top.specs.Promised.{Performed};
ghost use Rattle.ksi_top.specs.Audit.{IsAnswered, audit_beside, audit_command, audit_over, audit_status, audited};

use crate::loading::{FILE_LIMIT, SIGNATURE_LIMIT, load, load_file};
use crate::reading::{view_publications, view_signature};
use crate::report::{Halt, Report, ended};
use crate::status::Status;
use ksi_auditor::laws::decided_tells;
use ksi_auditor::{Audit, audit_lent};
use ksi_imprint::{Imprint, NoMemory, Sha};
use ksi_journal::Journal;
use ksi_lines::audit_line;
use ksi_ports::Files;
use ksi_publications::PublicationsView;
use ksi_signature::SignatureView;
use std::alloc::Global;

/// Loads the journal, then the signature, then the publications, and audits the signature for the hash.
pub(crate) fn audit<F: Files>(
    alloc: Global,
    files: &mut F,
    journal: &str,
    signature: &str,
    hash: &Imprint,
    publications: &str,
) -> Result<Report, Halt>
    ensures { Performed F.Files (audit_command journal.now signature.now hash.now publications.now) files.old files.new result }
{
    let journal = load::<Journal<Sha>, F>(alloc, files, 1, journal)?;
    audit_beside(alloc, files, &journal, signature, hash, publications)
}

/// Loads the signature, then the publications.
fn audit_beside<F: Files>(
    alloc: Global,
    files: &mut F,
    journal: &Journal<Sha>,
    signature: &str,
    hash: &Imprint,
    publications: &str,
) -> Result<Report, Halt>
    ensures { Performed F.Files (audit_beside journal.now signature.now hash.now publications.now) files.old files.new result }
{
    let bytes = load_file(alloc, files, SIGNATURE_LIMIT, 2, signature)?;
    let signature = view_signature(2, bytes.as_slice())?;
    audit_over(alloc, files, journal, &signature, hash, publications)
}

/// Loads the publications, and audits. They are read where their bytes lie.
fn audit_over<F: Files>(
    alloc: Global,
    files: &mut F,
    journal: &Journal<Sha>,
    signature: &SignatureView<'_>,
    hash: &Imprint,
    publications: &str,
) -> Result<Report, Halt>
    ensures { Performed F.Files (audit_over journal.now (seen signature.now) hash.now publications.now) files.old files.new result }
{
    let bytes = load_file(alloc, files, FILE_LIMIT, 4, publications)?;
    let publications = view_publications(4, bytes.as_slice())?;
    ended(answer(alloc, journal, signature, hash, &publications))
}

fn answer(
    alloc: Global,
    journal: &Journal<Sha>,
    signature: &SignatureView<'_>,
    hash: &Imprint,
    publications: &PublicationsView<'_>,
) -> Result<Report, NoMemory>
    ensures answer { IfOk result (λ report. report ≡ audited (audits.audit imprint_of journal.now (seen signature.now) hash.now (lent_pairs publications.now))) }
    ensures answered { IfOk result (IsAnswered journal.now (seen signature.now) hash.now (lent_pairs publications.now)) }
{
    decided_tells();
    let _start = journal.start();
    let audit = audit_lent::<Sha, PublicationsView<'_>>(
        alloc,
        journal,
        signature,
        hash,
        publications,
    )?;
    audited(alloc, &audit)
}

/// An audit's answer, with its line and its status.
///
/// # Errors
/// `NoMemory` where the line of a clash finds none.
fn audited(alloc: Global, audit: &Audit) -> Result<Report, NoMemory>
    requires { IsShort audit.now }
    ensures { IfOk result (λ report. report ≡ audited audit.now) }
{
    let line = audit_line(alloc, audit)?;
    Ok(Report::new(status_of(audit), line))
}

fn status_of(audit: &Audit) -> Status
    ensures { result ≡ audit_status audit.now }
{
    match audit {
        Audit::Inside(..) | Audit::Beneath(..) => Status::Done,
        Audit::Clash(_) => Status::Clash,
        _ => Status::Refused,
    }
}
