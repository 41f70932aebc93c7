// Files read by their grammars.
ghost use Rattle.std.specs.Prelude.{◌≡◌, ℕ, List, IfOk};
ghost use Rattle.ksi_imprint.specs.Imprints.{imprint_of};
ghost use Rattle.ksi_consistency.specs.File.{IsFrontFile};
ghost use Rattle.ksi_journal.specs.File.{IsJournalFile};
ghost use Rattle.ksi_logblock.specs.File.{IsProofFile};
ghost use Rattle.ksi_mirror.specs.File.{IsMirrorFile};
ghost use Rattle.ksi_nodestore.specs.Inspecting.{IsInspected};
ghost use Rattle.ksi_publications.specs.File.{IsPublications};
ghost use Rattle.ksi_publications.specs.Lent.{lent_pairs};
ghost use Rattle.ksi_schedule.specs.Spelled.{IsScheduleText};
ghost use Rattle.ksi_signature.specs.File.{IsSignature};
ghost use Rattle.ksi_signature.specs.Seen.{seen, bytes_seen};
ghost use Rattle.ksi_top.specs.declared.report.Halt.TheVariants.{Reported};
ghost use Rattle.ksi_top.specs.declared.status.Status.TheVariants.{Malformed};
ghost use Rattle.ksi_top.specs.Reports.{Gives, HaltsMalformed, report};
ghost use Rattle.ksi_top.specs.Loading.{FileKind, read_as, shown_or_halt, signature_file, publications_file, journal_file, front_file, schedule_file, proof_file, mirror_file, node_file};

use crate::report::{Halt, Report};
use crate::status::Status;
use ksi_consistency::Front;
use ksi_consistency::laws::front_is_read;
use ksi_imprint::{Refused, Sha};
use ksi_journal::Journal;
use ksi_journal::laws::journal_is_read;
use ksi_lines::{
    Line, front_fault_line, journal_fault_line, node_fault_line, proof_fault_line,
    publications_fault_line, schedule_fault_line, signature_fault_line,
};
use ksi_logblock::LineProof;
use ksi_logblock::laws::proof_is_read;
use ksi_mirror::Mirror;
use ksi_mirror::laws::mirror_is_read;
use ksi_nodestore::Inspected;
use ksi_publications::PublicationsView;
use ksi_publications::laws::publications_are_read;
use ksi_schedule::Schedule;
use ksi_schedule::laws::schedule_is_read;
use ksi_signature::laws::signature_is_read;
use ksi_signature::{SignatureView, view};
use std::alloc::Global;

/// A value that a file word stands for, read from its bytes.
pub(crate) trait FileWord {
    /// What bytes are read as, and the words that a fault of theirs is told by.
    ghost kind: { FileKind Self };

    /// Which bytes are a file of the value.
    ghost spells: { List ℕ → Self → Type 0 };

    /// What file word `n` is, or that it is none.
    fn read(alloc: Global, n: usize, bytes: &[u8]) -> Result<Self, Halt>
        ensures told { Gives (read_as kind n bytes.now) result }
        ensures is { IfOk result (spells bytes.now) }
        ensures halts { HaltsMalformed result };
}

impl FileWord for Journal<Sha> {
    ghost kind = { journal_file };

    ghost spells = { IsJournalFile imprint_of };

    fn read(alloc: Global, n: usize, bytes: &[u8]) -> Result<Journal<Sha>, Halt> {
        journal_is_read();
        match ksi_journal::load::<Sha>(alloc, bytes) {
            Ok(journal) => Ok(journal),
            Err(Refused::Fault(fault)) => Err(malformed(journal_fault_line(n, &fault))),
            Err(Refused::NoMemory) => Err(Halt::NoMemory),
        }
    }
}

impl FileWord for Front {
    ghost kind = { front_file };

    ghost spells = { IsFrontFile };

    fn read(alloc: Global, n: usize, bytes: &[u8]) -> Result<Front, Halt> {
        front_is_read();
        match ksi_consistency::read_front(alloc, bytes) {
            Ok(front) => Ok(front),
            Err(Refused::Fault(fault)) => Err(malformed(front_fault_line(n, fault))),
            Err(Refused::NoMemory) => Err(Halt::NoMemory),
        }
    }
}

impl FileWord for Schedule {
    ghost kind = { schedule_file };

    ghost spells = { IsScheduleText };

    fn read(alloc: Global, n: usize, bytes: &[u8]) -> Result<Schedule, Halt> {
        schedule_is_read();
        match ksi_schedule::read_schedule(alloc, bytes) {
            Ok(schedule) => Ok(schedule),
            Err(Refused::Fault(fault)) => Err(malformed(schedule_fault_line(n, &fault))),
            Err(Refused::NoMemory) => Err(Halt::NoMemory),
        }
    }
}

impl FileWord for LineProof {
    ghost kind = { proof_file };

    ghost spells = { IsProofFile };

    fn read(alloc: Global, n: usize, bytes: &[u8]) -> Result<LineProof, Halt> {
        proof_is_read();
        match ksi_logblock::read_proof(alloc, bytes) {
            Ok(proof) => Ok(proof),
            Err(Refused::Fault(fault)) => Err(malformed(proof_fault_line(n, fault))),
            Err(Refused::NoMemory) => Err(Halt::NoMemory),
        }
    }
}

impl FileWord for Mirror {
    ghost kind = { mirror_file };

    ghost spells = { IsMirrorFile };

    fn read(alloc: Global, n: usize, bytes: &[u8]) -> Result<Mirror, Halt> {
        mirror_is_read();
        match ksi_mirror::load_mirror(alloc, bytes) {
            Ok(mirror) => Ok(mirror),
            Err(Refused::Fault(fault)) => Err(malformed(journal_fault_line(n, &fault))),
            Err(Refused::NoMemory) => Err(Halt::NoMemory),
        }
    }
}

impl FileWord for Inspected {
    ghost kind = { node_file };

    ghost spells = { IsInspected };

    fn read(alloc: Global, n: usize, bytes: &[u8]) -> Result<Inspected, Halt> {
        match ksi_nodestore::inspect::<Sha>(alloc, bytes) {
            Ok(said) => Ok(said),
            Err(Refused::Fault(fault)) => Err(malformed(node_fault_line(n, fault))),
            Err(Refused::NoMemory) => Err(Halt::NoMemory),
        }
    }
}

/// The signature that file word `n` is, lent from its bytes, or that it is none. No memory is taken.
pub(crate) fn view_signature(n: usize, bytes: &[u8]) -> Result<SignatureView<'_>, Halt>
    ensures told { Gives (read_as signature_file n bytes.now) (shown_or_halt seen result) }
    ensures is { IfOk result (λ view. IsSignature bytes.now (seen view)) }
    ensures bytes { IfOk result (λ view. bytes_seen view ≡ bytes.now) }
    ensures halts { HaltsMalformed (shown_or_halt seen result) }
{
    signature_is_read();
    match view(bytes) {
        Ok(signature) => Ok(signature),
        Err(fault) => Err(malformed(signature_fault_line(n, fault))),
    }
}

/// The publications file that file word `n` is, lent from its bytes, or that it is none. No memory is taken.
pub(crate) fn view_publications(n: usize, bytes: &[u8]) -> Result<PublicationsView<'_>, Halt>
    ensures told { Gives (read_as publications_file n bytes.now) (shown_or_halt lent_pairs result) }
    ensures is { IfOk result (λ view. IsPublications bytes.now (lent_pairs view)) }
    ensures halts { HaltsMalformed (shown_or_halt lent_pairs result) }
{
    publications_are_read();
    match PublicationsView::of(bytes) {
        Ok(publications) => Ok(publications),
        Err(fault) => Err(malformed(publications_fault_line(n, fault))),
    }
}

/// The report of a file that is not in its grammar.
fn malformed(line: Line) -> Halt
    ensures { result ≡ Reported (report Malformed line) }
{
    Halt::Reported(Report::new(Status::Malformed, line))
}
