// The line of a file that is not in its grammar: the fault's code and its values.
ghost use Rattle.std.specs.Prelude.{◌≡◌, ◌≤◌, ◌∷◌, [], map, length};
ghost use Rattle.std.specs.Fmt.{decimal};
ghost use Rattle.ksi_lines.specs.FaultWords.{signature_fault, publications_fault, journal_fault, front_fault, proof_fault, line_code, IsLineOf, node_fault};
ghost use Rattle.ksi_lines.specs.Lines.{malformed_line};
ghost use Rattle.ksi_lines.specs.Printed.{word_text, room};

use crate::line::Line;
use crate::printing::Word::{self, Digest, Number, Text};
use crate::printing::print;
use ksi_consistency::FrontFault;
use ksi_journal::JournalFault;
use ksi_logblock::ProofFault;
use ksi_nodestore::NodeFault;
use ksi_publications::PublicationsFault;
use ksi_schedule::{LineFault, ScheduleFault};
use ksi_signature::SignatureFault;

/// Of file word `n`, which is a signature.
pub fn signature_fault_line(n: usize, fault: SignatureFault) -> Line
    ensures { result ≡ malformed_line n (signature_fault fault) }
{
    match fault {
        SignatureFault::Tlv(place) => at_place(n, "S1", place),
        SignatureFault::After(place) => at_place(n, "S2", place),
        SignatureFault::NotSignature(kind) => malformed(n, "S3", &[Number(kind as u64)]),
        SignatureFault::RefusedElement(kind, place) => of_kind(n, "S4", kind, place),
        SignatureFault::UnknownCritical(kind, place) => of_kind(n, "S5", kind, place),
        SignatureFault::Missing(kind, place) => of_kind(n, "S6", kind, place),
        SignatureFault::Repeated(kind, place) => of_kind(n, "S7", kind, place),
        SignatureFault::Imprint(place) => at_place(n, "S8", place),
        SignatureFault::Number(place) => at_place(n, "S9", place),
        SignatureFault::Algorithm(value) => malformed(n, "S10", &[Number(value)]),
        SignatureFault::Links(place) => at_place(n, "S11", place),
        SignatureFault::Chains(place) => at_place(n, "S12", place),
        SignatureFault::Sibling(place) => at_place(n, "S13", place),
        SignatureFault::Time(place) => at_place(n, "S14", place),
    }
}

/// Of file word `n`, which is a publications file.
pub fn publications_fault_line(n: usize, fault: PublicationsFault) -> Line
    ensures { result ≡ malformed_line n (publications_fault fault) }
{
    match fault {
        PublicationsFault::Magic => malformed(n, "Q1", &[]),
        PublicationsFault::Tlv(place) => at_place(n, "Q2", place),
        PublicationsFault::RefusedElement(kind, place) => of_kind(n, "Q3", kind, place),
        PublicationsFault::UnknownCritical(kind, place) => of_kind(n, "Q4", kind, place),
        PublicationsFault::Missing(kind, place) => of_kind(n, "Q5", kind, place),
        PublicationsFault::Repeated(kind, place) => of_kind(n, "Q6", kind, place),
        PublicationsFault::Imprint(place) => at_place(n, "Q7", place),
        PublicationsFault::Number(place) => at_place(n, "Q8", place),
        PublicationsFault::Time(place) => at_place(n, "Q9", place),
    }
}

/// Of file word `n`, which is a journal.
pub fn journal_fault_line(n: usize, fault: &JournalFault) -> Line
    ensures { result ≡ malformed_line n (journal_fault fault.now) }
{
    match fault {
        JournalFault::Magic => malformed(n, "J1", &[]),
        JournalFault::Tlv(place) => at_place(n, "J2", *place),
        JournalFault::Order(place) => at_place(n, "J3", *place),
        JournalFault::TreeRoot(second, kept, computed) => malformed(
            n,
            "J4",
            &[Number(*second), Digest(kept), Digest(computed)],
        ),
        JournalFault::Bound(place) => at_place(n, "J5", *place),
        JournalFault::Imprint(place) => at_place(n, "J6", *place),
        JournalFault::Count(second) => malformed(n, "J7", &[Number(*second)]),
        JournalFault::Ends(place) => at_place(n, "J8", *place),
        JournalFault::Name(place) => at_place(n, "J9", *place),
        JournalFault::Voters(place) => at_place(n, "J10", *place),
    }
}

/// Of file word `n`, which is a front.
pub fn front_fault_line(n: usize, fault: FrontFault) -> Line
    ensures { result ≡ malformed_line n (front_fault fault) }
{
    match fault {
        FrontFault::Magic => malformed(n, "C1", &[]),
        FrontFault::Tlv(place) => at_place(n, "C2", place),
        FrontFault::Order(place) => at_place(n, "C3", place),
        FrontFault::Imprint(place) => at_place(n, "C4", place),
        FrontFault::Number(place) => at_place(n, "C5", place),
    }
}

/// Of file word `n`, which is a schedule.
pub fn schedule_fault_line(n: usize, fault: &ScheduleFault) -> Line
    ensures { IsLineOf n fault.now result }
{
    match fault {
        ScheduleFault::Line(fault, line) => malformed(n, line_code(*fault), &[Number(*line)]),
    }
}

/// Of file word `n`, which is a node file.
pub fn node_fault_line(n: usize, fault: NodeFault) -> Line
    ensures { result ≡ malformed_line n (node_fault fault) }
{
    match fault {
        NodeFault::NotFormatted => malformed(n, "N1", &[]),
        NodeFault::Malformed(place) => malformed(n, "N2", &[Number(place)]),
        NodeFault::Bad(core, cores, start) => {
            let values = [Number(core as u64), Number(cores as u64), Number(start)];
            malformed(n, "N3", &values)
        }
    }
}

fn line_code(fault: LineFault) -> &'static str
    ensures code { result.now ≡ line_code fault }
    ensures short { length result.now ≤ 3 }
{
    match fault {
        LineFault::Word => "L1",
        LineFault::Number => "L2",
        LineFault::Hash => "L3",
        LineFault::NoSuchActor => "L4",
        LineFault::SecondOutOfRange => "L5",
        LineFault::TooManyEvents => "L6",
        LineFault::Header => "L7",
        LineFault::Name => "L8",
    }
}

/// Of file word `n`, which is the proof of a line.
pub fn proof_fault_line(n: usize, fault: ProofFault) -> Line
    ensures { result ≡ malformed_line n (proof_fault fault) }
{
    match fault {
        ProofFault::Magic => malformed(n, "G1", &[]),
        ProofFault::Tlv(place) => at_place(n, "G2", place),
        ProofFault::Order(place) => at_place(n, "G3", place),
        ProofFault::Imprint(place) => at_place(n, "G4", place),
        ProofFault::Number(place) => at_place(n, "G5", place),
        ProofFault::Links(place) => at_place(n, "G6", place),
    }
}

fn at_place(n: usize, code: &str, place: usize) -> Line
    requires { length code.now ≤ 3 }
    ensures { result ≡ malformed_line n (code.now ∷ decimal place ∷ []) }
{
    malformed(n, code, &[Number(place as u64)])
}

fn of_kind(n: usize, code: &str, kind: u16, place: usize) -> Line
    requires { length code.now ≤ 3 }
    ensures { result ≡ malformed_line n (code.now ∷ decimal kind ∷ decimal place ∷ []) }
{
    malformed(n, code, &[Number(kind as u64), Number(place as u64)])
}

fn malformed(n: usize, code: &str, values: &[Word<'_>]) -> Line
    requires code { length code.now ≤ 3 }
    requires values { room values.now ≤ 200 }
    ensures { result ≡ malformed_line n (code.now ∷ map word_text values.now) }
{
    print(Text("malformed"), &[Number(n as u64), Text(code)], values)
}
