// Verdicts as numbers and digests.
ghost use Rattle.std.specs.Prelude.{◌≡◌, ◌∷◌, [], drop};
ghost use Rattle.ksi_verifier.specs.declared.files_verdict.FilesVerdict.TheVariants as files;
ghost use Rattle.ksi_verifier.specs.declared.proved.Proved as declared;
ghost use Rattle.ksi_c.specs.Answers.{answer, answered, digests_told, difference_told, no_digest, numbers_told, or_zero, parts_there, proved_told, publications_fault_told, refusal_told, shape_told, signature_fault_told, told};

use crate::answer::KsiAnswer;
use crate::told::Told;
use ksi_imprint::Imprint;
use ksi_publications::PublicationsFault;
use ksi_signature::SignatureFault;
use ksi_split::ShapeFault;
use ksi_verifier::{FilesVerdict, Proved, RecordDifference, Refusal};

/// What is answered of a verdict.
pub(crate) fn answered(verdict: &FilesVerdict) -> KsiAnswer
    ensures value { result ≡ answered verdict.now }
    // A root is the byte 1 and the digest that is answered.
    ensures root { (proved : declared.Proved) → verdict.now ≡ files.Accepted proved → proved.root ≡ 1 ∷ drop 1 proved.root }
{
    match verdict {
        FilesVerdict::Accepted(proved) => {
            proved.root.bytes();
            answer(0, 0, proved.second, &proved_told(proved))
        }
        FilesVerdict::Refused(refusal) => answer(1, 0, 0, &refusal_told(refusal)),
        FilesVerdict::NotSignature(fault) => answer(3, 1, 0, &signature_fault_told(*fault)),
        FilesVerdict::NotPublications(fault) => answer(3, 3, 0, &publications_fault_told(*fault)),
    }
}

/// An answer of these values.
pub(crate) fn answer(status: u32, file: u32, second: u64, told: &Told) -> KsiAnswer
    ensures { result ≡ answer status file second told.now }
{
    KsiAnswer {
        status,
        file,
        code: told.code,
        detail: told.detail,
        second,
        numbers: told.numbers,
        one: told.one,
        other: told.other,
    }
}

fn proved_told(proved: &Proved) -> Told
    ensures { result ≡ proved_told proved.now }
{
    Told {
        code: 0,
        detail: 0,
        numbers: [proved.publication, 0, 0, 0],
        one: digest_of(&proved.root),
        other: [0; 32],
    }
}

fn refusal_told(refusal: &Refusal) -> Told
    ensures { result ≡ refusal_told refusal.now }
{
    match refusal {
        Refusal::WrongHash {
            in_signature,
            given,
        } => digests_told(1, 0, 0, in_signature, given),
        Refusal::IndexOrder {
            chain,
            place,
            lower,
            higher,
        } => order_told(*chain, *place, *lower, *higher),
        Refusal::IndexShape { chain, part, shape } => {
            numbers_told(3, [*chain, *part, *shape, 0])
        }
        Refusal::Level { chain, link, level } => {
            numbers_told(4, [*chain, *link, *level as u64, 0])
        }
        Refusal::ChainBreak {
            chain,
            computed,
            stated,
        } => digests_told(5, 0, *chain, computed, stated),
        Refusal::AggregationTimes { chain, first, this } => {
            numbers_told(6, [*chain, *first, *this, 0])
        }
        Refusal::BareMetadata { chain, link } => numbers_told(15, [*chain, *link, 0, 0]),
        Refusal::NoCalendar => numbers_told(7, [0; 4]),
        Refusal::CalendarInput { computed, stated } => digests_told(8, 0, 0, computed, stated),
        Refusal::MissedSecond => numbers_told(9, [0; 4]),
        Refusal::CalendarShape(fault) => shape_told(*fault),
        Refusal::TimeField { field, second } => numbers_told(11, [*field, *second, 0, 0]),
        Refusal::RecordDiffers(difference) => difference_told(difference),
        Refusal::NoPublication { time } => numbers_told(13, [*time, 0, 0, 0]),
        Refusal::PublicationDiffers {
            time,
            in_file,
            computed,
        } => digests_told(14, 0, *time, in_file, computed),
    }
}

fn order_told(chain: u64, place: u64, lower: Option<u64>, higher: Option<u64>) -> Told
    ensures { result ≡ told 2 (parts_there lower higher) (chain ∷ place ∷ or_zero lower ∷ or_zero higher ∷ []) no_digest no_digest }
{
    Told {
        code: 2,
        detail: parts_there(lower, higher),
        numbers: [chain, place, or_zero(lower), or_zero(higher)],
        one: [0; 32],
        other: [0; 32],
    }
}

fn parts_there(lower: Option<u64>, higher: Option<u64>) -> u32
    ensures { result ≡ parts_there lower higher }
{
    match (lower, higher) {
        (None, None) => 0,
        (Some(_), None) => 1,
        (None, Some(_)) => 2,
        (Some(_), Some(_)) => 3,
    }
}

fn or_zero(part: Option<u64>) -> u64
    ensures { result ≡ or_zero part }
{
    match part {
        None => 0,
        Some(n) => n,
    }
}

fn shape_told(fault: ShapeFault) -> Told
    ensures { result ≡ shape_told fault }
{
    match fault {
        ShapeFault::TooMany(place) => detailed(10, 0, [place as u64, 0, 0, 0]),
        ShapeFault::TooFew(rest) => detailed(10, 1, [rest, 0, 0, 0]),
    }
}

fn difference_told(difference: &RecordDifference) -> Told
    ensures { result ≡ difference_told difference.now }
{
    match difference {
        RecordDifference::Time {
            record,
            publication,
        } => detailed(12, 0, [*record, *publication, 0, 0]),
        RecordDifference::Hash { record, computed } => digests_told(12, 1, 0, record, computed),
    }
}

fn signature_fault_told(fault: SignatureFault) -> Told
    ensures { result ≡ signature_fault_told fault }
{
    match fault {
        SignatureFault::Tlv(place) => at_place(1, place),
        SignatureFault::After(place) => at_place(2, place),
        SignatureFault::NotSignature(kind) => numbers_told(3, [kind as u64, 0, 0, 0]),
        SignatureFault::RefusedElement(kind, place) => of_kind(4, kind, place),
        SignatureFault::UnknownCritical(kind, place) => of_kind(5, kind, place),
        SignatureFault::Missing(kind, place) => of_kind(6, kind, place),
        SignatureFault::Repeated(kind, place) => of_kind(7, kind, place),
        SignatureFault::Imprint(place) => at_place(8, place),
        SignatureFault::Number(place) => at_place(9, place),
        SignatureFault::Algorithm(value) => numbers_told(10, [value, 0, 0, 0]),
        SignatureFault::Links(place) => at_place(11, place),
        SignatureFault::Chains(place) => at_place(12, place),
        SignatureFault::Sibling(place) => at_place(13, place),
        SignatureFault::Time(place) => at_place(14, place),
    }
}

fn publications_fault_told(fault: PublicationsFault) -> Told
    ensures { result ≡ publications_fault_told fault }
{
    match fault {
        PublicationsFault::Magic => numbers_told(1, [0; 4]),
        PublicationsFault::Tlv(place) => at_place(2, place),
        PublicationsFault::RefusedElement(kind, place) => of_kind(3, kind, place),
        PublicationsFault::UnknownCritical(kind, place) => of_kind(4, kind, place),
        PublicationsFault::Missing(kind, place) => of_kind(5, kind, place),
        PublicationsFault::Repeated(kind, place) => of_kind(6, kind, place),
        PublicationsFault::Imprint(place) => at_place(7, place),
        PublicationsFault::Number(place) => at_place(8, place),
        PublicationsFault::Time(place) => at_place(9, place),
    }
}

pub(crate) fn at_place(code: u32, place: usize) -> Told
    ensures { result ≡ numbers_told code place 0 0 0 }
{
    numbers_told(code, [place as u64, 0, 0, 0])
}

fn of_kind(code: u32, kind: u16, place: usize) -> Told
    ensures { result ≡ numbers_told code kind place 0 0 }
{
    numbers_told(code, [kind as u64, place as u64, 0, 0])
}

pub(crate) fn numbers_told(code: u32, numbers: [u64; 4]) -> Told
    ensures { result ≡ told code 0 numbers no_digest no_digest }
{
    detailed(code, 0, numbers)
}

fn detailed(code: u32, detail: u32, numbers: [u64; 4]) -> Told
    ensures { result ≡ told code detail numbers no_digest no_digest }
{
    Told {
        code,
        detail,
        numbers,
        one: [0; 32],
        other: [0; 32],
    }
}

pub(crate) fn digests_told(
    code: u32,
    detail: u32,
    number: u64,
    one: &Imprint,
    other: &Imprint,
) -> Told
    ensures { result ≡ digests_told code detail number one.now other.now }
{
    Told {
        code,
        detail,
        numbers: [number, 0, 0, 0],
        one: digest_of(one),
        other: digest_of(other),
    }
}

pub(crate) fn digest_of(imprint: &Imprint) -> [u8; 32]
    ensures { result ≡ drop 1 imprint.now }
{
    let (_, digest) = imprint.bytes().split_at(1);
    let mut out = [0; 32];
    out.copy_from_slice(digest);
    out
}
