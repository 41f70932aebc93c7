//! Laws of signatures. None of these functions does anything; a body that calls one may use what it says.

ghost use Rattle.std.specs.Prelude.{◌≡◌, ◌↔◌, ◌⊎◌, ◌≤◌, ◌+◌, ℕ, List, [], length, false, None, Ok, Err};
ghost use Rattle.std.specs.List.{AllByRecursion};
ghost use Rattle.ksi_imprint.specs.Imprints.{IsImprint};
ghost use Rattle.ksi_aggtree.specs.declared.chains.link.Link.{Link};
ghost use Rattle.ksi_aggtree.specs.Links.{is_bare};
ghost use Rattle.ksi_aggtree.specs.Owned.{plain_links};
ghost use Rattle.ksi_tlv.specs.Spelling.{AreBytes};
ghost use Rattle.ksi_tlv.specs.Walking.{PlacedTlv};
ghost use Rattle.ksi_signature.specs.Values.{Calendar, Publishing, Fall};
ghost use Rattle.ksi_signature.specs.Contents.{signature_of};
ghost use Rattle.ksi_signature.specs.Order.{chains_among, with_parts};
ghost use Rattle.ksi_signature.specs.declared.above.Above.{Above};
ghost use Rattle.ksi_signature.specs.declared.fault.SignatureFault.{SignatureFault};
ghost use Rattle.ksi_signature.specs.declared.signature.Signature.{Signature};
ghost use Rattle.ksi_signature.specs.File.{IsSignature, IsSignatureFault, answer_of};
ghost use Rattle.ksi_signature.specs.Reading.{elements_in, signature_at};
ghost use Rattle.ksi_signature.specs.Seen.{seen, bytes_seen};
ghost use Rattle.ksi_signature.specs.Kept.{IsCalendar, IsPublishing, IsLimited, IsLent};
ghost use Rattle.ksi_signature.specs.Above.{AreRoundLinks};
ghost use Rattle.ksi_signature.specs.Carried.{MayBeIssued, IsOfBytes, CalendarOfBytes};
ghost use Rattle.ksi_signature.specs.Issued.{issued};
ghost use Rattle.ksi_signature.specs.Extended.{extended_content, extended_text, renewed};
ghost use Rattle.ksi_signature.specs.Written.{signature_text, sizes_of, first_long};

use crate::signature_view::SignatureView;
use crate::within::are_bytes;
use ksi_tlv::grammar::laws::{
    inside_is_whole, published_is_read, record_is_read, whole_or_fault, written_is_whole,
};
use ksi_tlv::laws::{
    canonical_is_shortest, front_by_spelling, numeral_is_read, reading_is_elements, written_is_read,
};

/// Bytes are a signature or have a first fault, and not both; and they are one signature and have one first fault.
/// Reading from left to right comes to no fault exactly where they are a signature, and to a fault exactly where it is
/// the first.
pub fn signature_or_fault()
    ensures one { (bytes : List ℕ) → AreBytes bytes →
        ((signature : Signature) × IsSignature bytes signature) ⊎ ((fault : SignatureFault) × IsSignatureFault bytes fault) }
    ensures not_both { (bytes : List ℕ) (signature : Signature) (fault : SignatureFault) → AreBytes bytes →
        IsSignature bytes signature → IsSignatureFault bytes fault → ⊥ }
    ensures one_signature { (bytes : List ℕ) (some other : Signature) →
        IsSignature bytes some → IsSignature bytes other → some ≡ other }
    ensures one_fault { (bytes : List ℕ) (fault other : SignatureFault) → AreBytes bytes →
        IsSignatureFault bytes fault → IsSignatureFault bytes other → fault ≡ other }
    ensures whole { (bytes : List ℕ) → AreBytes bytes →
        (answer_of bytes ≡ Ok tt) ↔ ((signature : Signature) × IsSignature bytes signature) }
    ensures fault { (bytes : List ℕ) (fault : SignatureFault) → AreBytes bytes →
        (answer_of bytes ≡ Err fault) ↔ IsSignatureFault bytes fault }
{
    whole_or_fault();
    front_by_spelling();
}

/// What is read in bytes is the signature that they are, or their first fault; and the elements that the first one holds
/// are those of the signature.
pub fn signature_is_read()
    ensures signature { (bytes : List ℕ) (signature : Signature) → AreBytes bytes →
        (signature_at bytes ≡ Ok signature) ↔ IsSignature bytes signature }
    ensures fault { (bytes : List ℕ) (fault : SignatureFault) → AreBytes bytes →
        (signature_at bytes ≡ Err fault) ↔ IsSignatureFault bytes fault }
    ensures elements { (bytes : List ℕ) (signature : Signature) → (is : IsSignature bytes signature) →
        elements_in bytes ≡ is.elements }
{
    whole_or_fault();
    front_by_spelling();
}

/// The chains of a signature stand by falling number of index parts, and those of equal number in the order of the
/// bytes.
pub fn chains_in_order()
    ensures fall { (es : List PlacedTlv) → Fall (signature_of es).chains }
    ensures equal { (parts : ℕ) (es : List PlacedTlv) →
        with_parts parts (signature_of es).chains ≡ with_parts parts (chains_among es) }
{}

/// Each chain of a signature is within the limits of its type.
pub fn chains_are_within()
    ensures { (bytes : List ℕ) (signature : Signature) → IsSignature bytes signature → AllByRecursion IsLent signature.chains }
{
    inside_is_whole();
}

/// The text of a signature is that signature, where its parts are what their types keep and no body is too long.
pub fn written_is_signature()
    ensures { (signature : Signature) → IsLimited signature → first_long (sizes_of signature) ≡ None →
        IsSignature (signature_text signature) signature }
{
    written_is_whole();
    inside_is_whole();
    published_is_read();
    record_is_read();
    canonical_is_shortest();
    numeral_is_read();
}

/// No link of a round's tree is bare: a raw sibling belongs to a left link.
pub fn round_links_are_not_bare()
    ensures { (links : List Link) → AreRoundLinks links → AllByRecursion (λ link. is_bare link ≡ false) (plain_links links) }
{}

/// What is issued is that signature, in at most 10,000 bytes.
pub fn issued_is_signature()
    ensures signature { (second : ℕ) (input : List ℕ) (links : List Link) (above : Above) → MayBeIssued second input links above →
        IsSignature (signature_text (issued second input links above)) (issued second input links above) }
    ensures short { (second : ℕ) (input : List ℕ) (links : List Link) (above : Above) → MayBeIssued second input links above →
        length (signature_text (issued second input links above)) ≤ 10000 }
{
    written_is_signature();
    numeral_is_read();
}

/// What is issued are bytes, where all that it is issued of are.
pub fn issued_is_bytes()
    ensures { (second : ℕ) (input : List ℕ) (links : List Link) (above : Above) → MayBeIssued second input links above →
        IsOfBytes input links above → AreBytes (signature_text (issued second input links above)) }
{
    issued_is_signature();
}

/// A signature with another calendar chain and publication record is the signature with these, where their parts are
/// what their types keep and the content is not too long.
pub fn extended_is_signature()
    ensures { (bytes : List ℕ) (signature : Signature) (chain : Calendar) (published : Publishing) → AreBytes bytes →
        IsSignature bytes signature → IsCalendar chain → IsPublishing published →
        length (extended_content bytes chain published) ≤ 65535 →
        IsSignature (extended_text bytes chain published) (renewed signature chain published) }
{
    whole_or_fault();
    front_by_spelling();
    reading_is_elements();
    written_is_read();
    written_is_whole();
    inside_is_whole();
    published_is_read();
    record_is_read();
    canonical_is_shortest();
    numeral_is_read();
}

/// A signature with another calendar chain and with a publication record that says a time and a hash alone: its content
/// has at most 2,453 bytes more than the signature.
pub fn extended_is_short()
    ensures { (bytes : List ℕ) (signature : Signature) (chain : Calendar) (time : ℕ) (hash : List ℕ) → AreBytes bytes →
        IsSignature bytes signature → IsCalendar chain → IsImprint hash →
        length (extended_content bytes chain (record { time = time; hash = hash; references = []; repositories = [] })) ≤ length bytes + 2453 }
{
    whole_or_fault();
    front_by_spelling();
    reading_is_elements();
    written_is_whole();
    inside_is_whole();
    published_is_read();
    record_is_read();
    canonical_is_shortest();
    numeral_is_read();
}

/// Bytes with another calendar chain and with a publication record that says a time and a hash alone are bytes, where
/// these are of bytes and the content is not too long.
pub fn extended_is_bytes()
    ensures { (bytes : List ℕ) (chain : Calendar) (time : ℕ) (hash : List ℕ) → AreBytes bytes →
        AreBytes chain.input → CalendarOfBytes chain.links → AreBytes hash →
        length (extended_content bytes chain (record { time = time; hash = hash; references = []; repositories = [] })) ≤ 65535 →
        AreBytes (extended_text bytes chain (record { time = time; hash = hash; references = []; repositories = [] })) }
{}

/// What a view shows is the signature that its bytes are.
pub fn shown_is_of_bytes(view: &SignatureView<'_>)
    ensures signature { IsSignature (bytes_seen view.now) (seen view.now) }
    ensures read { signature_at (bytes_seen view.now) ≡ Ok (seen view.now) }
    ensures bytes { AreBytes (bytes_seen view.now) }
{
    signature_is_read();
    are_bytes(view.bytes);
}
