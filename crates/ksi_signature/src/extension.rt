ghost use Rattle.std.specs.Prelude.{◌≡◌, ◌↔◌, ◌≤◌, ◌∷◌, [], ℕ, Err, IfOk, length};
ghost use Rattle.std.specs.List.{AllByRecursion};
ghost use Rattle.ksi_imprint.specs.declared.refused.Refused.TheVariants.{Fault};
ghost use Rattle.ksi_tlv.specs.Views.{view, view_placed};
ghost use Rattle.ksi_tlv.specs.Spelling.{plain, canonical};
ghost use Rattle.ksi_tlv.specs.Writing.{texts};
ghost use Rattle.ksi_tlv.specs.Inside.{inner_elements};
ghost use Rattle.ksi_signature.specs.declared.fault.SignatureFault.{SignatureFault};
ghost use Rattle.ksi_signature.specs.declared.extension.WithRefusal.TheVariants as refusals;
ghost use Rattle.ksi_signature.specs.declared.signature.Signature.{Signature};
ghost use Rattle.ksi_signature.specs.File.{IsSignature, IsSignatureFault};
ghost use Rattle.ksi_signature.specs.Seen.{seen, bytes_seen};
ghost use Rattle.ksi_signature.specs.Renewed.{too_long};
ghost use Rattle.ksi_signature.specs.Lengths.{capped};
ghost use Rattle.ksi_signature.specs.Written.{calendar_element, publishing_element, publishing_elements};
ghost use Rattle.ksi_signature.specs.Extended.{is_retained, text_in, retained_texts, content_with, extended_content, extended_text, renewed, IsTooLong, StandsIn};

use crate::NoMemory;
use crate::bodies::{calendar_body, publishing_body};
use crate::fault::SignatureFault;
use crate::kinds::{CALENDAR, CHAIN, PUBLICATION, SIGNATURE};
use crate::laws::signature_or_fault;
use crate::lengths::{calendar_size, publishing_size, size_of};
use crate::refusal::WriteRefusal;
use crate::signature::{CalendarChain, PublicationRecord};
use crate::signature_view::SignatureView;
use crate::viewer::view;
use ksi_imprint::{Bytes, Refused};
use ksi_tlv::grammar::put_short;
use ksi_tlv::{Element, Elements, Placed, Writer};
use std::alloc::Global;

/// Why there is no signature with another calendar chain.
#[derive(Clone, Copy, Debug, PartialEq, Eq)]
pub enum WithRefusal {
    /// The bytes are no signature: the first fault in reading order.
    Malformed(SignatureFault),
    /// The new content has this many bytes, above 65,535.
    TooLong(u64),
}

impl From<SignatureFault> for Refused<WithRefusal> {
    ghost use Rattle.std.specs.Prelude.{◌≡◌};
    ghost use Rattle.ksi_imprint.specs.declared.refused.Refused.TheVariants.{Fault};
    ghost use Rattle.ksi_signature.specs.declared.extension.WithRefusal.TheVariants as refusals;

    ghost from_gives = { λ fault refused. refused ≡ Fault (refusals.Malformed fault) };

    fn from(fault: SignatureFault) -> Self {
        Refused::Fault(WithRefusal::Malformed(fault))
    }
}

/// The bytes of a signature with this calendar chain and this publication record in place of what it had of both. Its
/// aggregation chains, and the unknown elements that are to be passed on, stay byte for byte and in their order, before
/// the new two; all other elements are dropped. Memory is taken only where the bytes are a signature and the new
/// content is not too long.
pub fn with_calendar(
    alloc: Global,
    bytes: &[u8],
    calendar: &CalendarChain,
    publication: &PublicationRecord,
) -> Result<Bytes, Refused<WithRefusal>>
    ensures text { IfOk result (λ text. text ≡ extended_text bytes.now calendar.now publication.now) }
    ensures malformed { (fault : SignatureFault) → (result ≡ Err (Fault (refusals.Malformed fault))) ↔ IsSignatureFault bytes.now fault }
    ensures too_long { (n : ℕ) → (result ≡ Err (Fault (refusals.TooLong n))) ↔
        (((signature : Signature) × IsSignature bytes.now signature)
        × IsTooLong (length (extended_content bytes.now calendar.now publication.now)) n) }
    ensures again { IfOk result (λ text. (signature : Signature) × IsSignature bytes.now signature
        × IsSignature text (renewed signature calendar.now publication.now)) }
{
    signature_or_fault();
    match view(bytes) {
        Ok(view) => renewed(alloc, &view, calendar, publication),
        Err(fault) => Err(Refused::Fault(WithRefusal::Malformed(fault))),
    }
}

fn renewed(
    alloc: Global,
    view: &SignatureView<'_>,
    calendar: &CalendarChain,
    publication: &PublicationRecord,
) -> Result<Bytes, Refused<WithRefusal>>
    ensures text { IfOk result (λ text. text ≡ extended_text (bytes_seen view.now) calendar.now publication.now) }
    ensures malformed { (fault : SignatureFault) → result ≡ Err (Fault (refusals.Malformed fault)) → ⊥ }
    ensures too_long { (n : ℕ) → (result ≡ Err (Fault (refusals.TooLong n))) ↔
        IsTooLong (length (extended_content (bytes_seen view.now) calendar.now publication.now)) n }
    ensures again { IfOk result (λ text. IsSignature text (renewed (seen view.now) calendar.now publication.now)) }
{
    match view.with_calendar(alloc, calendar, publication) {
        Ok(text) => Ok(text),
        Err(Refused::Fault(refusal)) => Err(Refused::Fault(too_long(refusal))),
        Err(Refused::NoMemory) => Err(Refused::NoMemory),
    }
}

fn too_long(refusal: WriteRefusal) -> WithRefusal
    ensures { result ≡ too_long refusal }
{
    match refusal {
        WriteRefusal::TooLong(size) => WithRefusal::TooLong(size),
    }
}

/// The size of the new content.
pub(crate) fn content_size(
    bytes: &[u8],
    at: &Placed<'_>,
    calendar: &CalendarChain,
    publication: &PublicationRecord,
) -> u64
    requires { AllByRecursion (StandsIn bytes.now) (inner_elements (view_placed at.now)) }
    ensures { result ≡ capped (length (content_with bytes.now (inner_elements (view_placed at.now)) calendar.now publication.now)) }
{
    let retained = retained_size(bytes, at);
    let chain = size_of(CALENDAR, calendar_size(calendar));
    let record = size_of(PUBLICATION, publishing_size(publication));
    retained.saturating_add(chain.saturating_add(record))
}

fn retained_size(bytes: &[u8], at: &Placed<'_>) -> u64
    requires { AllByRecursion (StandsIn bytes.now) (inner_elements (view_placed at.now)) }
    ensures { result ≡ capped (length (retained_texts bytes.now (inner_elements (view_placed at.now)))) }
{
    let mut size: u64 = 0;
    let mut elements = Elements::at(at.inside, at.element.body);
    while let Some(item) = elements.next() {
        if let Ok(part) = item {
            if is_retained(&part.element) {
                size = size.saturating_add(text_in(bytes, &part).len() as u64);
            }
        }
    }
    size
}

/// Whether the element is an aggregation chain, or is unknown and to be passed on.
fn is_retained(element: &Element<'_>) -> bool
    ensures { result ≡ is_retained (view element.now) }
{
    match element.kind {
        CHAIN => true,
        CALENDAR | PUBLICATION => false,
        _ => element.non_critical && element.forward,
    }
}

/// The bytes of an element in the file.
fn text_in<'a>(bytes: &'a [u8], at: &Placed<'_>) -> &'a [u8]
    requires { StandsIn bytes.now (view_placed at.now) }
    ensures { result.now ≡ text_in bytes.now (view_placed at.now) }
{
    &bytes[at.place..at.inside + at.element.body.len()]
}

/// The new signature.
pub(crate) fn text_with(
    alloc: Global,
    bytes: &[u8],
    at: &Placed<'_>,
    calendar: &CalendarChain,
    publication: &PublicationRecord,
) -> Result<Bytes, NoMemory>
    requires stand { AllByRecursion (StandsIn bytes.now) (inner_elements (view_placed at.now)) }
    requires short { length (content_with bytes.now (inner_elements (view_placed at.now)) calendar.now publication.now) ≤ 65535 }
    ensures { IfOk result (λ text. text ≡
        canonical (plain 2048 (content_with bytes.now (inner_elements (view_placed at.now)) calendar.now publication.now))) }
{
    let mut content = retained(alloc, bytes, at)?;
    let proof = proof_with(alloc, calendar, publication)?;
    content.extend_from_slice(proof.bytes())?;
    let mut writer = Writer::new(alloc);
    put_short(&mut writer, SIGNATURE, content.as_slice())?;
    Ok(Bytes::from_vec(writer.into_vec()))
}

fn retained(alloc: Global, bytes: &[u8], at: &Placed<'_>) -> Result<Vec<u8>, NoMemory>
    requires { AllByRecursion (StandsIn bytes.now) (inner_elements (view_placed at.now)) }
    ensures { IfOk result (λ retained. retained.items ≡ retained_texts bytes.now (inner_elements (view_placed at.now))) }
{
    let mut retained = Vec::new(alloc);
    let mut elements = Elements::at(at.inside, at.element.body);
    while let Some(item) = elements.next() {
        if let Ok(part) = item {
            if is_retained(&part.element) {
                retained.extend_from_slice(text_in(bytes, &part))?;
            }
        }
    }
    Ok(retained)
}

/// The elements of both.
fn proof_with(
    alloc: Global,
    calendar: &CalendarChain,
    publication: &PublicationRecord,
) -> Result<Writer, NoMemory>
    requires { length (texts (calendar_element calendar.now ∷ publishing_element publication.now ∷ [])) ≤ 65535 }
    ensures { IfOk result (λ proof. proof ≡ texts (calendar_element calendar.now ∷ publishing_element publication.now ∷ [])) }
{
    let mut proof = Writer::new(alloc);
    let chain = calendar_body(
        alloc,
        calendar.publication,
        calendar.time,
        &calendar.input,
        calendar.links.as_slice(),
    )?;
    put_short(&mut proof, CALENDAR, chain.bytes())?;
    let record = record_body(alloc, publication)?;
    put_short(&mut proof, PUBLICATION, record.bytes())?;
    Ok(proof)
}

/// The body of a record that is not too long.
fn record_body(alloc: Global, publication: &PublicationRecord) -> Result<Writer, NoMemory>
    requires { length (texts (publishing_elements publication.now)) ≤ 65535 }
    ensures { IfOk result (λ body. body ≡ texts (publishing_elements publication.now)) }
{
    match publishing_body(alloc, publication) {
        Ok(body) => Ok(body),
        Err(Refused::NoMemory) => Err(NoMemory),
        Err(Refused::Fault(_)) => unreachable!(),
    }
}
