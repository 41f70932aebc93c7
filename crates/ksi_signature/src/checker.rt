ghost use Rattle.std.specs.Prelude.{◌≡◌, ◌≤◌, ◌-◌, ◌↔◌, length, Ok, Err, IsOk, IfOk, IfErr};
ghost use Rattle.ksi_tlv.specs.Views.{view};
ghost use Rattle.ksi_tlv.specs.Front.{element_at};
ghost use Rattle.ksi_tlv.specs.Containing.{container_verdict};
ghost use Rattle.ksi_signature.specs.Tables.{signature_table};
ghost use Rattle.ksi_signature.specs.declared.fault.SignatureFault.{SignatureFault};
ghost use Rattle.ksi_signature.specs.declared.signature.Signature.{Signature};
ghost use Rattle.ksi_signature.specs.File.{IsSignature, IsSignatureFault, name_of, answer_of};

use crate::containers::SignatureContent;
use crate::fault::SignatureFault;
use crate::kinds::SIGNATURE;
use crate::laws::signature_or_fault;
use ksi_tlv::grammar::{ElementFault, check as check_container};
use ksi_tlv::{Element, read_one};

/// Whether bytes are a signature, else the first fault in reading order. No memory is taken.
pub fn check(bytes: &[u8]) -> Result<(), SignatureFault>
    ensures ok { IsOk result ↔ ((signature : Signature) × IsSignature bytes.now signature) }
    ensures fault { (fault : SignatureFault) → (result ≡ Err fault) ↔ IsSignatureFault bytes.now fault }
    ensures exact { result ≡ answer_of bytes.now }
{
    signature_or_fault();
    verdict(bytes)
}

fn verdict(bytes: &[u8]) -> Result<(), SignatureFault>
    ensures { result ≡ answer_of bytes.now }
{
    match accepted(bytes) {
        Ok(_) => Ok(()),
        Err(fault) => Err(fault),
    }
}

/// The element of a signature with its size, which is that of all the bytes.
#[tactic(auto, unfolding(crate::specs::File::answer_of))]
pub(crate) fn accepted(bytes: &[u8]) -> Result<(Element<'_>, usize), SignatureFault>
    ensures ok { IfOk result (λ _. answer_of bytes.now ≡ Ok tt) }
    ensures size { IfOk result (λ found. length found.0.body.now ≤ found.1) }
    ensures whole { IfOk result (λ found.
        container_verdict signature_table 0 (found.1 - length found.0.body.now) found.0.body.now ≡ Ok tt) }
    ensures front { IfOk result (λ found. element_at bytes.now ≡ Ok (view found.0, found.1)) }
    ensures fault { IfErr result (λ fault. answer_of bytes.now ≡ Err fault) }
{
    let (element, size) = first_element(bytes)?;
    let inside = size - element.body.len();
    if let Err(fault) = check_container::<SignatureContent>(0, inside, element.body) {
        return Err(name_of(fault));
    }
    if size < bytes.len() {
        return Err(SignatureFault::After(size));
    }
    Ok((element, size))
}

/// The element at the beginning, with its size, where its kind is that of a signature.
#[tactic(auto, unfolding(crate::specs::File::answer_of))]
fn first_element(bytes: &[u8]) -> Result<(Element<'_>, usize), SignatureFault>
    ensures size { IfOk result (λ found. length found.0.body.now ≤ found.1) }
    ensures kind { IfOk result (λ found. found.0.kind ≡ 2048) }
    ensures front { IfOk result (λ found. element_at bytes.now ≡ Ok (view found.0, found.1)) }
    ensures fault { IfErr result (λ fault. answer_of bytes.now ≡ Err fault) }
{
    let Ok((element, size)) = read_one(bytes) else {
        return Err(SignatureFault::Tlv(0));
    };
    if element.kind != SIGNATURE {
        return Err(SignatureFault::NotSignature(element.kind));
    }
    Ok((element, size))
}

/// The fault of a signature by that of an element.
fn name_of(fault: ElementFault) -> SignatureFault
    ensures { result ≡ name_of fault }
{
    match fault {
        ElementFault::Tlv(place) => SignatureFault::Tlv(place),
        ElementFault::RefusedElement(kind, place) => SignatureFault::RefusedElement(kind, place),
        ElementFault::UnknownCritical(kind, place) => SignatureFault::UnknownCritical(kind, place),
        ElementFault::Missing(kind, place) => SignatureFault::Missing(kind, place),
        ElementFault::Repeated(kind, place) => SignatureFault::Repeated(kind, place),
        ElementFault::Imprint(place) => SignatureFault::Imprint(place),
        ElementFault::Number(place) => SignatureFault::Number(place),
        ElementFault::Algorithm(value) => SignatureFault::Algorithm(value),
        ElementFault::Links(place) => SignatureFault::Links(place),
        ElementFault::Chains(place) => SignatureFault::Chains(place),
        ElementFault::Sibling(place) => SignatureFault::Sibling(place),
        ElementFault::Time(place) => SignatureFault::Time(place),
    }
}
