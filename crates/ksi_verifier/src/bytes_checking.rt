// The checks of bytes.
ghost use Rattle.std.specs.Prelude.{◌≡◌, ◌↔◌};
ghost use Rattle.ksi_signature.specs.declared.fault.SignatureFault.{SignatureFault};
ghost use Rattle.ksi_signature.specs.declared.signature.Signature.{Signature};
ghost use Rattle.ksi_signature.specs.File.{IsSignature, IsSignatureFault};
ghost use Rattle.ksi_signature.specs.Reading.{signature_at};
ghost use Rattle.ksi_verifier.specs.declared.bytes_verdict.BytesVerdict.TheVariants as verdicts;
ghost use Rattle.ksi_verifier.specs.Bytes.{of_bytes, of_verdict};
ghost use Rattle.ksi_verifier.specs.Verdict.{verdict};

use crate::bytes_verdict::BytesVerdict;
use crate::lent_checking::verify_view;
use crate::verdict::Verdict;
use ksi_imprint::{Compress, Imprint};
use ksi_publications::Publications;
use ksi_signature::laws::signature_is_read;
use ksi_signature::view;

/// Checks the signature that bytes are for a hash against the published roots of the calendar. No memory is taken.
pub fn verify_bytes<C: Compress>(
    bytes: &[u8],
    hash: &Imprint,
    publications: &Publications,
) -> BytesVerdict
    ensures malformed { (fault : SignatureFault) → (result ≡ verdicts.Malformed fault) ↔ IsSignatureFault bytes.now fault }
    ensures verdict { (signature : Signature) → IsSignature bytes.now signature →
        result ≡ of_verdict (verdict C.image signature hash.now publications.now) }
    ensures value { result ≡ of_bytes C.image (signature_at bytes.now) hash.now publications.now }
{
    signature_is_read();
    bytes_verdict::<C>(bytes, hash, publications)
}

fn bytes_verdict<C: Compress>(
    bytes: &[u8],
    hash: &Imprint,
    publications: &Publications,
) -> BytesVerdict
    ensures { result ≡ of_bytes C.image (signature_at bytes.now) hash.now publications.now }
{
    signature_is_read();
    match view(bytes) {
        Ok(signature) => of_verdict(verify_view::<C>(&signature, hash, publications)),
        Err(fault) => BytesVerdict::Malformed(fault),
    }
}

fn of_verdict(verdict: Verdict) -> BytesVerdict
    ensures { result ≡ of_verdict verdict }
{
    match verdict {
        Verdict::Accepted(second) => BytesVerdict::Accepted(second),
        Verdict::Refused(refusal) => BytesVerdict::Refused(refusal),
    }
}
