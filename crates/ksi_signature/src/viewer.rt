ghost use Rattle.std.specs.Prelude.{◌≡◌, ◌↔◌, Err, IsOk, IfOk};
ghost use Rattle.ksi_signature.specs.declared.fault.SignatureFault.{SignatureFault};
ghost use Rattle.ksi_signature.specs.declared.signature.Signature.{Signature};
ghost use Rattle.ksi_signature.specs.File.{IsSignature, IsSignatureFault};
ghost use Rattle.ksi_signature.specs.Seen.{seen, bytes_seen};

use crate::checker::accepted;
use crate::fault::SignatureFault;
use crate::laws::signature_or_fault;
use crate::signature_view::SignatureView;
use ksi_tlv::Placed;
use ksi_tlv::grammar::laws::whole_or_fault;
use ksi_tlv::laws::front_by_spelling;

/// The signature that bytes are, lent from them, else their first fault in reading order. No memory is taken.
pub fn view(bytes: &[u8]) -> Result<SignatureView<'_>, SignatureFault>
    ensures signature { IfOk result (λ view. IsSignature bytes.now (seen view)) }
    ensures bytes { IfOk result (λ view. bytes_seen view ≡ bytes.now) }
    ensures ok { IsOk result ↔ ((signature : Signature) × IsSignature bytes.now signature) }
    ensures fault { (fault : SignatureFault) → (result ≡ Err fault) ↔ IsSignatureFault bytes.now fault }
{
    signature_or_fault();
    whole_or_fault();
    front_by_spelling();
    let (element, size) = match accepted(bytes) {
        Ok(found) => found,
        Err(fault) => return Err(fault),
    };
    let at = Placed {
        place: 0,
        inside: size - element.body.len(),
        element,
    };
    Ok(SignatureView::new(bytes, &at))
}
