ghost use Rattle.std.specs.Prelude.{◌≡◌, Err, IfOk};
ghost use Rattle.ksi_imprint.specs.Refused.{IfRefused};
ghost use Rattle.ksi_imprint.specs.declared.refused.Refused.TheVariants.{Fault};
ghost use Rattle.ksi_signature.specs.declared.fault.SignatureFault.{SignatureFault};
ghost use Rattle.ksi_signature.specs.declared.signature.Signature.{Signature};
ghost use Rattle.ksi_signature.specs.File.{IsSignature, IsSignatureFault};

use crate::copies::signature_of;
use crate::fault::SignatureFault;
use crate::laws::signature_or_fault;
use crate::signature::Signature;
use crate::viewer::view;
use ksi_imprint::Refused;
use std::alloc::Global;

/// Reads a signature. Memory is taken only where the bytes are one.
pub fn read(alloc: Global, bytes: &[u8]) -> Result<Signature, Refused<SignatureFault>>
    ensures signature { IfOk result (λ signature. IsSignature bytes.now signature) }
    ensures fault { (fault : SignatureFault) → IsSignatureFault bytes.now fault → result ≡ Err (Fault fault) }
    ensures refused { IfRefused result (IsSignatureFault bytes.now)
        ((signature : Signature) × IsSignature bytes.now signature) }
{
    signature_or_fault();
    let view = view(bytes)?;
    let signature = signature_of(alloc, &view)?;
    Ok(signature)
}
