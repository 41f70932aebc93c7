// The text of a signature.
ghost use Rattle.std.specs.Prelude.{◌≡◌, ◌<◌, ◌++◌, ◌∷◌, [], length, map, None, Some, IfOk, OnOk};
ghost use Rattle.ksi_schedule.specs.Printed.{text_of_lines};
ghost use Rattle.ksi_signature.specs.File.{IsSignature, IsSignatureFault};
ghost use Rattle.ksi_signature.specs.Seen.{seen};
ghost use Rattle.ksi_signature.specs.declared.fault.SignatureFault.{SignatureFault};
ghost use Rattle.ksi_signature.specs.declared.signature.Signature.{Signature};
ghost use Rattle.ksi_verifier.specs.Chains.{first_chain};
ghost use Rattle.ksi_verifier.specs.Lent.{lent_chain};
ghost use Rattle.ksi_texts.specs.Text.{document_row, signature_text};

use crate::calendar::{put_calendar, put_record};
use crate::chains::put_chains;
use crate::printing::put;
use crate::word::Word::{Digest, Number, Text};
use ksi_imprint::NoMemory;
use ksi_signature::laws::signature_or_fault;
use ksi_signature::{ChainView, SignatureFault, SignatureView, view};

/// The text of the signature that bytes are. Of other bytes the first fault is given, and nothing is put.
pub fn put_signature_of(
    text: &mut Vec<u8>,
    bytes: &[u8],
) -> Result<Option<SignatureFault>, NoMemory>
    ensures ours { (signature : Signature) → IsSignature bytes.now signature → IfOk result (λ fault. fault ≡ None) }
    ensures told { (signature : Signature) → IsSignature bytes.now signature → OnOk result (text.new.items ≡ text.old.items ++ signature_text (length bytes.now) signature) }
    ensures fault { (fault : SignatureFault) → IsSignatureFault bytes.now fault → IfOk result (λ found. found ≡ Some fault) }
    ensures stays { (fault : SignatureFault) → IsSignatureFault bytes.now fault → text.new.items ≡ text.old.items }
{
    signature_or_fault();
    match view(bytes) {
        Ok(signature) => {
            put_signature(text, bytes.len(), &signature)?;
            Ok(None)
        }
        Err(fault) => Ok(Some(fault)),
    }
}

/// The text of a signature of this many bytes.
#[tactic(auto, unfolding(crate::specs::Text::signature_text))]
pub fn put_signature(
    text: &mut Vec<u8>,
    size: usize,
    signature: &SignatureView<'_>,
) -> Result<(), NoMemory>
    ensures { OnOk result (text.new.items ≡ text.old.items ++ signature_text size (seen signature.now)) }
{
    let chains = signature.chains();
    put(
        text,
        &[Text("signature of"), Number(size as u64), Text("bytes")],
    )?;
    put_document(text, chains)?;
    put_chains(text, chains)?;
    put_calendar(text, &signature.calendar())?;
    put_record(text, &signature.publication())
}

/// The hash that a signature is of.
fn put_document(text: &mut Vec<u8>, chains: &[ChainView<'_>]) -> Result<(), NoMemory>
    requires { 0 < length chains.now }
    ensures { OnOk result (text.new.items ≡ text.old.items ++ text_of_lines (document_row (first_chain (map lent_chain chains.now)) ∷ [])) }
{
    put(
        text,
        &[
            Text("  of the document with the SHA-256"),
            Digest(&chains[0].input()),
        ],
    )
}
