// One issued signature is put to the test.
ghost use Rattle.std.specs.Prelude.{◌≡◌, ◌<◌, ◌^◌, None, Some, IfOk, option_map};
ghost use Rattle.ksi_imprint.specs.Imprints.{imprint_of};
ghost use Rattle.ksi_signature.specs.Reading.{signature_at};
ghost use Rattle.ksi_signature.specs.Seen.{seen};
ghost use Rattle.ksi_replay.specs.Covered.{published};
ghost use Rattle.ksi_replay.specs.Trials.{extension, if_signature, if_text, is_accepted, is_beneath, is_inside, judged, trial};

use crate::trial::Trial;
use ksi_auditor::{Audit, audit_view};
use ksi_extender::extend;
use ksi_imprint::{Bytes, Imprint, NoMemory, Refused, Sha};
use ksi_journal::Journal;
use ksi_publications::Publications;
use ksi_signature::laws::signature_is_read;
use ksi_signature::{SignatureView, view};
use ksi_verifier::{Verdict, verify_view};
use ksi_world::Asked;
use std::alloc::Global;

/// What becomes of an issued signature, which follows the number of its request, extended to `p` and tried against
/// the root of `p`.
#[tactic(auto, unfolding(crate::specs::Trials::trial))]
pub(crate) fn trial(
    alloc: Global,
    requests: &[Asked],
    journal: &Journal<Sha>,
    p: u64,
    publications: &Publications,
    issued: &(u64, Bytes),
) -> Result<Trial, NoMemory>
    requires early { p < 2 ^ 63 }
    requires root { publications.now ≡ published imprint_of journal.now p }
    ensures { IfOk result (λ found. found ≡ trial imprint_of requests.now journal.now p issued.now) }
{
    let text = extension(alloc, journal, &issued.1, p)?;
    let signature = viewed(&text);
    match requests.get(issued.0 as usize) {
        Some(asked) => judged(alloc, journal, p, publications, &asked.imprint, &signature),
        None => Ok(Trial::SILENT),
    }
}

/// The bytes of the signature extended to `p`.
fn extension(
    alloc: Global,
    journal: &Journal<Sha>,
    bytes: &Bytes,
    p: u64,
) -> Result<Option<Bytes>, NoMemory>
    requires { p < 2 ^ 63 }
    ensures { IfOk result (λ found. if_text found ≡ extension imprint_of journal.now bytes.now p) }
{
    match extend::<Sha>(alloc, journal, bytes.as_slice(), p) {
        Ok(text) => Ok(Some(text)),
        Err(Refused::Fault(_)) => Ok(None),
        Err(Refused::NoMemory) => Err(NoMemory),
    }
}

/// The signature of these bytes, lent from them.
fn viewed(text: &Option<Bytes>) -> Option<SignatureView<'_>>
    ensures { option_map seen result ≡ if_text text.now }
{
    match text {
        Some(text) => if_signature(text.as_slice()),
        None => None,
    }
}

/// The signature that bytes are, lent from them.
fn if_signature(bytes: &[u8]) -> Option<SignatureView<'_>>
    ensures { option_map seen result ≡ if_signature (signature_at bytes.now) }
{
    signature_is_read();
    match view(bytes) {
        Ok(signature) => Some(signature),
        Err(_) => None,
    }
}

/// The verdict and the audit of an extension for a hash.
fn judged(
    alloc: Global,
    journal: &Journal<Sha>,
    p: u64,
    publications: &Publications,
    hash: &Imprint,
    signature: &Option<SignatureView<'_>>,
) -> Result<Trial, NoMemory>
    requires { publications.now ≡ published imprint_of journal.now p }
    ensures { IfOk result (λ found. found ≡ judged imprint_of journal.now p hash.now (option_map seen signature.now)) }
{
    let signature = match signature {
        Some(signature) => signature,
        None => return Ok(Trial::SILENT),
    };
    let accepted = is_accepted(&verify_view::<Sha>(signature, hash, publications));
    let answer = audit_view::<Sha>(alloc, journal, signature, hash, publications)?;
    Ok(Trial {
        accepted,
        inside: is_inside(&answer),
        beneath: is_beneath(&answer),
    })
}

fn is_accepted(verdict: &Verdict) -> bool
    ensures { result ≡ is_accepted verdict.now }
{
    matches!(verdict, Verdict::Accepted(_))
}

fn is_inside(answer: &Audit) -> bool
    ensures { result ≡ is_inside answer.now }
{
    matches!(answer, Audit::Inside(_, _))
}

fn is_beneath(answer: &Audit) -> bool
    ensures { result ≡ is_beneath answer.now }
{
    matches!(answer, Audit::Beneath(_, _, _))
}
