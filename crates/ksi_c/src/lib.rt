//! The library for C, and for languages that can call C. `ksi.h` documents each function. No function allocates memory or
//! keeps state between calls, and none has a condition beyond what the types of its arguments require.
#![tactic(auto)]

mod answer;
mod drawing;
mod drawn;
mod fronts;
mod seconds;
mod telling;
mod told;

ghost use Rattle.std.specs.Prelude.{◌≡◌, ◌↔◌, ◌∷◌, ◌++◌, [], ℕ, List, if◌then◌else◌};
ghost use Rattle.sha2.specs.Sha256.{initial_hash_256, sha256};
ghost use Rattle.ksi_imprint.specs.Held.{Holds};
ghost use Rattle.ksi_imprint.specs.Imprints.{imprint_of, join_text};
ghost use Rattle.ksi_signature.specs.Reading.{signature_at};
ghost use Rattle.ksi_publications.specs.Reading.{publications_at};
ghost use Rattle.ksi_consistency.specs.Few.{IsFileBetween, file_checked};
ghost use Rattle.ksi_consistency.specs.Reading.{front_at};
ghost use Rattle.ksi_verifier.specs.Files.{IsVerified, files_verdict};
ghost use Rattle.ksi_verifier.specs.declared.proved.Proved.{Proved};
ghost use Rattle.ksi_c.specs.Answers.{answered};
ghost use Rattle.ksi_c.specs.Fronts.{front_answered};
ghost use Rattle.ksi_c.specs.Seconds.{second_or, second_status};
ghost use Rattle.ksi_c.specs.Drawn.{step_in, step_or, step_status};

pub use crate::answer::KsiAnswer;
use crate::drawing::put_step;
pub use crate::drawn::KsiStep;
use crate::fronts::front_answered;
use crate::seconds::put_second;
use crate::telling::answered;
pub use crate::told::Told;
use ksi_consistency::check_file;
use ksi_imprint::stream::Core256;
use ksi_imprint::{Compress, Imprint, Sha};
use ksi_signature::laws::signature_is_read;
use ksi_signature::view;
use ksi_verifier::verify_files;

/// The number of this interface. A caller compares it with that of its header.
#[unsafe(no_mangle)]
pub extern "C" fn ksi_abi() -> u32
    ensures { result ≡ 2 }
{
    2
}

/// The SHA-256 of bytes.
#[unsafe(no_mangle)]
pub extern "C" fn ksi_hash(bytes: &[u8], digest: &mut [u8; 32])
    ensures { digest.new ≡ sha256 bytes.now }
{
    let imprint = Sha::of(bytes);
    let (_, from) = imprint.bytes().split_at(1);
    digest.copy_from_slice(from);
}

/// Begins the SHA-256 of bytes that come in pieces.
#[unsafe(no_mangle)]
pub extern "C" fn ksi_hash_start(state: &mut Core256)
    ensures { Holds initial_hash_256 state.new [] }
{
    *state = ksi_imprint::stream::start();
}

/// Takes in the next piece.
#[unsafe(no_mangle)]
pub extern "C" fn ksi_hash_more(state: &mut Core256, bytes: &[u8])
    ensures { (message : List ℕ) → Holds initial_hash_256 state.old message → Holds initial_hash_256 state.new (message ++ bytes.now) }
{
    ksi_imprint::stream::more(state, bytes);
}

/// The SHA-256 of all pieces, which may go on after it.
#[unsafe(no_mangle)]
pub extern "C" fn ksi_hash_end(state: &Core256, digest: &mut [u8; 32])
    ensures { (message : List ℕ) → Holds initial_hash_256 state.now message → digest.new ≡ sha256 message }
{
    *digest = ksi_imprint::stream::end(state);
}

/// Checks a signature file for a digest against a publications file. 0 exactly where it is accepted; the answer then has the
/// second that it proves, and the publication's second and root that this rests on.
#[unsafe(no_mangle)]
pub extern "C" fn ksi_verify(
    signature: &[u8],
    digest: &[u8; 32],
    publications: &[u8],
    answer: &mut KsiAnswer,
) -> u32
    ensures value { answer.new ≡ answered (files_verdict imprint_of (signature_at signature.now) (publications_at publications.now) (1 ∷ digest.now)) }
    ensures status { result ≡ answer.new.status }
    ensures accepted { (t published : ℕ) (root : List ℕ) →
        ((result ≡ 0) × (answer.new.second ≡ t) × (answer.new.numbers ≡ published ∷ 0 ∷ 0 ∷ 0 ∷ []) × (answer.new.one ≡ root)) ↔
        IsVerified imprint_of signature.now (1 ∷ digest.now) publications.now
        (record { second = t; publication = published; root = 1 ∷ root }) }
{
    let verdict = verify_files::<Sha>(signature, &Imprint::of_digest(digest), publications);
    *answer = answered(&verdict);
    answer.status
}

/// Checks that the bytes of a front lead from the root of the calendar of the seconds from 0 to `p1` to that of the seconds
/// from 0 to `p2`. 0 exactly where it is accepted.
#[unsafe(no_mangle)]
pub extern "C" fn ksi_check_front(
    front: &[u8],
    p1: u64,
    root1: &[u8; 32],
    p2: u64,
    root2: &[u8; 32],
    answer: &mut KsiAnswer,
) -> u32
    ensures value { answer.new ≡ front_answered (file_checked imprint_of p1 p2 (1 ∷ root1.now) (1 ∷ root2.now) (front_at front.now)) }
    ensures status { result ≡ answer.new.status }
    ensures accepted { (result ≡ 0) ↔ IsFileBetween imprint_of p1 p2 (1 ∷ root1.now) (1 ∷ root2.now) front.now }
{
    let r1 = Imprint::of_digest(root1);
    let r2 = Imprint::of_digest(root2);
    let checked = check_file::<Sha>(front, p1, p2, r1, r2);
    let told = front_answered(&checked);
    *answer = told;
    told.status
}

/// The second that a signature states: the time of its first aggregation chain. 0 where the bytes are a signature, else 3.
/// A signature that is accepted proves this second.
#[unsafe(no_mangle)]
pub extern "C" fn ksi_second(signature: &[u8], second: &mut u64) -> u32
    ensures status { result ≡ second_status (signature_at signature.now) }
    ensures value { second.new ≡ second_or second.old (signature_at signature.now) }
    ensures accepted { (hash publications : List ℕ) (proved : Proved) →
        IsVerified imprint_of signature.now hash publications proved → (result ≡ 0) × (second.new ≡ proved.second) }
{
    signature_is_read();
    put_second(signature, second)
}

/// Step `number` of a signature, counted from 0 at the document's hash: a link with both parts and their join, to be
/// shown. Returns 0 if there is such a step, 1 if there is none, and 3 if the bytes are no signature.
#[unsafe(no_mangle)]
pub extern "C" fn ksi_step(signature: &[u8], number: usize, step: &mut KsiStep) -> u32
    ensures status { result ≡ step_status (signature_at signature.now) number }
    ensures value { step.new ≡ step_or step.old (step_in (signature_at signature.now) number) }
{
    signature_is_read();
    match view(signature) {
        Ok(signature) => found_status(put_step(&signature, number, step)),
        Err(_) => 3,
    }
}

fn found_status(found: bool) -> u32
    ensures { result ≡ (if found then 0 else 1) }
{
    if found { 0 } else { 1 }
}
