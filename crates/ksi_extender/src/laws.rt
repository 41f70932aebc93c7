//! What holds of signatures that were extended to a later second, for the layers above to cite. None of these functions
//! does anything.
ghost use Rattle.std.specs.Prelude.{◌≡◌, ◌<◌, ◌^◌, ℕ, List, Ok};
ghost use Rattle.std.specs.List.{AllByRecursion};
ghost use Rattle.ksi_imprint.specs.Imprints.{IsImprint};
ghost use Rattle.ksi_tlv.specs.Spelling.{AreBytes};
ghost use Rattle.ksi_signature.specs.declared.signature.Signature.{Signature};
ghost use Rattle.ksi_signature.specs.File.{IsSignature};
ghost use Rattle.ksi_signature.specs.Extended.{extended_text};
ghost use Rattle.ksi_verifier.specs.declared.aggregated.Aggregated.{Aggregated};
ghost use Rattle.ksi_journal.specs.Journal.{Contents, IsJournal};
ghost use Rattle.ksi_extender.specs.Extended.{chain_to, extended, record_to};
ghost use Rattle.ksi_extender.specs.Accepted.{AcceptedBy, LeadsToKept, extended_signature};

use ksi_calendar::laws::{one_chain, one_covered, one_first_missing};
use ksi_imprint::Imprint;
use ksi_journal::laws::calendar_is_covered;
use ksi_signature::laws::{
    extended_is_bytes, extended_is_short, extended_is_signature, signature_is_read,
};
use ksi_split::laws::one_way;
use ksi_split::trees::one_path;
use ksi_verifier::laws::{accepted, aggregation};

/// Where a signature is extended to a second, it is accepted with the new calendar chain and record, by all
/// publications whose first record of that second is the journal's root. For a journal, and where what is hashed are
/// imprints, the new bytes are that signature.
pub fn extended_is_accepted()
    ensures accepted { (image : List ℕ → List ℕ) (journal : Contents) (bytes text : List ℕ) (signature : Signature) (p : ℕ) →
        AreBytes bytes → IsSignature bytes signature →
        extended image journal bytes p ≡ Ok text →
        (publications : List (ℕ × List ℕ)) → AcceptedBy image journal signature p publications }
    ensures again { (image : List ℕ → List ℕ) (journal : Contents) (bytes text : List ℕ) (signature : Signature) (p : ℕ) →
        ((x : List ℕ) → IsImprint (image x)) → IsJournal image journal → p < 2 ^ 63 →
        AreBytes bytes → IsSignature bytes signature → extended image journal bytes p ≡ Ok text →
        IsSignature text (extended_signature image journal signature p) }
{
    one_chain();
    one_covered();
    one_way();
    one_path::<Imprint>();
    signature_is_read();
    extended_is_signature();
    accepted();
    aggregation();
}

/// Over a journal, and where what is hashed are imprints, a short signature is extended to each covered second from its
/// own on, where its chains lead to the root that is kept for its own, which was not missed.
pub fn covered_is_extended()
    ensures { (image : List ℕ → List ℕ) (journal : Contents) (bytes : List ℕ) (signature : Signature) (chains : Aggregated) (p : ℕ) →
        ((x : List ℕ) → IsImprint (image x)) → IsJournal image journal → AreBytes bytes →
        LeadsToKept image journal bytes signature chains p →
        extended image journal bytes p ≡ Ok (extended_text bytes (chain_to image journal chains.time p) (record_to image journal p)) }
{
    one_path::<Imprint>();
    signature_is_read();
    extended_is_short();
    calendar_is_covered();
    one_first_missing();
}

/// Bytes that are extended to a second are bytes again, where what is hashed and the roots of the journal are bytes.
pub fn extension_is_bytes()
    ensures { (image : List ℕ → List ℕ) (journal : Contents) → ((x : List ℕ) → AreBytes (image x)) →
        AllByRecursion (λ kept. AreBytes kept.root) journal.seconds →
        (bytes text : List ℕ) (p : ℕ) → AreBytes bytes → extended image journal bytes p ≡ Ok text → AreBytes text }
{
    extended_is_bytes();
}
