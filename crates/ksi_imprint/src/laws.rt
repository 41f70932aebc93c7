//! What holds of imprints, for the layers above to cite. This function does nothing.
ghost use Rattle.std.specs.Prelude.{◌<◌, ℕ, List, All};
ghost use Rattle.ksi_imprint.specs.Imprints.{IsImprint, imprint_of};

/// The hashes of SHA-256 are imprints, of bytes.
#[tactic(auto, using(crate::proofs::Digests::hash_is, crate::proofs::Digests::hash_bytes))]
pub fn hashes_are_bytes()
    ensures imprints { (text : List ℕ) → IsImprint (imprint_of text) }
    ensures bytes { (text : List ℕ) → All (λ b. b < 256) (imprint_of text) }
{}
