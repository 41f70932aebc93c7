ghost use Rattle.std.specs.Prelude.{◌≡◌, ◌∷◌, ◌+◌, ◌%◌, ℕ, suc, List, length, replicate, sum, refl};
ghost use Rattle.std.proofs.Common.{ap};
ghost use Rattle.sha2.proofs.Facts256.{length-sha256};
ghost use Rattle.ksi_imprint.specs.Imprints.{IsImprint, imprint_of, join_text, tiny_imprint};

use crate::imprint::Imprint;
use sha2::{Digest, Sha256};

/// A hash function on lists of bytes, whose images are imprints.
pub trait Compress {
    /// The imprint of the bytes.
    ghost image: { List ℕ → List ℕ };

    /// The imprint of both parts and the level's byte, one after the other.
    fn join(left: &[u8], right: &[u8], level: u8) -> Imprint
        ensures { result ≡ image (join_text left.now right.now level) };

    /// The imprint of the bytes.
    fn of(bytes: &[u8]) -> Imprint
        ensures { result ≡ image bytes.now };

    /// Each image is an imprint.
    ghost gives_imprints: { (bytes : List ℕ) → IsImprint (image bytes) };
}

/// SHA-256 (FIPS 180-4).
#[derive(Clone, Copy)]
pub struct Sha;

impl Compress for Sha {
    ghost image = { imprint_of };

    fn join(left: &[u8], right: &[u8], level: u8) -> Imprint {
        if left.len() == 33 && right.len() == 33 {
            Sha::of(&joined(left, right, level))
        } else {
            join_parts(left, right, level)
        }
    }

    fn of(bytes: &[u8]) -> Imprint {
        Imprint::of_digest(&Sha256::digest(bytes))
    }

    ghost gives_imprints = { λ bytes. record { algorithm = refl; size = ap suc (length-sha256 bytes) } };
}

/// The text of a join of two imprints, in one array.
fn joined(left: &[u8], right: &[u8], level: u8) -> [u8; 67]
    requires left { length left.now ≡ 33 }
    requires right { length right.now ≡ 33 }
    ensures { result ≡ join_text left.now right.now level }
{
    let mut text = [0; 67];
    let (first, behind) = text.split_at_mut(33);
    first.copy_from_slice(left);
    let (second, last) = behind.split_at_mut(33);
    second.copy_from_slice(right);
    last[0] = level;
    text
}

/// The imprint of both parts of any sizes and the level's byte.
fn join_parts(left: &[u8], right: &[u8], level: u8) -> Imprint
    ensures { result ≡ imprint_of (join_text left.now right.now level) }
{
    let mut hasher = Sha256::new();
    hasher.update(left);
    hasher.update(right);
    hasher.update(&[level]);
    Imprint::of_digest(&hasher.finalize())
}

/// The sum of the bytes, modulo 256, and 31 zero bytes: a function whose clashes a test can find.
#[derive(Clone, Copy)]
pub struct Tiny;

impl Compress for Tiny {
    ghost image = { tiny_imprint };

    fn join(left: &[u8], right: &[u8], level: u8) -> Imprint {
        with_first(add_up(add_up(level, left), right))
    }

    fn of(bytes: &[u8]) -> Imprint {
        with_first(add_up(0, bytes))
    }

    ghost gives_imprints = { λ bytes. record { algorithm = refl; size = refl } };
}

/// The imprint whose digest is one byte and 31 zero bytes.
fn with_first(first: u8) -> Imprint
    ensures { result ≡ 1 ∷ first ∷ replicate 31 0 }
{
    let mut digest = [0; 32];
    digest[0] = first;
    Imprint::of_digest(&digest)
}

/// A byte and those of a list, added modulo 256.
fn add_up(start: u8, bytes: &[u8]) -> u8
    ensures { result ≡ (start + sum bytes.now) % 256 }
{
    let mut total = start;
    for byte in bytes {
        total = total.wrapping_add(*byte);
    }
    total
}
