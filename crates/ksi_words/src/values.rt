// Words that stand for a number, a hash or a seed.
ghost use Rattle.std.specs.Prelude.{◌≡◌};
ghost use Rattle.ksi_schedule.specs.Decimal.{number_of};
ghost use Rattle.ksi_words.specs.Sorts.{time_of, hash_of, seed_of};

use ksi_imprint::Imprint;
use ksi_schedule::read_number;

/// The number that a word of 1 to 20 decimal digits writes, leading zeros allowed, where it is at most 2^64 - 1.
pub fn number(word: &str) -> Option<u64>
    ensures { result ≡ number_of word.now }
{
    read_number(word.as_bytes())
}

/// The number that a word writes, as in [`number`], where it is below 2^63.
#[tactic(auto, unfolding(crate::specs::Sorts::time_of))]
pub fn time(word: &str) -> Option<u64>
    ensures { result ≡ time_of word.now }
{
    number(word).filter(|number| *number < 1 << 63)
}

/// The imprint of the digest that a word of 64 hex digits writes, in digits of either case.
#[tactic(auto, unfolding(crate::specs::Sorts::hash_of))]
pub fn hash(word: &str) -> Option<Imprint>
    ensures { result ≡ hash_of word.now }
{
    Imprint::from_hex(word).ok()
}

/// The 32 bytes that a word of 64 hex digits writes, in digits of either case.
#[tactic(auto, unfolding(crate::specs::Sorts::hash_of))]
pub fn seed(word: &str) -> Option<[u8; 32]>
    ensures { result ≡ seed_of word.now }
{
    let imprint = hash(word)?;
    let mut seed = [0; 32];
    let (_, digest) = imprint.bytes().split_at(1);
    seed.copy_from_slice(digest);
    Some(seed)
}
