ghost use Rattle.std.specs.Prelude.{◌≡◌};
ghost use Rattle.ksi_schedule.specs.Decimal.{number_of, digits_after};

/// The number that a word of 1 to 20 decimal digits writes, leading zeros allowed, where it is at most 2^64 - 1.
#[tactic(auto, using(crate::proofs::Numbers::number_by_steps, crate::proofs::Numbers::no_number))]
pub fn read_number(word: &[u8]) -> Option<u64>
    ensures { result ≡ number_of word.now }
{
    if word.is_empty() || word.len() > 20 {
        return None;
    }
    digits(word)
}

fn digits(word: &[u8]) -> Option<u64>
    ensures { result ≡ digits_after 0 word.now }
{
    let mut value: u64 = 0;
    for byte in word {
        if !byte.is_ascii_digit() {
            return None;
        }
        let digit = u64::from(*byte - b'0');
        if value > (u64::MAX - digit) / 10 {
            return None;
        }
        value = 10 * value + digit;
    }
    Some(value)
}
