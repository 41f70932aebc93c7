// The file of a seed.
ghost use Rattle.std.specs.Prelude.{◌≡◌, ◌≤◌, IsTrue, length};
ghost use Rattle.std.specs.List.{list_all};
ghost use Rattle.ksi_blocks.specs.Loading.{Gives};
ghost use Rattle.ksi_blocks.specs.Seeds.{is_end, is_lower_digit, lower_seed, seed_in, seed_loaded, seed_or_bad};

use crate::loading::load;
use crate::report::{Halt, bad_seed};
use ksi_ports::Files;
use ksi_words::seed;
use std::alloc::Global;

/// The most bytes of the file: 64 digits and a line feed.
const SEED_LIMIT: usize = 65;

/// The seed of the file of word 2.
pub(crate) fn load_seed<F: Files>(
    alloc: Global,
    files: &mut F,
    name: &str,
) -> Result<[u8; 32], Halt>
    ensures told { IsTrue F.tells → Gives (seed_loaded (F.held files.old name.now)) result }
    ensures stays { F.held files.new ≡ F.held files.old }
{
    let text = load(alloc, files, 2, SEED_LIMIT, name)?;
    seed_or_bad(text.as_slice())
}

fn seed_or_bad(text: &[u8]) -> Result<[u8; 32], Halt>
    ensures { Gives (seed_or_bad (seed_in text.now)) result }
{
    match seed_in(text) {
        Some(seed) => Ok(seed),
        None => Err(Halt::Reported(bad_seed())),
    }
}

/// The seed that a file's text encodes: 64 hex digits in lower case, and perhaps a line feed.
#[tactic(auto, unfolding(crate::specs::Seeds::seed_in))]
fn seed_in(text: &[u8]) -> Option<[u8; 32]>
    ensures { result ≡ seed_in text.now }
{
    if text.len() < 64 {
        return None;
    }
    let (digits, end) = text.split_at(64);
    if is_end(end) {
        lower_seed(digits)
    } else {
        None
    }
}

/// Nothing, or a line feed.
fn is_end(end: &[u8]) -> bool
    ensures { result ≡ is_end end.now }
{
    match end {
        [] => true,
        [byte] => *byte == b'\n',
        _ => false,
    }
}

/// The seed that digits encode in lower case.
#[tactic(auto, using(crate::proofs::SeedTexts::lower_is_text))]
fn lower_seed(digits: &[u8]) -> Option<[u8; 32]>
    ensures { result ≡ lower_seed digits.now }
{
    if !are_lower(digits) {
        return None;
    }
    match str::from_utf8(digits) {
        Ok(word) => seed(word),
        Err(_) => unreachable!(),
    }
}

fn are_lower(digits: &[u8]) -> bool
    ensures { result ≡ list_all is_lower_digit digits.now }
{
    digits.iter().all(|digit| is_lower_digit(*digit))
}

fn is_lower_digit(digit: u8) -> bool
    ensures { result ≡ is_lower_digit digit }
{
    matches!(digit, b'0'..=b'9' | b'a'..=b'f')
}
