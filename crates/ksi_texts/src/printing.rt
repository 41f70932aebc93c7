// The printer of rows.
ghost use Rattle.std.specs.Prelude.{◌≡◌, ◌++◌, ◌∷◌, [], map, take, OnOk};
ghost use Rattle.std.specs.Fmt.{decimal};
ghost use Rattle.hex.specs.Hex.{encode_lower};
ghost use Rattle.ksi_schedule.specs.Printed.{hex_of, line_of, spaced};
ghost use Rattle.ksi_texts.specs.Words.{pasted, short_text, word_text};

use crate::dates::push_second;
use crate::names::behind;
use crate::quoting::push_quoted;
use crate::word::Word;
use itoa::Buffer;
use ksi_dates::push_date;
use ksi_imprint::{Imprint, NoMemory};

/// A row: its words, parted by spaces, and a line feed.
pub fn put(text: &mut Vec<u8>, words: &[Word<'_>]) -> Result<(), NoMemory>
    ensures { OnOk result (text.new.items ≡ text.old.items ++ (line_of (map word_text words.now) ++ 10 ∷ [])) }
{
    if let Some((first, others)) = words.split_first() {
        push_word(text, *first)?;
        push_others(text, others)?;
    }
    text.extend_from_slice(b"\n")
}

/// The words, each behind a space.
fn push_others(text: &mut Vec<u8>, words: &[Word<'_>]) -> Result<(), NoMemory>
    ensures { OnOk result (text.new.items ≡ text.old.items ++ spaced (map word_text words.now)) }
{
    for word in words {
        text.extend_from_slice(b" ")?;
        push_word(text, *word)?;
    }
    Ok(())
}

/// The words, one right behind the other.
pub fn paste(text: &mut Vec<u8>, words: &[Word<'_>]) -> Result<(), NoMemory>
    ensures { OnOk result (text.new.items ≡ text.old.items ++ pasted (map word_text words.now)) }
{
    for word in words {
        push_word(text, *word)?;
    }
    Ok(())
}

/// One word.
pub fn push_word(text: &mut Vec<u8>, word: Word<'_>) -> Result<(), NoMemory>
    ensures { OnOk result (text.new.items ≡ text.old.items ++ word_text word.entry) }
{
    match word {
        Word::Text(piece) => text.extend_from_slice(piece.as_bytes()),
        Word::Number(n) => push_number(text, n),
        Word::Second(second) => push_second(text, second),
        Word::Date(second) => push_date(text, second),
        Word::Digest(imprint) => push_digest(text, imprint),
        Word::Short(bytes) => push_short(text, bytes),
        Word::Quoted(bytes) => push_quoted(text, bytes),
    }
}

pub(crate) fn push_number(text: &mut Vec<u8>, n: u64) -> Result<(), NoMemory>
    ensures { OnOk result (text.new.items ≡ text.old.items ++ decimal n) }
{
    let mut buffer = Buffer::new();
    text.extend_from_slice(buffer.format(n).as_bytes())
}

fn push_digest(text: &mut Vec<u8>, imprint: &Imprint) -> Result<(), NoMemory>
    ensures { OnOk result (text.new.items ≡ text.old.items ++ hex_of imprint.now) }
{
    let mut digits = [0; 64];
    imprint.write_hex(&mut digits);
    text.extend_from_slice(&digits)
}

/// The first ten digits of an imprint, behind its algorithm byte.
fn push_short(text: &mut Vec<u8>, bytes: &[u8]) -> Result<(), NoMemory>
    ensures { OnOk result (text.new.items ≡ text.old.items ++ short_text bytes.now) }
{
    push_hex(text, first(behind(bytes, 1), 5))?;
    text.extend_from_slice(b"..")
}

/// The first bytes, as many as are asked for, or all where there are fewer.
pub(crate) fn first(bytes: &[u8], most: usize) -> &[u8]
    ensures { result.now ≡ take most bytes.now }
{
    if bytes.len() < most {
        bytes
    } else {
        bytes.split_at(most).0
    }
}

#[tactic(auto, unfolding(hex::specs::Hex::encode_with))]
fn push_hex(text: &mut Vec<u8>, bytes: &[u8]) -> Result<(), NoMemory>
    ensures { OnOk result (text.new.items ≡ text.old.items ++ encode_lower bytes.now) }
{
    for byte in bytes {
        push_digits(text, *byte)?;
    }
    Ok(())
}

/// The two digits of a byte.
pub(crate) fn push_digits(text: &mut Vec<u8>, byte: u8) -> Result<(), NoMemory>
    ensures { OnOk result (text.new.items ≡ text.old.items ++ encode_lower (byte ∷ [])) }
{
    let mut digits = [0; 2];
    write_digits(&[byte], &mut digits);
    text.extend_from_slice(&digits)
}

fn write_digits(byte: &[u8; 1], out: &mut [u8; 2])
    ensures { out.new ≡ encode_lower byte.now }
{
    let bytes: &[u8] = byte;
    let _ = hex::encode_to_slice(bytes, out);
}
