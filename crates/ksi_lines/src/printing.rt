// A line of words, built in one place.
ghost use Rattle.std.specs.Prelude.{◌≡◌, ℕ, ◌+◌, ◌≤◌, ◌∷◌, ◌++◌, map, length};
ghost use Rattle.std.specs.Fmt.{decimal};
ghost use Rattle.arrayvec.specs.ArrayVec.{array_vec_len};
ghost use Rattle.ksi_schedule.specs.Printed.{spaced, hex_of};
ghost use Rattle.ksi_lines.specs.Lines.{line_text};
ghost use Rattle.ksi_lines.specs.Printed.{word_text, word_room, room};

use crate::line::Line;
use arrayvec::ArrayVec;
use itoa::Buffer;
use ksi_imprint::Imprint;

/// A word of a line.
#[derive(Clone, Copy)]
pub enum Word<'a> {
    Text(&'a str),
    Number(u64),
    Optional(Option<u64>),
    Digest(&'a Imprint),
}

/// The words, then the values, parted by spaces, and a line feed. It takes no memory.
pub fn print(first: Word<'_>, words: &[Word<'_>], values: &[Word<'_>]) -> Line
    requires { word_room first + room words.now + room values.now ≤ 254 }
    ensures { result ≡ line_text (word_text first.entry ∷ (map word_text words.now ++ map word_text values.now)) }
{
    let mut text = ArrayVec::new();
    push_word(&mut text, first);
    push_words(&mut text, words);
    push_words(&mut text, values);
    push(&mut text, b"\n");
    Line::short(text)
}

/// The words, each behind a space.
fn push_words(text: &mut ArrayVec<u8, 255>, words: &[Word<'_>])
    requires { array_vec_len text.old + room words.now ≤ 255 }
    ensures told { text.new.items ≡ text.old.items ++ spaced (map word_text words.now) }
    ensures fits { array_vec_len text.new ≤ array_vec_len text.old + room words.now }
{
    for word in words {
        push(text, b" ");
        push_word(text, *word);
    }
}

fn push_word(text: &mut ArrayVec<u8, 255>, word: Word<'_>)
    requires { array_vec_len text.old + word_room word ≤ 255 }
    ensures told { text.new.items ≡ text.old.items ++ word_text word.entry }
    ensures fits { length (word_text word.entry) ≤ word_room word.entry }
{
    match word {
        Word::Text(piece) => push(text, piece.as_bytes()),
        Word::Number(n) | Word::Optional(Some(n)) => push_number(text, n),
        Word::Optional(None) => push(text, b"-"),
        Word::Digest(imprint) => push_digest(text, imprint),
    }
}

#[tactic(auto, using(crate::proofs::LineLengths::decimal_length))]
fn push_number(text: &mut ArrayVec<u8, 255>, n: u64)
    requires { array_vec_len text.old + 20 ≤ 255 }
    ensures told { text.new.items ≡ text.old.items ++ decimal n }
    ensures fits { length (decimal n) ≤ 20 }
{
    let mut buffer = Buffer::new();
    push(text, buffer.format(n).as_bytes());
}

// The digest in hex.
fn push_digest(text: &mut ArrayVec<u8, 255>, imprint: &Imprint)
    requires { array_vec_len text.old + 64 ≤ 255 }
    ensures told { text.new.items ≡ text.old.items ++ hex_of imprint.now }
    ensures fits { length (hex_of imprint.now) ≤ 64 }
{
    let mut digits = [0; 64];
    imprint.write_hex(&mut digits);
    push(text, &digits);
}

fn push(text: &mut ArrayVec<u8, 255>, piece: &[u8])
    requires { array_vec_len text.old + length piece.now ≤ 255 }
    ensures { text.new.items ≡ text.old.items ++ piece.now }
{
    match text.try_extend_from_slice(piece) {
        Ok(()) => {}
        Err(_) => unreachable!(),
    }
}
