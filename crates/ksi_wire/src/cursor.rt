// The words of a line, one after the other.
ghost use Rattle.std.specs.Prelude.{◌≡◌, ◌∷◌, [], IsNone, IsTrue};
ghost use Rattle.std.specs.Str.{bytes_eq};
ghost use Rattle.ksi_schedule.specs.Pieces.{words};
ghost use Rattle.ksi_schedule.specs.Reading.{words_left};
ghost use Rattle.ksi_wire.specs.Asked.{is_empty, number_in, imprint_in, Reads, ReadsNext, ReadsWord};

use crate::fault::WireFault;
use ksi_imprint::Imprint;
use ksi_schedule::read_number;
use memchr::memchr;

/// What is left of a line: nothing behind its last word.
#[derive(Clone, Copy)]
pub(crate) struct Words<'a> {
    left: Option<&'a [u8]>,
}

impl<'a> Words<'a> {
    pub(crate) fn new(line: &'a [u8]) -> Words<'a>
        ensures { words_left result.left ≡ words line.now }
    {
        Words { left: Some(line) }
    }

    /// The next word, if one is left.
    pub(crate) fn next_if_any(&mut self) -> Option<&'a [u8]>
        ensures word { ReadsWord (words_left self.old.left) result (words_left self.new.left) }
        ensures none { IsNone result → words_left self.new.left ≡ [] }
    {
        match self.left {
            None => None,
            Some(left) => {
                let (word, others) = cut(left);
                self.left = others;
                Some(word)
            }
        }
    }

    pub(crate) fn next_word(&mut self) -> Result<&'a [u8], WireFault>
        ensures { ReadsNext (words_left self.old.left) result (words_left self.new.left) }
    {
        match self.next_if_any() {
            Some(word) => Ok(word),
            None => Err(WireFault::Word),
        }
    }

    pub(crate) fn is_at_end(&self) -> bool
        ensures { result ≡ is_empty (words_left self.now.left) }
    {
        self.left.is_none()
    }

    pub(crate) fn number(&mut self) -> Result<u64, WireFault>
        ensures { Reads (number_in (words_left self.old.left)) result (words_left self.new.left) }
    {
        match read_number(self.next_word()?) {
            Some(n) => Ok(n),
            None => Err(WireFault::Number),
        }
    }

    pub(crate) fn imprint(&mut self) -> Result<Imprint, WireFault>
        ensures { Reads (imprint_in (words_left self.old.left)) result (words_left self.new.left) }
    {
        let Ok(text) = str::from_utf8(self.next_word()?) else {
            return Err(WireFault::Hash);
        };
        match Imprint::from_hex(text) {
            Ok(imprint) => Ok(imprint),
            Err(_) => Err(WireFault::Hash),
        }
    }
}

/// What stands before the first space, and what follows it.
fn cut(line: &[u8]) -> (&[u8], Option<&[u8]>)
    ensures { words line.now ≡ result.0.now ∷ words_left result.1 }
{
    match memchr(b' ', line) {
        Some(place) => {
            let (word, rest) = line.split_at(place);
            let (_, behind) = rest.split_at(1);
            (word, Some(behind))
        }
        None => (line, None),
    }
}

/// Whether a word is this one.
pub(crate) fn is(word: &[u8], text: &[u8]) -> bool
    ensures value { result ≡ bytes_eq word.now text.now }
    ensures same { IsTrue result → text.now ≡ word.now }
{
    word == text
}
