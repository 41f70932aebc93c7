ghost use Rattle.std.specs.Prelude.{◌≡◌, ◌+◌, ◌^◌, ◌<◌, length};

use crate::element::{Element, TlvFault, read_one};

/// An element with its place.
#[derive(Clone, Copy)]
pub struct Placed<'a> {
    /// Where its first byte stands.
    pub place: usize,
    /// Where its body begins.
    pub inside: usize,
    pub element: Element<'a>,
    pub ghost fits: { inside + length element.body.now < 2 ^ 64 },
}

/// The elements of bytes in turn, each with its place. Where one is cut off, its place and the fault come once, and
/// then nothing any more.
#[derive(Drop)]
pub struct Elements<'a> {
    place: usize,
    bytes: &'a [u8],
    ghost fits: { place + length bytes.now < 2 ^ 64 },
}

impl<'a> Elements<'a> {
    ghost use Rattle.ksi_tlv.specs.Walking.{IsReading, elements};
    ghost use Rattle.ksi_tlv.specs.Views.{rest};

    /// The elements of bytes whose first byte is at place 0.
    pub fn new(bytes: &'a [u8]) -> Self
        ensures exact { rest result ≡ elements 0 bytes.now }
        ensures reading { IsReading 0 bytes.now (rest result) }
    {
        Elements::at(0, bytes)
    }

    /// The elements of bytes whose first byte is at a place.
    pub fn at(place: usize, bytes: &'a [u8]) -> Self
        requires { place + length bytes.now < 2 ^ 64 }
        ensures exact { rest result ≡ elements place bytes.now }
        ensures reading { IsReading place bytes.now (rest result) }
    {
        Elements { place, bytes }
    }
}

impl<'a> Iterator for Elements<'a> {
    ghost use Rattle.std.specs.Iterator.{YieldsFirstBy, at_most};
    ghost use Rattle.ksi_tlv.specs.Views.{view_item, rest};

    type Item = Result<Placed<'a>, (usize, TlvFault)>;

    ghost next_gives = { YieldsFirstBy view_item rest };

    ghost remaining = { λ walk. at_most (length walk.bytes.now) };

    fn next(&mut self) -> Option<Result<Placed<'a>, (usize, TlvFault)>> {
        if self.bytes.is_empty() {
            return None;
        }
        let place = self.place;
        match read_one(self.bytes) {
            Ok((element, size)) => {
                let (_, others) = self.bytes.split_at(size);
                let inside = place + (size - element.body.len());
                self.place = place + size;
                self.bytes = others;
                Some(Ok(Placed {
                    place,
                    inside,
                    element,
                }))
            }
            Err(fault) => {
                self.bytes = &[];
                Some(Err((place, fault)))
            }
        }
    }
}
