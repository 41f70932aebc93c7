ghost use Rattle.std.specs.Prelude.{◌≡◌, true, length, map};
ghost use Rattle.std.specs.Iterator.{YieldsFirstBy};
ghost use Rattle.ksi_tlv.specs.Views.{rest};
ghost use Rattle.ksi_tlv.specs.Numerals.{number_of};
ghost use Rattle.ksi_tlv.specs.Inside.{whole};
ghost use Rattle.ksi_signature.specs.Contents.{bodies_of};
ghost use Rattle.ksi_signature.specs.Heads.{parts_pass};

use crate::contents::number_of;
use crate::kinds::INDEX_PART;
use ksi_tlv::Elements;

/// The parts of a lent chain's index in turn, read from the bytes of its elements.
#[derive(Drop)]
pub struct IndexParts<'a> {
    elements: Elements<'a>,
    left: usize,
    ghost pass: { parts_pass (whole (rest elements)) ≡ true },
    ghost left_is: { left ≡ length (bodies_of 3 (whole (rest elements))) },
}

impl<'a> IndexParts<'a> {
    ghost use Rattle.std.specs.Prelude.{◌≡◌, true, length, map};
    ghost use Rattle.ksi_tlv.specs.Views.{rest};
    ghost use Rattle.ksi_tlv.specs.Numerals.{number_of};
    ghost use Rattle.ksi_tlv.specs.Inside.{whole};
    ghost use Rattle.ksi_signature.specs.Contents.{bodies_of};
    ghost use Rattle.ksi_signature.specs.Heads.{parts_pass};
    ghost use Rattle.ksi_signature.specs.PartsLeft.{parts_left};

    /// The index parts of elements, this many.
    pub(crate) fn new(elements: Elements<'a>, left: usize) -> Self
        requires pass { parts_pass (whole (rest elements)) ≡ true }
        requires count { left ≡ length (bodies_of 3 (whole (rest elements))) }
        ensures { parts_left result ≡ map number_of (bodies_of 3 (whole (rest elements.entry))) }
    {
        IndexParts { elements, left }
    }
}

impl<'a> Iterator for IndexParts<'a> {
    ghost use Rattle.std.specs.Iterator.{YieldsFirst, item_count};
    ghost use Rattle.ksi_signature.specs.PartsLeft.{parts_left};

    type Item = u64;

    ghost next_gives = { YieldsFirst parts_left };

    ghost remaining = { item_count parts_left };

    fn next(&mut self) -> Option<u64> {
        if self.left == 0 {
            return None;
        }
        match next_part(&mut self.elements) {
            Some(part) => {
                self.left -= 1;
                Some(part)
            }
            None => None,
        }
    }
}

/// The first index part of the elements that are left.
fn next_part(elements: &mut Elements<'_>) -> Option<u64>
    requires { parts_pass (whole (rest elements.old)) ≡ true }
    ensures part { YieldsFirstBy (λ part. part) (λ elements. map number_of (bodies_of 3 (whole (rest elements)))) elements.old result elements.new }
    ensures pass { parts_pass (whole (rest elements.new)) ≡ true }
{
    while let Some(item) = elements.next() {
        if let Ok(part) = item {
            if part.element.kind == INDEX_PART {
                return Some(number_of(&part));
            }
        }
    }
    None
}
