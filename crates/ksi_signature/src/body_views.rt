ghost use Rattle.std.specs.Prelude.{◌≡◌};
ghost use Rattle.std.specs.Iterator.{YieldsFirstBy};
ghost use Rattle.ksi_tlv.specs.Views.{rest};
ghost use Rattle.ksi_tlv.specs.Inside.{whole};
ghost use Rattle.ksi_signature.specs.Contents.{bodies_of};

use ksi_tlv::{Elements, Placed};

/// The references or the repositories of a lent record in turn, read from the bytes of its elements.
#[derive(Drop)]
pub struct BodyViews<'a> {
    elements: Elements<'a>,
    kind: u16,
}

impl<'a> BodyViews<'a> {
    ghost use Rattle.std.specs.Prelude.{◌≡◌};
    ghost use Rattle.ksi_tlv.specs.Views.{view_placed};
    ghost use Rattle.ksi_tlv.specs.Inside.{inner_elements};
    ghost use Rattle.ksi_signature.specs.Contents.{bodies_of};
    ghost use Rattle.ksi_signature.specs.BodiesLeft.{bodies_left};

    /// The bodies of the elements of a kind inside an element.
    pub(crate) fn new(at: &Placed<'a>, kind: u16) -> Self
        ensures { bodies_left result ≡ bodies_of kind (inner_elements (view_placed at.now)) }
    {
        BodyViews {
            elements: Elements::at(at.inside, at.element.body),
            kind,
        }
    }
}

impl<'a> Iterator for BodyViews<'a> {
    ghost use Rattle.std.specs.Iterator.{YieldsFirstBy, item_count};
    ghost use Rattle.ksi_signature.specs.BodiesLeft.{bodies_left};

    type Item = &'a [u8];

    ghost next_gives = { YieldsFirstBy (λ body. body.now) bodies_left };

    ghost remaining = { item_count bodies_left };

    fn next(&mut self) -> Option<&'a [u8]> {
        let kind = self.kind;
        next_body(&mut self.elements, kind)
    }
}

/// The first body of that kind among the elements that are left.
fn next_body<'a>(elements: &mut Elements<'a>, kind: u16) -> Option<&'a [u8]>
    ensures { YieldsFirstBy (λ body. body.now) (λ elements. bodies_of kind (whole (rest elements))) elements.old result elements.new }
{
    while let Some(item) = elements.next() {
        if let Ok(part) = item {
            if part.element.kind == kind {
                return Some(part.element.body);
            }
        }
    }
    None
}
