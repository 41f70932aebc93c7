//! Where the links of an accepted calendar chain lead, each read from its bytes when it is climbed along.

ghost use Rattle.std.specs.Prelude.{◌≡◌, Ok};
ghost use Rattle.ksi_split.specs.Parts.{second_at};
ghost use Rattle.ksi_split.specs.Trees.{climb_links};
ghost use Rattle.ksi_calendar.specs.Climbing.{calendar_element_text, calendar_join};
ghost use Rattle.ksi_calendar.specs.Sides.{sides_from_top};
ghost use Rattle.ksi_tlv.specs.Views.{view_placed};
ghost use Rattle.ksi_tlv.specs.Containing.{inner_verdict};
ghost use Rattle.ksi_tlv.specs.Inside.{inner_elements};
ghost use Rattle.ksi_signature.specs.Tables.{calendar_table};
ghost use Rattle.ksi_signature.specs.Contents.{calendar_links_among, side_in};

use crate::contents::{is_link, side_of};
use crate::within::calendar_is_limited;
use ksi_imprint::{Compress, Imprint};
use ksi_split::{ShapeFault, Side, second_of};
use ksi_tlv::{Elements, Placed};

/// The imprint that the links of an accepted calendar chain lead to from an imprint.
pub(crate) fn climb_calendar_in<C: Compress>(at: &Placed<'_>, start: Imprint) -> Imprint
    ensures { result ≡ climb_links (calendar_join C.image) start (calendar_links_among (inner_elements (view_placed at.now))) }
{
    let mut top = start;
    let mut elements = Elements::at(at.inside, at.element.body);
    while let Some(item) = elements.next() {
        if let Ok(part) = item {
            if is_link(&part) {
                top = join_at::<C>(&top, &part);
            }
        }
    }
    top
}

/// The join of a node and the sibling that a link has, the node on the side that the link is called after. The sibling is
/// hashed from where it lies.
fn join_at<C: Compress>(node: &Imprint, link: &Placed<'_>) -> Imprint
    ensures { result ≡ C.image (calendar_element_text node.now (record { side = side_in (view_placed link.now); sibling = link.now.element.body.now })) }
{
    match side_of(link) {
        Side::Left => C::join(node.bytes(), link.element.body, 0xff),
        Side::Right => C::join(link.element.body, node.bytes(), 0xff),
    }
}

/// The second that the sides of an accepted calendar chain name among those from 0 to `p`.
///
/// # Errors
/// As [`ksi_calendar::second`] has them.
#[tactic(auto, unfolding(crate::specs::Contents::calendar_in))]
pub(crate) fn second_in(at: &Placed<'_>, p: u64) -> Result<u64, ShapeFault>
    requires { inner_verdict calendar_table (view_placed at.now) ≡ Ok tt }
    ensures { result ≡ second_at p (sides_from_top (calendar_links_among (inner_elements (view_placed at.now)))) }
{
    calendar_is_limited(at);
    let mut sides = [Side::Left; 63];
    let mut from = 63;
    let mut elements = Elements::at(at.inside, at.element.body);
    while let Some(item) = elements.next() {
        if let Ok(part) = item {
            if is_link(&part) {
                from -= 1;
                sides[from] = side_of(&part);
            }
        }
    }
    second_of(p, &sides[from..])
}
