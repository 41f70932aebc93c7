//! Walks over the links of an accepted aggregation chain.

ghost use Rattle.std.specs.Prelude.{◌≡◌, map, option_map, slice_get, Ok};
ghost use Rattle.ksi_aggtree.specs.Links.{first_bare};
ghost use Rattle.ksi_aggtree.specs.Owned.{plain_link, plain_links};
ghost use Rattle.ksi_aggtree.specs.Climbing.{climbed};
ghost use Rattle.ksi_aggtree.specs.Shapes.{shape_of};
ghost use Rattle.ksi_aggtree.specs.Lent.{lent_link};
ghost use Rattle.ksi_tlv.specs.Views.{view_placed};
ghost use Rattle.ksi_tlv.specs.Containing.{inner_verdict};
ghost use Rattle.ksi_tlv.specs.Valid.{MayStand};
ghost use Rattle.ksi_tlv.specs.Inside.{inner_elements};
ghost use Rattle.ksi_signature.specs.Tables.{link_table, chain_table};
ghost use Rattle.ksi_signature.specs.Contents.{link_in, links_among};
ghost use Rattle.ksi_signature.specs.LinkParts.{parts_of, parts_with, view_sibling, view_parts};

use crate::contents::{is_link, level_of, side_of};
use crate::kinds::{CORRECTION, IMPRINT, LEGACY, METADATA};
use crate::link_parts::{LinkParts, SiblingView};
use crate::link_views::LinkViews;
use crate::within::links_are_limited;
use ksi_aggtree::chains::laws::one_shape;
use ksi_aggtree::chains::{
    LevelFault, LinkView, Node, climb_link, is_bare, with_leading_one, with_side,
};
use ksi_imprint::Compress;
use ksi_tlv::grammar::laws::inside_is_whole;
use ksi_tlv::{Elements, Placed};

/// The links of an accepted chain.
pub(crate) fn links_in<'a>(at: &Placed<'a>) -> LinkViews<'a>
    requires { inner_verdict chain_table (view_placed at.now) ≡ Ok tt }
    ensures { result ≡ plain_links (links_among (inner_elements (view_placed at.now))) }
{
    links_are_limited(at);
    let mut links = LinkViews::new();
    let mut elements = Elements::at(at.inside, at.element.body);
    while let Some(item) = elements.next() {
        if let Ok(part) = item {
            if is_link(&part) {
                links.push(link_at(&part));
            }
        }
    }
    links
}

/// The item that the links of an accepted chain lead to from an item: each is read when it is climbed along.
pub(crate) fn climb_in<C: Compress>(at: &Placed<'_>, start: Node) -> Result<Node, LevelFault>
    requires { inner_verdict chain_table (view_placed at.now) ≡ Ok tt }
    ensures { result ≡ climbed C.image 0 start (plain_links (links_among (inner_elements (view_placed at.now)))) }
{
    links_are_limited(at);
    let mut top = start;
    let mut place = 0;
    let mut elements = Elements::at(at.inside, at.element.body);
    while let Some(item) = elements.next() {
        if let Ok(part) = item {
            if is_link(&part) {
                match climb_link::<C, LinkView<'_>>(top, place, &link_at(&part)) {
                    Ok(above) => top = above,
                    Err(fault) => return Err(fault),
                }
                place += 1;
            }
        }
    }
    Ok(top)
}

/// The first right link of an accepted chain whose raw sibling begins with 0x01.
pub(crate) fn bare_in(at: &Placed<'_>) -> Option<usize>
    requires { inner_verdict chain_table (view_placed at.now) ≡ Ok tt }
    ensures { result ≡ first_bare 0 (plain_links (links_among (inner_elements (view_placed at.now)))) }
{
    links_are_limited(at);
    let mut place = 0;
    let mut elements = Elements::at(at.inside, at.element.body);
    while let Some(item) = elements.next() {
        if let Ok(part) = item {
            if is_link(&part) {
                if is_bare::<LinkView<'_>>(&link_at(&part)) {
                    return Some(place);
                }
                place += 1;
            }
        }
    }
    None
}

/// The sibling of the link at a place of an accepted chain, none past the last.
#[tactic(auto, unfolding(crate::specs::Contents::link_in))]
pub(crate) fn sibling_in<'a>(at: &Placed<'a>, place: usize) -> Option<SiblingView<'a>>
    requires { inner_verdict chain_table (view_placed at.now) ≡ Ok tt }
    ensures { option_map view_sibling result ≡ option_map (λ link. link.sibling) (slice_get (links_among (inner_elements (view_placed at.now))) place) }
{
    inside_is_whole();
    let mut left = place;
    let mut elements = Elements::at(at.inside, at.element.body);
    while let Some(item) = elements.next() {
        if let Ok(part) = item {
            if is_link(&part) {
                if left == 0 {
                    return Some(sibling_at(&part));
                }
                left -= 1;
            }
        }
    }
    None
}

/// The sibling of an accepted link.
#[tactic(auto, unfolding(crate::specs::Contents::link_in))]
fn sibling_at<'a>(at: &Placed<'a>) -> SiblingView<'a>
    requires { inner_verdict link_table (view_placed at.now) ≡ Ok tt }
    ensures { view_sibling result ≡ (link_in (view_placed at.now)).sibling }
{
    let parts = link_parts_in(at);
    parts.sibling
}

/// The shape of the links of an accepted chain.
pub(crate) fn shape_in(at: &Placed<'_>) -> u64
    requires { inner_verdict chain_table (view_placed at.now) ≡ Ok tt }
    ensures { result ≡ shape_of (map (λ link. link.side) (plain_links (links_among (inner_elements (view_placed at.now))))) }
{
    links_are_limited(at);
    one_shape();
    let mut bits = 0;
    let mut place = 0;
    let mut elements = Elements::at(at.inside, at.element.body);
    while let Some(item) = elements.next() {
        if let Ok(part) = item {
            if is_link(&part) {
                bits = with_side(bits, place, side_of(&part));
                place += 1;
            }
        }
    }
    with_leading_one(bits, place)
}

/// The link that an accepted element is.
#[tactic(auto, unfolding(crate::specs::Contents::link_in))]
fn link_at<'a>(at: &Placed<'a>) -> LinkView<'a>
    requires { inner_verdict link_table (view_placed at.now) ≡ Ok tt }
    ensures { lent_link result ≡ plain_link (link_in (view_placed at.now)) }
{
    let parts = link_parts_in(at);
    LinkView {
        side: side_of(at),
        correction: parts.correction,
        sibling: parts.sibling.bytes(),
        raw: parts.sibling.is_raw(),
    }
}

/// All of an accepted link but its side.
pub(crate) fn link_parts_in<'a>(at: &Placed<'a>) -> LinkParts<'a>
    requires { inner_verdict link_table (view_placed at.now) ≡ Ok tt }
    ensures { view_parts result ≡ parts_of (link_in (view_placed at.now)) }
{
    inside_is_whole();
    let mut parts = LinkParts {
        correction: 0,
        sibling: SiblingView::Imprint(&[]),
    };
    let mut elements = Elements::at(at.inside, at.element.body);
    while let Some(item) = elements.next() {
        if let Ok(part) = item {
            parts.put(&part);
        }
    }
    parts
}

impl<'a> LinkParts<'a> {
    /// Takes what one element says.
    fn put(&mut self, part: &Placed<'a>)
        requires { MayStand link_table (view_placed part.now) }
        ensures { view_parts self.new ≡ parts_with (view_parts self.old) (view_placed part.now) }
    {
        let body = part.element.body;
        match part.element.kind {
            CORRECTION => self.correction = level_of(part),
            IMPRINT => self.sibling = SiblingView::Imprint(body),
            LEGACY => self.sibling = SiblingView::Legacy(body),
            METADATA => self.sibling = SiblingView::Metadata(body),
            _ => (),
        }
    }
}

impl<'a> SiblingView<'a> {
    ghost use Rattle.std.specs.Prelude.{◌≡◌};
    ghost use Rattle.ksi_aggtree.specs.Owned.{sibling_bytes, is_raw};
    ghost use Rattle.ksi_signature.specs.LinkParts.{view_sibling};

    /// The bytes that a join has of it.
    fn bytes(&self) -> &'a [u8]
        ensures { result.now ≡ sibling_bytes (view_sibling self.now) }
    {
        match self {
            SiblingView::Imprint(bytes)
            | SiblingView::Legacy(bytes)
            | SiblingView::Metadata(bytes) => bytes,
        }
    }

    /// Whether these are raw bytes.
    fn is_raw(&self) -> bool
        ensures { result ≡ is_raw (view_sibling self.now) }
    {
        match self {
            SiblingView::Imprint(_) => false,
            SiblingView::Legacy(_) | SiblingView::Metadata(_) => true,
        }
    }
}
