ghost use Rattle.std.specs.Prelude.{◌≡◌, Ok};
ghost use Rattle.ksi_tlv.specs.Views.{view_placed};
ghost use Rattle.ksi_tlv.specs.Containing.{inner_verdict};
ghost use Rattle.ksi_signature.specs.Tables.{chain_table};
ghost use Rattle.ksi_signature.specs.Contents.{chain_in};
ghost use Rattle.ksi_signature.specs.Heads.{head_of};
ghost use Rattle.ksi_signature.specs.HeadViews.{view_head};

use crate::head::Head;
use crate::index_parts::IndexParts;
use crate::link_parts::SiblingView;
use crate::link_views::LinkViews;
use crate::link_walking::{bare_in, climb_in, links_in, shape_in, sibling_in};
use crate::walking::head_in;
use crate::within::{chain_is_limited, imprint_in_chain, parts_are_numbers};
use ksi_aggtree::chains::{LevelFault, Node};
use ksi_imprint::{Compress, Imprint};
use ksi_tlv::{Elements, Placed};

/// An aggregation chain, lent from the bytes of its signature.
#[derive(Clone, Copy)]
pub struct ChainView<'a> {
    pub(crate) at: Placed<'a>,
    head: Head<'a>,
    ghost accepted: { inner_verdict chain_table (view_placed at) ≡ Ok tt },
    ghost told: { view_head head ≡ head_of (chain_in (view_placed at)) },
}

impl<'a> ChainView<'a> {
    ghost use Rattle.std.specs.Prelude.{◌≡◌, ◌<◌, ◌≤◌, ◌^◌, Ok, length, map, option_map, slice_get};
    ghost use Rattle.std.specs.List.{AllByRecursion};
    ghost use Rattle.ksi_aggtree.specs.Climbing.{climbed};
    ghost use Rattle.ksi_aggtree.specs.Links.{first_bare};
    ghost use Rattle.ksi_aggtree.specs.Shapes.{shape_of};
    ghost use Rattle.ksi_aggtree.specs.Owned.{plain_links};
    ghost use Rattle.ksi_tlv.specs.Views.{view_placed};
    ghost use Rattle.ksi_tlv.specs.Containing.{inner_verdict};
    ghost use Rattle.ksi_signature.specs.Tables.{chain_table};
    ghost use Rattle.ksi_signature.specs.Contents.{chain_in};
    ghost use Rattle.ksi_signature.specs.Heads.{last_part};
    ghost use Rattle.ksi_signature.specs.Values.{AreLinks};
    ghost use Rattle.ksi_signature.specs.Kept.{IsLink};
    ghost use Rattle.ksi_signature.specs.PartsLeft.{parts_left};
    ghost use Rattle.ksi_signature.specs.PartsSeen.{chain_seen};
    ghost use Rattle.ksi_signature.specs.LinkParts.{view_sibling};

    /// The chain that an accepted element is.
    pub(crate) fn new(at: &Placed<'a>) -> Self
        requires { inner_verdict chain_table (view_placed at.now) ≡ Ok tt }
        ensures { chain_seen result ≡ chain_in (view_placed at.now) }
    {
        let head = head_in(at);
        ChainView { at: *at, head }
    }

    /// The second of the aggregation.
    pub fn time(&self) -> u64
        ensures value { result ≡ (chain_seen self.now).time }
        ensures below { result < 2 ^ 63 }
    {
        chain_is_limited(&self.at);
        self.head.time
    }

    /// What the links lead from.
    pub fn input(&self) -> Imprint
        ensures { result ≡ (chain_seen self.now).input }
    {
        imprint_in_chain(&self.at, self.head.input)
    }

    /// The body of the input data, if the chain has any.
    pub fn input_body(&self) -> Option<&'a [u8]>
        ensures { option_map (λ body. body.now) result ≡ (chain_seen self.now).input_body }
    {
        self.head.input_body
    }

    /// The parts of the index in turn.
    #[tactic(auto, unfolding(crate::specs::Contents::chain_in))]
    pub fn index(&self) -> IndexParts<'a>
        ensures { parts_left result ≡ (chain_seen self.now).index }
    {
        parts_are_numbers(&self.at);
        let elements = Elements::at(self.at.inside, self.at.element.body);
        IndexParts::new(elements, self.head.parts)
    }

    /// The last part of the index.
    pub fn last_part(&self) -> u64
        ensures { result ≡ last_part (chain_seen self.now).index }
    {
        self.head.last
    }

    /// The links, the lowest first, in an array.
    #[tactic(auto, unfolding(crate::specs::Contents::chain_in))]
    pub fn links(&self) -> LinkViews<'a>
        ensures links { result ≡ plain_links (chain_seen self.now).links }
        ensures count { length result ≤ 63 }
        ensures limits { AreLinks (chain_seen self.now).links }
        ensures each { AllByRecursion IsLink (chain_seen self.now).links }
    {
        chain_is_limited(&self.at);
        links_in(&self.at)
    }

    /// The sibling of the link at a place, of the lowest at place 0: none past the last. A legacy identifier and metadata
    /// are distinguished here.
    #[tactic(auto, unfolding(crate::specs::Contents::chain_in))]
    pub fn sibling(&self, place: usize) -> Option<SiblingView<'a>>
        ensures { option_map view_sibling result ≡ option_map (λ link. link.sibling) (slice_get (chain_seen self.now).links place) }
    {
        sibling_in(&self.at, place)
    }

    /// The shape of the links.
    #[tactic(auto, unfolding(crate::specs::Contents::chain_in))]
    pub fn shape(&self) -> u64
        ensures { result ≡ shape_of (map (λ link. link.side) (plain_links (chain_seen self.now).links)) }
    {
        shape_in(&self.at)
    }

    /// The item that the links lead to from an item.
    ///
    /// # Errors
    /// `Over` with the first link whose level passes 255.
    #[tactic(auto, unfolding(crate::specs::Contents::chain_in))]
    pub fn climb<C: Compress>(&self, start: Node) -> Result<Node, LevelFault>
        ensures { result ≡ climbed C.image 0 start (plain_links (chain_seen self.now).links) }
    {
        climb_in::<C>(&self.at, start)
    }

    /// The first right link whose raw sibling begins with 0x01, as an imprint does, or none.
    #[tactic(auto, unfolding(crate::specs::Contents::chain_in))]
    pub fn bare_link(&self) -> Option<usize>
        ensures { result ≡ first_bare 0 (plain_links (chain_seen self.now).links) }
    {
        bare_in(&self.at)
    }

    /// How many parts the index has.
    pub fn parts(&self) -> usize
        ensures value { result ≡ length (chain_seen self.now).index }
        ensures some { 0 < result }
    {
        chain_is_limited(&self.at);
        self.head.parts
    }
}
