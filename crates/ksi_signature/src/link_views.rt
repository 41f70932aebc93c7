ghost use Rattle.std.specs.Prelude.{◌≡◌, ◌<◌, ◌≤◌, ◌++◌, ◌∷◌, [], length, map};
ghost use Rattle.ksi_aggtree.specs.Lent.{lent_link};

use crate::arrays::append_at;
use ksi_aggtree::chains::LinkView;
use ksi_split::Side;
use std::marker::Model;

/// The links of a lent aggregation chain, the lowest first: at most 63, in an array, their siblings lent. A contract
/// sees the list of what they show.
#[derive(Drop)]
pub struct LinkViews<'a> {
    links: [LinkView<'a>; 63],
    count: usize,
}

impl<'a> Model for LinkViews<'a> {
    ghost use Rattle.std.specs.Prelude.{◌≤◌, List, map, take};
    ghost use Rattle.ksi_aggtree.specs.Links.{PlainLink};
    ghost use Rattle.ksi_aggtree.specs.Lent.{lent_link};

    ghost Value = { List PlainLink };

    ghost view = { λ links. map lent_link (take links.count links.links) };

    ghost invariant = { λ links. links.count ≤ 63 };
}

impl<'a> LinkViews<'a> {
    /// No links.
    pub(crate) fn new() -> Self
        ensures { result ≡ [] }
    {
        let blank = LinkView {
            side: Side::Left,
            correction: 0,
            sibling: &[],
            raw: false,
        };
        LinkViews {
            links: [blank; 63],
            count: 0,
        }
    }

    /// Puts a link above the others.
    pub(crate) fn push(&mut self, link: LinkView<'a>)
        requires { length self.old < 63 }
        ensures { self.new ≡ self.old ++ lent_link link.entry ∷ [] }
    {
        let count = self.count;
        append_at(&mut self.links, count, link);
        self.count = count + 1;
    }

    /// The links, the lowest first.
    pub fn as_slice(&self) -> &[LinkView<'a>]
        ensures links { map lent_link result.now ≡ self.now }
        ensures count { length result.now ≤ 63 }
    {
        &self.links[..self.count]
    }
}
