ghost use Rattle.std.specs.Prelude.{◌≡◌, ◌<◌, ◌≤◌, ◌++◌, ◌∷◌, [], length};

use crate::arrays::append_at;
use ksi_calendar::CalendarLink;
use ksi_imprint::Imprint;
use ksi_split::Side;
use std::marker::Model;

/// The links of a lent calendar chain, the lowest first: at most 63, in an array. A contract sees their list.
#[derive(Drop)]
pub struct CalendarLinkViews {
    links: [CalendarLink; 63],
    count: usize,
}

impl Model for CalendarLinkViews {
    ghost use Rattle.std.specs.Prelude.{◌≤◌, ℕ, List, take};
    ghost use Rattle.ksi_split.specs.declared.tree_link.TreeLink.{TreeLink};

    ghost Value = { List (TreeLink (List ℕ)) };

    ghost view = { λ links. take links.count links.links };

    ghost invariant = { λ links. links.count ≤ 63 };
}

impl CalendarLinkViews {
    /// No links.
    pub(crate) fn new() -> Self
        ensures { result ≡ [] }
    {
        let blank = CalendarLink {
            side: Side::Left,
            sibling: Imprint::ZERO,
        };
        CalendarLinkViews {
            links: [blank; 63],
            count: 0,
        }
    }

    /// Puts a link above the others.
    pub(crate) fn push(&mut self, link: CalendarLink)
        requires { length self.old < 63 }
        ensures { self.new ≡ self.old ++ link ∷ [] }
    {
        let count = self.count;
        append_at(&mut self.links, count, link);
        self.count = count + 1;
    }

    /// The links, the lowest first.
    pub fn as_slice(&self) -> &[CalendarLink]
        ensures links { result.now ≡ self.now }
        ensures count { length result.now ≤ 63 }
    {
        &self.links[..self.count]
    }
}
