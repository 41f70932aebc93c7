ghost use Rattle.std.specs.Prelude.{◌≡◌, length};
ghost use Rattle.ksi_aggtree.specs.Entries.{items_of};

use ksi_aggtree::{Entry, Item};

/// The sealed items of a second in turn, lent from the list that keeps where each came from.
#[derive(Drop)]
pub struct LentItems<'a> {
    entries: &'a [Entry],
}

impl<'a> LentItems<'a> {
    ghost use Rattle.ksi_corenode.specs.ItemsLeft.{items_left};

    /// The items of these entries.
    pub(crate) fn new(entries: &'a [Entry]) -> Self
        ensures { items_left result ≡ items_of entries.now }
    {
        LentItems { entries }
    }

    /// How many items are left.
    pub fn count_left(&self) -> usize
        ensures { result ≡ length (items_left self.now) }
    {
        self.entries.len()
    }
}

impl<'a> Iterator for LentItems<'a> {
    ghost use Rattle.std.specs.Iterator.{YieldsFirstBy, item_count};
    ghost use Rattle.ksi_corenode.specs.ItemsLeft.{items_left};

    type Item = &'a Item;

    ghost next_gives = { YieldsFirstBy (λ item. item.now) items_left };

    ghost remaining = { item_count items_left };

    fn next(&mut self) -> Option<&'a Item> {
        match self.entries.split_first() {
            Some((first, others)) => {
                self.entries = others;
                Some(&first.item)
            }
            None => None,
        }
    }
}
