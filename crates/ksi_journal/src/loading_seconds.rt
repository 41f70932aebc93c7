//! The kept seconds and their items, as they are loaded.
ghost use Rattle.std.specs.Prelude.{◌≡◌};
ghost use Rattle.std.specs.Str.{bytes_eq};
ghost use Rattle.ksi_aggtree.specs.Rounds.{highest_item, leaf_level};
ghost use Rattle.ksi_journal.specs.Elements.{counts};

use crate::fault::JournalFault;
use crate::fields::read_second;
use crate::item::read_item;
use crate::loading::{Loading, named};
use crate::stage::Stage;
use ksi_aggtree::{Item, Items, MOST_ITEMS, Second, root_with};
use ksi_imprint::{Compress, Imprint, Refused};
use ksi_tlv::Placed;
use std::mem;

impl<C: Compress> Loading<C> {
    ghost use Rattle.std.specs.Prelude.{◌≡◌, ◌+◌, ◌<◌, ◌≤◌, ◌^◌, Ok, Err, IsOk};
    ghost use Rattle.ksi_tlv.specs.Views.{view_placed};
    ghost use Rattle.ksi_tlv.specs.Order.{Steps};
    ghost use Rattle.ksi_imprint.specs.declared.refused.Refused.TheVariants as refused;
    ghost use Rattle.ksi_journal.specs.Elements.{read_second, counted, closed, finished, with_item, item_at};

    #[tactic(auto, unfolding(crate::specs::Elements::read_second))]
    pub(crate) fn second(&mut self, at: &Placed<'_>) -> Result<(), Refused<JournalFault>>
        ensures read { Steps (read_second self.old (view_placed at.now)) self.new result }
        ensures wanting { result ≡ Err refused.NoMemory → IsOk (read_second self.old (view_placed at.now)) }
    {
        match read_second(at, self.least_second) {
            Ok((second, root, count)) => self.open(second, root, count),
            Err(fault) => Err(Refused::Fault(named(fault))),
        }
    }

    /// A second of which this many items are to come.
    fn open(&mut self, second: u64, root: Imprint, count: u64) -> Result<(), Refused<JournalFault>>
        requires { second < 2 ^ 63 }
        ensures read { Steps (counted self.old second root count) self.new result }
        ensures wanting { result ≡ Err refused.NoMemory → IsOk (counted self.old second root count) }
    {
        if !counts(&root, count) {
            return Err(Refused::Fault(JournalFault::Count(second)));
        }
        let count = count as usize;
        if count == 0 {
            return self.close(second, root, Items::from_vec(Vec::new(self.alloc)));
        }
        // the last item is not put behind the others before the tree has the root, and needs no room where it is alone
        let items = match Vec::with_capacity(self.alloc, if count == 1 { 0 } else { count }) {
            Ok(items) => items,
            Err(_) => return Err(Refused::NoMemory),
        };
        self.stage = Stage::Items;
        self.second = second;
        self.root = root;
        self.items = items;
        self.left = count;
        Ok(())
    }

    /// A second all of whose items are there.
    fn close(
        &mut self,
        second: u64,
        root: Imprint,
        items: Items,
    ) -> Result<(), Refused<JournalFault>>
        requires { second < 2 ^ 63 }
        ensures { Steps (Ok (closed self.old (record { second = second; root = root; items = items }))) self.new result }
    {
        let kept = Second {
            second,
            root,
            items,
        };
        if self.parts.seconds.push(kept).is_err() {
            return Err(Refused::NoMemory);
        }
        self.stage = Stage::Seconds;
        self.least_second = second + 1;
        self.second = 0;
        self.root = Imprint::ZERO;
        self.items = Vec::new(self.alloc);
        self.left = 0;
        Ok(())
    }

    #[tactic(auto, unfolding(crate::specs::Elements::item_at))]
    pub(crate) fn item(&mut self, at: &Placed<'_>) -> Result<(), Refused<JournalFault>>
        ensures read { Steps (item_at C.image self.old (view_placed at.now)) self.new result }
        ensures wanting { result ≡ Err refused.NoMemory → IsOk (item_at C.image self.old (view_placed at.now)) }
    {
        let item = match read_item(at) {
            Ok(item) => item,
            Err(fault) => return Err(Refused::Fault(fault)),
        };
        if self.left > 1 {
            if self.items.push(item).is_err() {
                return Err(Refused::NoMemory);
            }
            self.left -= 1;
            return Ok(());
        }
        self.finish(item)
    }

    /// The last item of a second: memory is taken for it only where the tree has the root.
    fn finish(&mut self, item: Item) -> Result<(), Refused<JournalFault>>
        requires left { self.old.left ≤ 1 }
        requires low { leaf_level item ≤ highest_item }
        ensures read { Steps (finished C.image self.old (with_item self.old.current item)) self.new result }
        ensures wanting { result ≡ Err refused.NoMemory → IsOk (finished C.image self.old (with_item self.old.current item)) }
    {
        let computed = root_with::<C>(&self.items, &item).imprint;
        if !is_same(&computed, &self.root) {
            return Err(Refused::Fault(JournalFault::TreeRoot(self.second, self.root, computed)));
        }
        self.keep(item)
    }

    /// The last item of a second whose tree has its root.
    fn keep(&mut self, item: Item) -> Result<(), Refused<JournalFault>>
        requires left { self.old.left ≤ 1 }
        requires low { leaf_level item ≤ highest_item }
        ensures { Steps (Ok (closed self.old (with_item self.old.current item))) self.new result }
    {
        if self.items.is_empty() {
            return self.close(self.second, self.root, Items::one(item));
        }
        let mut items = mem::replace(&mut self.items, Vec::new(self.alloc));
        if items.push(item).is_err() {
            return Err(Refused::NoMemory);
        }
        self.close(self.second, self.root, Items::from_vec(items))
    }
}

fn is_same(one: &Imprint, two: &Imprint) -> bool
    ensures { result ≡ bytes_eq one.now two.now }
{
    one.bytes().as_slice() == two.bytes().as_slice()
}

/// The zero root alone has no items.
fn counts(root: &Imprint, count: u64) -> bool
    ensures { result ≡ counts root.now count }
{
    if is_same(root, &Imprint::ZERO) {
        count == 0
    } else {
        1 <= count && count <= MOST_ITEMS as u64
    }
}
