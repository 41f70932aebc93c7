ghost use Rattle.std.specs.Prelude.{◌≡◌, ◌++◌, ◌∷◌, [], ◌<◌, ◌≤◌, ◌↔◌, length, slice_get, Some, OnErr, IfOk, IfSome};
ghost use Rattle.ksi_aggtree.specs.Names.{IsName};
ghost use Rattle.ksi_aggtree.specs.Climbing.{Climbs};
ghost use Rattle.ksi_aggtree.specs.Owned.{plain_links};
ghost use Rattle.ksi_aggtree.specs.Rounds.{most_items, highest_item, leaf_level, as_node, item_at, tree_of, root_of};
ghost use Rattle.ksi_aggtree.specs.Paths.{chain_of, item_way, sides_from_top};
ghost use Rattle.ksi_aggtree.specs.Entries.{items_of, has_from, candidate_of};

use crate::builder::{AddRefusal, Builder};
use crate::chains::Node;
use crate::item::{Item, MOST_ITEMS};
use crate::item_path::ItemPath;
use crate::paths::RoundPaths;
use crate::room::reserve_one;
use crate::senders::{make_room, note};
use ksi_imprint::{Compress, Imprint, NoMemory, Refused};
use std::alloc::Global;
use std::collections::HashSet;
use std::marker::Model;

/// Where an item came from.
#[derive(Clone, Copy, PartialEq, Eq, Debug)]
pub enum Origin {
    /// The request of this number.
    Request(u64),
    /// The aggregator of this number, which submitted it.
    Aggregator(u32),
}

/// An item of a round, and where it came from.
#[derive(Clone, Copy, PartialEq, Eq, Debug)]
pub struct Entry {
    pub origin: Origin,
    pub item: Item,
}

/// A round with where its items came from. A contract sees their list.
#[derive(Drop)]
pub struct Entries<C: Compress> {
    origins: Vec<Origin>,
    senders: HashSet<u32>,
    round: Builder<C>,
}

impl<C: Compress> Model for Entries<C> {
    ghost use Rattle.std.specs.Prelude.{List, nat_eq};
    ghost use Rattle.std.specs.HashSet.{contains};
    ghost use Rattle.ksi_aggtree.specs.declared.entries.Entry as entry;
    ghost use Rattle.ksi_aggtree.specs.Entries.{entries_of, AreKept};

    ghost Value = { List entry.Entry };

    ghost view = { λ entries. entries_of entries.origins.items entries.round };

    ghost invariant = { λ entries. AreKept entries.origins.items entries.round (contains nat_eq entries.senders) };
}

impl<C: Compress> Entries<C> {
    /// No items.
    ///
    /// # Errors
    /// `NoMemory`: nothing is made.
    pub fn new(alloc: Global) -> Result<Self, NoMemory>
        ensures { IfOk result (λ entries. entries ≡ []) }
    {
        let round = Builder::new(alloc)?;
        Ok(Entries {
            origins: Vec::new(alloc),
            senders: HashSet::new(alloc),
            round,
        })
    }

    /// How many items there are.
    pub fn count(&self) -> usize
        ensures { result ≡ length self.now }
    {
        self.round.count()
    }

    /// Item `k`, which is below the count, and where it came from.
    pub fn entry(&self, k: usize) -> Entry
        requires { k < length self.now }
        ensures { slice_get self.now k ≡ Some result }
    {
        Entry {
            origin: self.origins[k],
            item: self.round.item(k),
        }
    }

    /// A copy of the items in their order, each with where it came from.
    ///
    /// # Errors
    /// `NoMemory`: no copy is made.
    pub fn to_vec(&self) -> Result<Vec<Entry>, NoMemory>
        ensures { IfOk result (λ entries. entries.items ≡ self.now) }
    {
        let mut entries = Vec::with_capacity(self.round.alloc(), self.count())?;
        for k in 0..self.count() {
            entries.push_reserved(self.entry(k));
        }
        Ok(entries)
    }

    /// Whether an item of the aggregator is there: one look into a set, however many items there are.
    pub fn has_from(&self, aggregator: u32) -> bool
        ensures { result ≡ has_from aggregator self.now }
    {
        self.senders.contains(&aggregator)
    }

    /// The tree of the items, or none if there is no item.
    pub fn root(&self) -> Option<Node>
        ensures { result ≡ root_of C.image (items_of self.now) }
    {
        self.round.root()
    }

    /// The imprint of the items' tree, or the zero imprint if there is no item.
    pub fn candidate(&self) -> Imprint
        ensures { result ≡ candidate_of C.image self.now }
    {
        match self.round.root() {
            Some(root) => root.imprint,
            None => Imprint::ZERO,
        }
    }

    /// The links from item `k`, which is below the count, up to the root, the lowest first, with the corrections that
    /// meet the tree's levels.
    ///
    /// # Errors
    /// `NoMemory`: all is as it was.
    pub fn path(&self, k: usize) -> Result<ItemPath, NoMemory>
        requires { k < length self.now }
        ensures links { IfOk result (λ links. links ≡ chain_of C.image (items_of self.now) k) }
        ensures climbs { IfOk result (λ links.
            Climbs C.image (as_node (item_at (items_of self.now) k)) (plain_links links) (tree_of C.image (items_of self.now))) }
        ensures way { IfOk result (λ links. sides_from_top links ≡ item_way (items_of self.now) k) }
        ensures few { IfOk result (λ links. length links ≤ 17) }
        ensures name { IfOk result (λ links. IfSome (item_at (items_of self.now) k).name IsName) }
    {
        self.round.path(k)
    }

    /// The paths of all items, of which there is one at least. A contract sees the items without their origins.
    ///
    /// # Errors
    /// `NoMemory`: all is as it was.
    pub fn paths(&self) -> Result<RoundPaths<'_, C>, NoMemory>
        requires { 0 < length self.now }
        ensures { IfOk result (λ paths. paths ≡ items_of self.now) }
    {
        self.round.paths()
    }

    /// Adds an item of a level to 239, with a name to 238, behind the others, and says which it is, the first one being item 0.
    ///
    /// # Errors
    /// `Full` exactly where there are 65,536 items, or `NoMemory`: all is as it was.
    pub fn add(&mut self, entry: Entry) -> Result<usize, Refused<AddRefusal>>
        requires { leaf_level entry.item ≤ highest_item }
        ensures place { IfOk result (λ k. k ≡ length self.old) }
        ensures added { IfOk result (λ k. self.new ≡ self.old ++ entry ∷ []) }
        ensures full { (result ≡ Err (Refused.Fault AddRefusal.Full)) ↔ (length self.old ≡ most_items) }
        ensures unchanged { OnErr result (self.new ≡ self.old) }
    {
        let place = self.count();
        if place == MOST_ITEMS {
            return Err(Refused::Fault(AddRefusal::Full));
        }
        reserve_one(&mut self.origins)?;
        make_room(&mut self.senders, &entry.origin)?;
        match self.round.add(entry.item) {
            Ok(_) => {
                note(&mut self.senders, entry.origin);
                self.origins.push_reserved(entry.origin);
                Ok(place)
            }
            Err(refusal) => Err(refusal),
        }
    }
}
