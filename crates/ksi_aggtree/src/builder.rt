ghost use Rattle.std.specs.Prelude.{◌≡◌, ◌++◌, ◌∷◌, [], ◌<◌, ◌≤◌, ◌+◌, ◌↔◌, length, OnErr, IfOk, IsOk, IfSome};
ghost use Rattle.ksi_aggtree.specs.Names.{IsName};
ghost use Rattle.ksi_aggtree.specs.Climbing.{Climbs};
ghost use Rattle.ksi_aggtree.specs.Owned.{plain_links};
ghost use Rattle.ksi_aggtree.specs.Rounds.{most_items, highest_item, leaf_level, as_node, item_at, tree_of, root_of};
ghost use Rattle.ksi_aggtree.specs.Nodes.{node_of};
ghost use Rattle.ksi_aggtree.specs.Paths.{chain_of, item_way, name_links, sides_from_top};

use crate::chains::Node;
use crate::item::{Item, MOST_ITEMS};
use crate::item_path::ItemPath;
use crate::join::AggregationJoin;
use crate::laws::{no_cap, one_chain};
use crate::over::below;
use crate::paths::RoundPaths;
use crate::reached::{Reached, reach};
use crate::room::reserve_one;
use ksi_imprint::{Compress, Imprint, NoMemory, Refused};
use ksi_split::{Rows, Side, Steps};
use std::alloc::Global;
use std::marker::{Brand, Model};
use std::sync::ledger::{Blank, Ledger};

/// Why an item is not added.
#[derive(Clone, Copy, PartialEq, Eq, Debug)]
pub enum AddRefusal {
    /// The round has 65,536 items.
    Full,
}

/// A round: items whose leaves have levels to 239, at most 65,536 of them, and their tree. A contract sees their list.
#[derive(Drop)]
pub struct Builder<C: Compress> {
    items: Vec<Item>,
    rows: Rows<Node, AggregationJoin<C>>,
}

impl<C: Compress> Model for Builder<C> {
    ghost use Rattle.std.specs.Prelude.{List, ◌≡◌};
    ghost use Rattle.ksi_aggtree.specs.declared.item.Item as item;
    ghost use Rattle.ksi_aggtree.specs.Rounds.{IsRound, AreLeaves};

    ghost Value = { List item.Item };

    ghost view = { λ b. b.items.items };

    ghost invariant = { λ b. AreLeaves C.image b.rows b.items.items × IsRound b.items.items };
}

impl<C: Compress> Builder<C> {
    /// A round without items. It takes no memory, and never answers `NoMemory`.
    pub fn new(alloc: Global) -> Result<Self, NoMemory>
        ensures empty { IfOk result (λ round. round ≡ []) }
        ensures memory { IsOk result }
    {
        let none = Item::new(Imprint::ZERO, 0);
        let rows = Rows::new(alloc, 0, none.leaf::<C>())?;
        Ok(Builder {
            items: Vec::new(alloc),
            rows,
        })
    }

    /// What the memory is taken from.
    pub(crate) fn alloc(&self) -> Global {
        self.rows.alloc()
    }

    /// How many items the round has.
    pub fn count(&self) -> usize
        ensures count { result ≡ length self.now }
        ensures few { length self.now ≤ most_items }
    {
        self.items.len()
    }

    /// Item `k`, which is below the count.
    pub fn item(&self, k: usize) -> Item
        requires { k < length self.now }
        ensures item { result ≡ item_at self.now k }
        ensures low { leaf_level result ≤ highest_item }
    {
        self.items[k]
    }

    /// The tree of the items, or none if there is no item.
    pub fn root(&self) -> Option<Node>
        ensures { result ≡ root_of C.image self.now }
    {
        let count = self.rows.count();
        if count == 0 {
            None
        } else {
            no_cap();
            Some(self.rows.root(count - 1))
        }
    }

    /// The node of the tree that sides from the top lead to, none where they lead to no node.
    pub fn node(&self, sides: &[Side]) -> Option<Node>
        ensures { result ≡ node_of C.image self.now sides.now }
    {
        let count = self.rows.count();
        if count == 0 {
            None
        } else {
            no_cap();
            match reach(0, count as usize, sides)? {
                Reached::Items(_, _) => self.rows.node(count - 1, sides),
                Reached::Below(k) => below(&self.items[k]),
            }
        }
    }

    /// The links from item `k`, which is below the count, up to the root, the lowest first, with the corrections that
    /// meet the tree's levels.
    ///
    /// # Errors
    /// `NoMemory`: all is as it was.
    pub fn path(&self, k: usize) -> Result<ItemPath, NoMemory>
        requires { k < length self.now }
        ensures links { IfOk result (λ links. links ≡ chain_of C.image self.now k) }
        ensures climbs { IfOk result (λ links.
            Climbs C.image (as_node (item_at self.now k)) (plain_links links) (tree_of C.image self.now)) }
        ensures way { IfOk result (λ links. sides_from_top links ≡ item_way self.now k) }
        ensures few { IfOk result (λ links. length links ≤ 17) }
        ensures name { IfOk result (λ links. IfSome (item_at self.now k).name IsName) }
    {
        path_from::<C, Brand>(self, k, Blank::new(1))
    }

    /// The same, with its steps, which are one for the item and one for each link but that of its name at least, and at
    /// most 32.
    ///
    /// # Errors
    /// `NoMemory`: all is as it was, but for the steps that were taken.
    pub fn path_counted<L: Ledger>(
        &self,
        k: usize,
        steps: &mut Steps<L>,
    ) -> Result<ItemPath, NoMemory>
        requires { k < length self.now }
        ensures links { IfOk result (λ links. links ≡ chain_of C.image self.now k) }
        ensures climbs { IfOk result (λ links.
            Climbs C.image (as_node (item_at self.now k)) (plain_links links) (tree_of C.image self.now)) }
        ensures way { IfOk result (λ links. sides_from_top links ≡ item_way self.now k) }
        ensures few { IfOk result (λ links. length links ≤ 17) }
        ensures name { IfOk result (λ links. IfSome (item_at self.now k).name IsName) }
        ensures most { steps.new ≤ steps.old + 32 }
        ensures least { IfOk result (λ links.
            steps.old + length links < steps.new + length (name_links (item_at self.now k).name)) }
    {
        no_cap();
        one_chain();
        let last = self.rows.count() - 1;
        let others = self.rows.path_counted(k as u64, last, steps)?;
        let leaf = self.rows.leaf_counted(k as u64, steps);
        ItemPath::beside(self.rows.alloc(), &self.items[k].name, leaf.level, &others)
    }

    /// The paths of all items, of which there is one at least.
    ///
    /// # Errors
    /// `NoMemory`: all is as it was.
    pub fn paths(&self) -> Result<RoundPaths<'_, C>, NoMemory>
        requires { 0 < length self.now }
        ensures { IfOk result (λ paths. paths ≡ self.now) }
    {
        let paths = self.rows.paths(self.rows.count() - 1)?;
        Ok(RoundPaths {
            items: self.items.as_slice(),
            paths,
        })
    }

    /// Adds an item of a level to 239, with a name to 238, behind the others, and says which it is, the first one being item 0.
    ///
    /// # Errors
    /// `Full` exactly where there are 65,536 items, or `NoMemory`: all is as it was.
    pub fn add(&mut self, item: Item) -> Result<usize, Refused<AddRefusal>>
        requires { leaf_level item ≤ highest_item }
        ensures place { IfOk result (λ k. k ≡ length self.old) }
        ensures added { IfOk result (λ k. self.new ≡ self.old ++ item ∷ []) }
        ensures full { (result ≡ Err (Refused.Fault AddRefusal.Full)) ↔ (length self.old ≡ most_items) }
        ensures unchanged { OnErr result (self.new ≡ self.old) }
    {
        let place = self.items.len();
        if place >= MOST_ITEMS {
            return Err(Refused::Fault(AddRefusal::Full));
        }
        reserve_one(&mut self.items)?;
        self.rows.append(item.leaf::<C>())?;
        self.items.push_reserved(item);
        Ok(place)
    }
}

fn path_from<C: Compress, L: Ledger>(
    round: &Builder<C>,
    k: usize,
    blank: Blank,
) -> Result<ItemPath, NoMemory>
    requires name { blank.name ≡ L.name }
    requires parts { blank.parts ≡ L.parts }
    requires one { blank.parts ≡ 1 }
    requires there { k < length round.now }
    ensures links { IfOk result (λ links. links ≡ chain_of C.image round.now k) }
    ensures climbs { IfOk result (λ links.
        Climbs C.image (as_node (item_at round.now k)) (plain_links links) (tree_of C.image round.now)) }
    ensures way { IfOk result (λ links. sides_from_top links ≡ item_way round.now k) }
    ensures few { IfOk result (λ links. length links ≤ 17) }
    ensures name { IfOk result (λ links. IfSome (item_at round.now k).name IsName) }
{
    let mut steps = Steps::<L>::open(blank);
    round.path_counted(k, &mut steps)
}
