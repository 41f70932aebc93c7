//! The tree over lent items.
ghost use Rattle.std.specs.Prelude.{◌≡◌, ◌<◌, ◌≤◌, ◌↔◌, ◌++◌, ◌∷◌, [], ℕ, Some, None, length, option_map, IfOk, IfSome};
ghost use Rattle.ksi_split.specs.Ways.{LeadsTo};
ghost use Rattle.ksi_aggtree.specs.Climbing.{Climbs};
ghost use Rattle.ksi_aggtree.specs.Owned.{plain_links};
ghost use Rattle.ksi_aggtree.specs.Names.{IsName};
ghost use Rattle.ksi_aggtree.specs.Paths.{chain_of, item_way, sides_from_top};
ghost use Rattle.ksi_aggtree.specs.Rounds.{most_items, highest_item, leaf_level, item_at, as_node, IsRound, some_items, tree_from, tree_of};
ghost use Rattle.ksi_aggtree.specs.Nodes.{node_of, text_of, node_text, LeadsBelow};

use crate::chains::Node;
use crate::item::Item;
use crate::item_path::ItemPath;
use crate::laws::one_part;
use crate::over::{node_with, parts_with, root_with};
use crate::parts::NodeParts;
use crate::rebuilt::rebuilt;
use ksi_imprint::{Compress, NoMemory};
use ksi_split::Side;
use std::alloc::Global;
use std::marker::{Model, PhantomData};

/// The tree over items that are lent, of which there is one at least. But for a path it takes no memory: each node is
/// computed from the leaves below it, by one join fewer than these are. A contract sees the list of items.
#[derive(Drop)]
pub struct Tree<'a, C: Compress> {
    others: &'a [Item],
    last: &'a Item,
    compress: PhantomData<C>,
}

impl<'a, C: Compress> Model for Tree<'a, C> {
    ghost use Rattle.std.specs.Prelude.{List, [], ◌∷◌, ◌++◌};
    ghost use Rattle.ksi_aggtree.specs.declared.item.Item as item;
    ghost use Rattle.ksi_aggtree.specs.Within.{IsLent};

    ghost Value = { List item.Item };

    ghost view = { λ t. t.others.now ++ t.last.now ∷ [] };

    ghost invariant = { λ t. IsLent t.others.now t.last.now };
}

impl<'a, C: Compress> Tree<'a, C> {
    /// The tree over the items of a round, or none if there is no item.
    pub fn over(items: &'a [Item]) -> Option<Self>
        requires { IsRound items.now }
        ensures { result ≡ some_items items.now }
    {
        let (last, others) = items.split_last()?;
        Some(Self::behind(others, last))
    }

    /// The tree over a last item and the others before it.
    fn behind(others: &'a [Item], last: &'a Item) -> Self
        requires few { length others.now < most_items }
        requires low { (k : ℕ) → leaf_level (item_at others.now k) ≤ highest_item }
        requires last { leaf_level last.now ≤ highest_item }
        ensures { result ≡ others.now ++ last.now ∷ [] }
    {
        Tree {
            others,
            last,
            compress: PhantomData,
        }
    }

    /// The node at the top.
    pub fn root(&self) -> Node
        ensures { result ≡ tree_of C.image self.now }
    {
        root_with::<C>(self.others, self.last)
    }

    /// The node that sides from the top lead to: the tree of a part of the items, or below the leaf of a named item the
    /// item itself; none exactly where they lead to neither.
    pub fn node(&self, sides: &[Side]) -> Option<Node>
        ensures node { result ≡ node_of C.image self.now sides.now }
        ensures some { (first count : ℕ) → LeadsTo (length self.now) sides.now first count →
            result ≡ Some (tree_from C.image self.now first count) }
        ensures item { (k : ℕ) → LeadsBelow self.now sides.now k → result ≡ Some (as_node (item_at self.now k)) }
        ensures none { (result ≡ None) ↔
            (¬ ((first : ℕ) × (count : ℕ) × LeadsTo (length self.now) sides.now first count) ×
            ¬ ((k : ℕ) × LeadsBelow self.now sides.now k)) }
    {
        one_part();
        node_with::<C>(self.others, self.last, sides)
    }

    /// What the node that sides from the top lead to is joined of: both parts of two items or more, or a named item and its
    /// metadata; none where they lead to no join.
    pub fn parts(&self, sides: &[Side]) -> Option<NodeParts>
        ensures { option_map node_text result ≡ text_of C.image self.now sides.now }
    {
        parts_with::<C>(self.others, self.last, sides)
    }

    /// The links from item `k`, which is below the count, up to the root, as [`Builder::path`](crate::Builder::path) gives
    /// them. All nodes are computed for it and let go again.
    ///
    /// # Errors
    /// `NoMemory`: all is as it was.
    pub fn path(&self, alloc: Global, k: usize) -> Result<ItemPath, NoMemory>
        requires { k < length self.now }
        ensures links { IfOk result (λ links. links ≡ chain_of C.image self.now k) }
        ensures climbs { IfOk result (λ links.
            Climbs C.image (as_node (item_at self.now k)) (plain_links links) (tree_of C.image self.now)) }
        ensures way { IfOk result (λ links. sides_from_top links ≡ item_way self.now k) }
        ensures few { IfOk result (λ links. length links ≤ 17) }
        ensures name { IfOk result (λ links. IfSome (item_at self.now k).name IsName) }
    {
        let round = rebuilt::<C>(alloc, self.others, self.last)?;
        round.path(k)
    }
}
