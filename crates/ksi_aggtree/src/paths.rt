ghost use Rattle.std.specs.Prelude.{◌≡◌, ◌<◌, ◌≤◌, ◌+◌, length, IfOk, IfSome};
ghost use Rattle.ksi_aggtree.specs.Names.{IsName};
ghost use Rattle.ksi_aggtree.specs.Climbing.{Climbs};
ghost use Rattle.ksi_aggtree.specs.Owned.{plain_links};
ghost use Rattle.ksi_aggtree.specs.Paths.{chain_of, item_way, sides_from_top};
ghost use Rattle.ksi_aggtree.specs.Rounds.{item_at, as_node, tree_of};

use crate::chains::Node;
use crate::item::Item;
use crate::item_path::ItemPath;
use crate::join::AggregationJoin;
use crate::laws::{no_cap, one_chain};
use ksi_imprint::{Compress, NoMemory};
use ksi_split::Paths;
use std::marker::Model;

/// The paths of a round that has items. What they share is computed once, so a path costs reads alone. A contract sees
/// the list of items.
#[derive(Drop)]
pub struct RoundPaths<'a, C: Compress> {
    pub(crate) items: &'a [Item],
    pub(crate) paths: Paths<'a, Node, AggregationJoin<C>>,
}

impl<'a, C: Compress> Model for RoundPaths<'a, C> {
    ghost use Rattle.std.specs.Prelude.{List, ◌≡◌, ◌+◌, length};
    ghost use Rattle.ksi_aggtree.specs.declared.item.Item as item;
    ghost use Rattle.ksi_aggtree.specs.Rounds.{IsRound, AreLeaves};

    ghost Value = { List item.Item };

    ghost view = { λ p. p.items.now };

    ghost invariant = { λ p. AreLeaves C.image p.paths.leaves p.items.now × IsRound p.items.now × (p.paths.last + 1 ≡ length p.items.now) };
}

impl<'a, C: Compress> RoundPaths<'a, C> {
    /// The links from item `k`, as `Builder::path` gives them.
    ///
    /// # Errors
    /// `NoMemory`: all is as it was.
    pub fn path(&self, k: usize) -> Result<ItemPath, NoMemory>
        requires { k < length self.now }
        ensures links { IfOk result (λ links. links ≡ chain_of C.image self.now k) }
        ensures climbs { IfOk result (λ links.
            Climbs C.image (as_node (item_at self.now k)) (plain_links links) (tree_of C.image self.now)) }
        ensures way { IfOk result (λ links. sides_from_top links ≡ item_way self.now k) }
        ensures few { IfOk result (λ links. length links ≤ 17) }
        ensures name { IfOk result (λ links. IfSome (item_at self.now k).name IsName) }
    {
        no_cap();
        one_chain();
        let items = self.items;
        let item = &items[k];
        let others = self.paths.path(k as u64)?;
        ItemPath::beside(self.paths.alloc(), &item.name, item.leaf_level(), &others)
    }
}
