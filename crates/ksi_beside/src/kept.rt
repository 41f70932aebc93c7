ghost use Rattle.std.specs.Prelude.{ℕ, List, ◌≡◌, ◌<◌, Option, length, option_map, IfSome};
ghost use Rattle.ksi_split.specs.declared.side.Side.{Side};
ghost use Rattle.ksi_aggtree.specs.Nodes.{node_text};

use crate::place::Place;
use ksi_aggtree::NodeParts;

/// A kept tree, whose nodes are reached by the sides from its top.
pub trait KeptTree {
    /// The string that the node at the sides is made of, where it is a join.
    ghost text: { Self → List Side → Option (List ℕ) };

    /// What the node at a place is joined of, where it is a join. None is deeper than 62 sides.
    fn parts(&self, place: &Place) -> Option<NodeParts>
        ensures text { option_map node_text result ≡ text self.now place.now }
        ensures room { IfSome result (λ parts. length place.now < 63) };
}
