ghost use Rattle.std.specs.Prelude.{◌≡◌, ◌<◌, ◌≤◌, [], ◌∷◌, ◌++◌, length};
ghost use Rattle.ksi_beside.specs.Walks.{bit_of};

use ksi_split::laws::{one_split, one_way};
use ksi_split::{Side, Way, way};
use std::marker::Model;

/// A place in a tree: the sides that lead to it from the top, at most 63. A contract sees their list.
#[derive(Drop)]
pub struct Place {
    // a bit for each side, that of the lowest one last: set where it is the right one
    bits: u64,
    depth: u32,
}

impl Model for Place {
    ghost use Rattle.std.specs.Prelude.{List, ◌<◌, ◌≤◌, ◌^◌};
    ghost use Rattle.ksi_split.specs.declared.side.Side.{Side};
    ghost use Rattle.ksi_split.specs.Ways.{way_of};

    ghost Value = { List Side };

    ghost view = { λ place. way_of place.bits (2 ^ place.depth) };

    ghost invariant = { λ place. (place.bits < 2 ^ place.depth) × (place.depth ≤ 63) };
}

impl Place {
    /// The top.
    pub fn top() -> Self
        ensures { result ≡ [] }
    {
        one_way();
        Place { bits: 0, depth: 0 }
    }

    /// How many sides lead to it.
    pub fn depth(&self) -> u32
        ensures depth { result ≡ length self.now }
        ensures few { length self.now ≤ 63 }
    {
        one_way();
        one_split();
        self.depth
    }

    /// The place on a side below it.
    pub fn below(&self, side: Side) -> Self
        requires { length self.now < 63 }
        ensures { result ≡ self.now ++ side ∷ [] }
    {
        one_way();
        one_split();
        Place {
            bits: 2 * self.bits + bit_of(side),
            depth: self.depth + 1,
        }
    }

    /// The sides that lead to it.
    pub fn way(&self) -> Way
        ensures { result ≡ self.now }
    {
        way(self.bits, 1 << self.depth)
    }
}

fn bit_of(side: Side) -> u64
    ensures { result ≡ bit_of side }
{
    match side {
        Side::Left => 0,
        Side::Right => 1,
    }
}
