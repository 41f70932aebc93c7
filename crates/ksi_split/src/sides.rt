ghost use Rattle.std.specs.Prelude.{◌≡◌, ◌+◌, ◌<◌, ◌≤◌, [], ◌∷◌, ◌++◌, length};

use crate::side::Side;
use std::marker::Model;

/// The sides from the top of a tree to a leaf, at most 63. A contract sees a way as the list of its sides.
#[derive(Clone, Copy, PartialEq, Eq)]
pub struct Way {
    // behind the first `count` all are left, so that equal ways are equal values
    sides: [Side; 63],
    count: usize,
}

impl Model for Way {
    ghost use Rattle.std.specs.Prelude.{List, take};
    ghost use Rattle.ksi_split.specs.declared.side.Side.{Side};

    ghost Value = { List Side };

    ghost use Rattle.ksi_split.specs.Layout.{sides_in, IsFilled, way_with, way_with-sides_in};

    ghost view = { sides_in };

    ghost invariant = { IsFilled };

    ghost inverse = { way_with };

    ghost inverse_ok = { way_with-sides_in };
}

impl Way {
    /// The way without sides, to the only leaf of one.
    pub(crate) fn empty() -> Way
        ensures { result ≡ [] }
    {
        Way {
            sides: [Side::Left; 63],
            count: 0,
        }
    }

    /// The sides, from the top.
    pub fn as_slice(&self) -> &[Side]
        ensures sides { result.now ≡ self.now }
        ensures few { length self.now ≤ 63 }
    {
        &self.sides[..self.count]
    }

    /// One side more, further down.
    pub(crate) fn push(&mut self, side: Side)
        requires { length self.old < 63 }
        ensures { self.new ≡ self.old ++ side ∷ [] }
    {
        self.sides[self.count] = side;
        self.count += 1;
    }
}
