ghost use Rattle.std.specs.Prelude.{◌≡◌, ◌<◌, ◌+◌, ◌∷◌, ◌++◌, [], length, take};

use ksi_imprint::Imprint;
use std::marker::Model;

/// The first 65 imprints of a list, in an array.
#[derive(Drop)]
pub(crate) struct Few {
    imprints: [Imprint; 65],
    count: usize,
}

impl Model for Few {
    ghost use Rattle.std.specs.Prelude.{◌≤◌, ℕ, List, take};

    ghost Value = { List (List ℕ) };

    ghost view = { λ few. take few.count few.imprints };

    ghost invariant = { λ few. few.count ≤ 65 };
}

impl Few {
    pub(crate) fn new() -> Self
        ensures { result ≡ [] }
    {
        Few {
            imprints: [Imprint::ZERO; 65],
            count: 0,
        }
    }

    pub(crate) fn as_slice(&self) -> &[Imprint]
        ensures value { result.now ≡ self.now }
        ensures few { take 65 self.now ≡ self.now }
    {
        &self.imprints[..self.count]
    }

    /// Adds an imprint, unless there are 65.
    pub(crate) fn push(&mut self, imprint: Imprint)
        ensures { self.new ≡ take 65 (self.old ++ imprint ∷ []) }
    {
        let count = self.count;
        if count < 65 {
            append_at(&mut self.imprints, count, imprint);
            self.count = count + 1;
        }
    }
}

/// Puts an item after the first ones.
fn append_at(items: &mut [Imprint], count: usize, item: Imprint)
    requires { count < length items.old }
    ensures { take (count + 1) items.new ≡ take count items.old ++ item ∷ [] }
{
    items[count] = item;
}
