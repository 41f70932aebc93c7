ghost use Rattle.std.specs.Prelude.{◌≡◌, ◌≤◌, ◌<◌, ◌^◌};

use crate::imprints::Imprints;
use ksi_imprint::Imprint;
use std::marker::Model;

/// What shows that the calendar of the seconds from 0 to `p1` is the beginning of that of the seconds from 0 to `p2`, which are
/// both below 2^63. A contract sees both and the list.
#[derive(Drop)]
pub struct Front {
    p1: u64,
    p2: u64,
    list: Imprints,
}

impl Model for Front {
    ghost use Rattle.ksi_consistency.specs.Elements.{Contents, IsBounded};

    ghost Value = { Contents };

    ghost view = { λ front. record { p1 = front.p1; p2 = front.p2; list = front.list } };

    ghost invariant = { λ front. IsBounded front.p1 front.p2 };
}

impl Front {
    /// The front of these, which are not copied.
    pub fn new(p1: u64, p2: u64, list: Imprints) -> Self
        requires within { p1 ≤ p2 }
        requires early { p2 < 2 ^ 63 }
        ensures { result ≡ record { p1 = p1; p2 = p2; list = list } }
    {
        Front { p1, p2, list }
    }

    pub fn p1(&self) -> u64
        ensures { result ≡ self.now.p1 }
    {
        self.p1
    }

    pub fn p2(&self) -> u64
        ensures value { result ≡ self.now.p2 }
        ensures within { self.now.p1 ≤ self.now.p2 }
        ensures early { self.now.p2 < 2 ^ 63 }
    {
        self.p2
    }

    /// The imprints, which are not copied.
    pub fn list(&self) -> &[Imprint]
        ensures { result.now ≡ self.now.list }
    {
        self.list.as_slice()
    }
}
