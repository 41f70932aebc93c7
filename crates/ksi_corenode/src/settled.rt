//! Which seconds are held or sealed: those from the start on that are held, up to the first that is not, and the next one.
ghost use Rattle.std.specs.Prelude.{◌≡◌, ◌↔◌, ◌+◌, ◌≤◌, ◌<◌, ℕ, false, IfSome, IsNone, IsSome};
ghost use Rattle.ksi_calendar.specs.Covered.{first_missing};
ghost use Rattle.ksi_corenode.specs.Settled.{IsSettled};
ghost use Rattle.ksi_corenode.specs.Next.{IsNext, held_or_sealed};
ghost use Rattle.ksi_corenode.specs.CoreState.{state_of, held_by};

use crate::node::Core;
use crate::seconds::Seconds;
use ksi_calendar::laws::one_first_missing;
use ksi_imprint::Compress;
use ksi_split::Steps;
use std::marker::Brand;
use std::sync::ledger::{Blank, Ledger};

impl<C: Compress> Core<C> {
    /// How many seconds from the start on are held, up to the first that is not.
    pub fn settled(&self) -> u64
        ensures { IsSettled (held_by self.now) self.now.start result }
    {
        settled_from::<C, Brand>(self.seconds(), Blank::new(1))
    }

    /// The first second from the start to `p` that nothing is held for, none where all are held. It takes one step at most,
    /// a look at how many seconds are settled.
    pub fn first_not_held<L: Ledger>(&self, p: u64, steps: &mut Steps<L>) -> Option<u64>
        ensures first { result ≡ first_missing (held_by self.now) self.now.start p }
        ensures none { IsNone result ↔ ((t : ℕ) → self.now.start ≤ t → t ≤ p → IsSome (held_by self.now t)) }
        ensures most { steps.new ≤ steps.old + 1 }
        ensures least { self.now.start ≤ p → steps.old < steps.new }
    {
        one_first_missing();
        let start = self.start();
        if p < start {
            return None;
        }
        let settled = self.seconds().settled(steps);
        if p - start < settled {
            None
        } else {
            Some(start + settled)
        }
    }

    /// The first second, from this one on, for which something is held or sealed, or none.
    pub fn next_second(&self, from: u64) -> Option<u64>
        ensures next { IfSome result (IsNext (λ t. held_or_sealed (state_of self.now t)) from) }
        ensures none { IsNone result ↔ ((t : ℕ) → from ≤ t → held_or_sealed (state_of self.now t) ≡ false) }
    {
        self.seconds().next_from(from)
    }
}

fn settled_from<C: Compress, L: Ledger>(seconds: &Seconds<C>, blank: Blank) -> u64
    requires name { blank.name ≡ L.name }
    requires parts { blank.parts ≡ L.parts }
    requires one { blank.parts ≡ 1 }
    ensures { IsSettled (held_by seconds.now) seconds.now.start result }
{
    let mut steps = Steps::<L>::open(blank);
    seconds.settled(&mut steps)
}
