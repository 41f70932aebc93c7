//! How many seconds a core sealed and holds.
ghost use Rattle.std.specs.Prelude.{◌≡◌, ℕ, ◌≤◌, ◌<◌, ◌+◌, ◌^◌, false, is_some, if◌then◌else◌, length};
ghost use Rattle.ksi_corenode.specs.Counted.{count_below};
ghost use Rattle.ksi_corenode.specs.Next.{held_or_sealed};
ghost use Rattle.ksi_corenode.specs.CoreState.{state_of, held_by};

use crate::node::Core;
use ksi_imprint::Compress;

/// The first second that is too late.
const LATE: u64 = 9_223_372_036_854_775_808;

/// How many seconds below 2^63 are sealed, and for how many something is held.
#[derive(Clone, Copy, PartialEq, Eq, Debug)]
pub struct SecondCounts {
    pub sealed: u64,
    pub held: u64,
}

impl<C: Compress> Core<C> {
    /// How many seconds below 2^63 are sealed, and for how many of them something is held.
    pub fn counts(&self) -> SecondCounts
        ensures sealed { result.sealed ≡ count_below (λ t. is_some (state_of self.now t).sealed) (2 ^ 63) }
        ensures held { result.held ≡ count_below (λ t. is_some (held_by self.now t)) (2 ^ 63) }
    {
        let mut counts = SecondCounts { sealed: 0, held: 0 };
        let mut second = self.next_before(0);
        'counting: while second < LATE {
            counts = self.counted(second, counts);
            second = self.next_before(second + 1);
        }
        counts
    }

    /// How many items of a second are open: sealing it now would store this many.
    pub fn count_open(&self, second: u64) -> usize
        ensures { result ≡ length (state_of self.now second).open_items }
    {
        self.seconds().count_open(second)
    }

    /// The first second from this one on that something is held or sealed for, or 2^63 if there is none below.
    fn next_before(&self, from: u64) -> u64
        requires { from ≤ 2 ^ 63 }
        ensures behind { from ≤ result }
        ensures most { result ≤ 2 ^ 63 }
        ensures before { (t : ℕ) → from ≤ t → t < result → held_or_sealed (state_of self.now t) ≡ false }
    {
        match self.next_second(from) {
            Some(second) => second.min(LATE),
            None => LATE,
        }
    }

    /// The counts with a second.
    fn counted(&self, second: u64, counts: SecondCounts) -> SecondCounts
        requires sealed { counts.sealed ≤ second }
        requires held { counts.held ≤ second }
        requires below { second < 2 ^ 63 }
        ensures sealed { result.sealed ≡ counts.sealed + (if is_some (state_of self.now second).sealed then 1 else 0) }
        ensures held { result.held ≡ counts.held + (if is_some (held_by self.now second) then 1 else 0) }
    {
        SecondCounts {
            sealed: counts.sealed + u64::from(self.seconds().is_sealed(second)),
            held: counts.held + u64::from(self.held(second).is_some()),
        }
    }
}
