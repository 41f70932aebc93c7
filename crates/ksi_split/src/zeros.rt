ghost use Rattle.std.specs.Prelude.{◌≡◌, ◌<◌, ◌≤◌, ◌+◌, ◌^◌, ℕ, slice_index_or, IfOk, IsOk, length};
ghost use Rattle.ksi_split.specs.Upward.{halves};
ghost use Rattle.ksi_split.specs.Stored.{zero_part};

use crate::NoMemory;
use crate::joins::Joins;
use crate::levels::levels;
use crate::row::Row;
use crate::steps::Steps;
use std::alloc::Global;
use std::marker::PhantomData;
use std::sync::ledger::Ledger;

/// The leaves before the start, which are all alike, and their complete parts: one for each level that the start has.
#[derive(Drop)]
pub(crate) struct Zeros<N: Copy, J: Joins<N>> {
    pub(crate) start: u64,
    leaf: N,
    parts: Row<N>,
    joins: PhantomData<J>,
    ghost whole: { (k : ℕ) → k < length parts.parts → slice_index_or parts.parts k leaf ≡ zero_part J.joined leaf k },
    ghost enough: { start < 2 ^ length parts.parts },
    ghost least: { (k : ℕ) → start < 2 ^ k → length parts.parts ≤ k },
}

impl<N: Copy, J: Joins<N>> Zeros<N, J> {
    #[tactic(auto, unfolding(crate::specs::Stored::zero_part))]
    pub(crate) fn new(alloc: Global, start: u64, leaf: N) -> Result<Self, NoMemory>
        ensures start { IfOk result (λ zeros. zeros.start ≡ start) }
        ensures leaf { IfOk result (λ zeros. zeros.leaf ≡ leaf) }
        ensures sure { start ≡ 0 → IsOk result }
    {
        let mut parts = Row::new(alloc);
        let mut part = leaf;
        for level in 0..levels(start) {
            if level > 0 {
                part = J::join(&part, &part);
            }
            parts.grow(1)?;
            parts.put(part);
        }
        Ok(Zeros {
            start,
            leaf,
            parts,
            joins: PhantomData,
        })
    }

    /// The part of a level, of which one at least ends before the start.
    #[tactic(auto, using(crate::proofs::Powers::levels_below))]
    pub(crate) fn part<L: Ledger>(&self, level: usize, steps: &mut Steps<L>) -> N
        requires { 0 < halves level self.now.start }
        ensures part { result ≡ zero_part J.joined self.now.leaf level }
        ensures cost { steps.new ≡ steps.old + 1 }
    {
        self.parts.read(level, steps)
    }
}
