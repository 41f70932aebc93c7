ghost use Rattle.std.specs.Prelude.{◌≡◌, ◌<◌, ◌≤◌, ◌+◌, ◌++◌, ◌∷◌, [], length, slice_index_or, OnOk};

use crate::NoMemory;
use crate::steps::Steps;
use std::alloc::Global;
use std::marker::Model;
use std::sync::ledger::Ledger;

/// Parts of one tree that are kept. The only way to read one is `read`, which takes a step.
#[derive(Drop)]
pub(crate) struct Row<N: Copy> {
    parts: Vec<N>,
}

impl<N: Copy> Model for Row<N> {
    ghost use Rattle.std.specs.Prelude.{◌-◌, vec_len, vec_capacity};
    ghost use Rattle.ksi_split.specs.Stored.{Stored};

    ghost Value = { Stored N };

    ghost view = { λ row. record { parts = row.parts.items; room = vec_capacity row.parts - vec_len row.parts } };
}

impl<N: Copy> Row<N> {
    /// No parts yet.
    pub(crate) fn new(alloc: Global) -> Self
        ensures { result.parts ≡ [] }
    {
        Row {
            parts: Vec::new(alloc),
        }
    }

    pub(crate) fn len(&self) -> usize
        ensures { result ≡ length self.now.parts }
    {
        self.parts.len()
    }

    /// A part.
    pub(crate) fn read<L: Ledger>(&self, at: usize, steps: &mut Steps<L>) -> N
        requires { at < length self.now.parts }
        ensures part { (d : N) → result ≡ slice_index_or self.now.parts at d }
        ensures cost { steps.new ≡ steps.old + 1 }
    {
        steps.tick();
        self.parts[at]
    }

    /// Makes room for this many parts more, and for no other where they are the first: most rows of small trees have one.
    pub(crate) fn grow(&mut self, more: usize) -> Result<(), NoMemory>
        ensures parts { self.new.parts ≡ self.old.parts }
        ensures room { OnOk result (more ≤ self.new.room) }
    {
        if self.parts.is_empty() {
            self.parts.reserve_exact(more)
        } else {
            self.parts.reserve(more)
        }
    }

    /// Puts a part behind the others, where there is room.
    pub(crate) fn put(&mut self, part: N)
        requires { 0 < self.old.room }
        ensures parts { self.new.parts ≡ self.old.parts ++ part ∷ [] }
        ensures room { self.new.room + 1 ≡ self.old.room }
    {
        self.parts.push_reserved(part);
    }
}
