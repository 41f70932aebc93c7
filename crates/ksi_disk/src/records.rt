ghost use Rattle.std.specs.Prelude.{◌≡◌, ◌<◌, ◌≤◌, ◌-◌, ◌∷◌, ◌++◌, [], length, take, drop, slice_index_or, OnOk, OnErr, ℕ, List};
ghost use Rattle.ksi_disk.specs.Cuts.{begin_of};

use ksi_imprint::NoMemory;
use std::alloc::Global;
use std::marker::Model;

/// Records in order, in two blocks of memory: all their bytes, and where each ends. Contracts describe them as a list.
#[derive(Drop)]
pub struct Records {
    bytes: Vec<u8>,
    ends: Vec<usize>,
}

impl Model for Records {
    ghost use Rattle.std.specs.Prelude.{ℕ, List, length};
    ghost use Rattle.ksi_disk.specs.Cuts.{AreEnds, cut};

    ghost Value = { List (List ℕ) };

    ghost view = { λ r. cut r.bytes.items 0 r.ends.items };

    ghost invariant = { λ r. AreEnds 0 (length r.bytes.items) r.ends.items };
}

impl Records {
    /// No records.
    pub fn new(alloc: Global) -> Self
        ensures { result ≡ [] }
    {
        Records {
            bytes: Vec::new(alloc),
            ends: Vec::new(alloc),
        }
    }

    /// The number of records.
    pub fn len(&self) -> usize
        ensures { result ≡ length self.now }
    {
        self.ends.len()
    }

    /// The record with this index.
    pub fn get(&self, number: usize) -> &[u8]
        requires { number < length self.now }
        ensures { (other : List ℕ) → result.now ≡ slice_index_or self.now number other }
    {
        let end = self.ends[number];
        piece(&self.bytes, begin(&self.ends, number), end)
    }

    /// Appends a record.
    ///
    /// # Errors
    /// `NoMemory`: nothing has changed.
    pub fn push(&mut self, content: &[u8]) -> Result<(), NoMemory>
        ensures added { OnOk result (self.new ≡ self.old ++ content.now ∷ []) }
        ensures unchanged { OnErr result (self.new ≡ self.old) }
    {
        self.ends.reserve(1)?;
        self.bytes.extend_from_slice(content)?;
        self.ends.push_reserved(self.bytes.len());
        Ok(())
    }
}

/// The start of a record, which is the end of the one before.
#[tactic(auto, using(crate::proofs::Cutting::begin_first, crate::proofs::Cutting::begin_later))]
fn begin(ends: &[usize], number: usize) -> usize
    requires { number < length ends.now }
    ensures { result ≡ begin_of 0 ends.now number }
{
    if number == 0 { 0 } else { ends[number - 1] }
}

/// The bytes from `start` to `end`.
fn piece(bytes: &[u8], start: usize, end: usize) -> &[u8]
    requires rising { start ≤ end }
    requires within { end ≤ length bytes.now }
    ensures { result.now ≡ take (end - start) (drop start bytes.now) }
{
    let (_, rest) = bytes.split_at(start);
    let (front, _) = rest.split_at(end - start);
    front
}
