//! The stable parts of the settled seconds, in order. The first ones, as long as they have a root and nothing else, are stored
//! as bare roots.
ghost use Rattle.std.specs.Prelude.{◌≡◌, ◌<◌, ◌≤◌, ◌+◌, ◌∷◌, ◌++◌, [], length, slice_index_or, slice_set, map, OnOk, IfOk, vec_len, vec_capacity};
ghost use Rattle.ksi_corenode.specs.Stored.{fresh_part, bare_part};

use crate::stable::StablePart;
use ksi_imprint::{Imprint, NoMemory};
use std::alloc::Global;
use std::marker::Model;

/// The parts in order. Contracts describe the list of parts, how many of the first are bare roots, and how many more fit.
#[derive(Drop)]
pub(crate) struct SettledParts {
    alloc: Global,
    roots: Vec<Imprint>,
    parts: Vec<StablePart>,
}

impl Model for SettledParts {
    ghost use Rattle.std.specs.Prelude.{length, map, min, ◌++◌, ◌-◌, vec_len, vec_capacity};
    ghost use Rattle.ksi_corenode.specs.Stored.{SettledState, bare_part};

    ghost Value = { SettledState };

    ghost view = { λ s. record {
      bare = vec_len s.roots;
      parts = map bare_part s.roots.items ++ s.parts.items;
      room = min (vec_capacity s.roots - vec_len s.roots) (vec_capacity s.parts - vec_len s.parts);
    } };
}

impl SettledParts {
    /// No parts.
    pub fn new(alloc: Global) -> Self
        ensures bare { result.bare ≡ 0 }
        ensures parts { result.parts ≡ [] }
    {
        SettledParts {
            alloc,
            roots: Vec::new(alloc),
            parts: Vec::new(alloc),
        }
    }

    /// The number of parts.
    pub fn len(&self) -> usize
        ensures { result ≡ length self.now.parts }
    {
        self.roots.len() + self.parts.len()
    }

    /// How many of the first parts are stored as bare roots.
    pub fn bare(&self) -> usize
        ensures bare { result ≡ self.now.bare }
        ensures within { result ≤ length self.now.parts }
    {
        self.roots.len()
    }

    /// The part at an index.
    pub fn get(&self, place: usize) -> StablePart
        requires { place < length self.now.parts }
        ensures { result ≡ slice_index_or self.now.parts place fresh_part }
    {
        let bare = self.roots.len();
        if place < bare {
            StablePart::bare(self.roots[place])
        } else {
            self.parts[place - bare]
        }
    }

    /// Replaces a part that is not stored as a bare root.
    pub fn set(&mut self, place: usize, part: &StablePart)
        requires behind { self.old.bare ≤ place }
        requires there { place < length self.old.parts }
        ensures parts { self.new.parts ≡ slice_set self.old.parts place part.now }
        ensures room { self.new.room ≡ self.old.room }
    {
        let bare = self.roots.len();
        self.parts[place - bare] = *part;
    }

    /// Reserves memory for this many more parts.
    ///
    /// # Errors
    /// `NoMemory`: nothing has changed, except the capacity.
    pub fn reserve(&mut self, more: usize) -> Result<(), NoMemory>
        ensures parts { self.new.parts ≡ self.old.parts }
        ensures bare { self.new.bare ≡ self.old.bare }
        ensures room { OnOk result (more ≤ self.new.room) }
        ensures least { self.old.room ≤ self.new.room }
    {
        self.roots.reserve(more)?;
        self.parts.reserve(more)?;
        Ok(())
    }

    /// Stores all parts in full. The list of parts is unchanged.
    ///
    /// # Errors
    /// `NoMemory`: nothing has changed.
    pub fn spread(&mut self) -> Result<(), NoMemory>
        ensures parts { self.new.parts ≡ self.old.parts }
        ensures bare { OnOk result (self.new.bare ≡ 0) }
        ensures room { self.old.room ≤ self.new.room }
    {
        let room = self.parts.capacity() - self.parts.len();
        let parts = spread(self.alloc, &self.roots, &self.parts, room)?;
        self.parts = parts;
        self.roots.clear();
        Ok(())
    }

    /// Appends a part. Memory for it was reserved.
    pub fn push(&mut self, part: &StablePart)
        requires { 1 ≤ self.old.room }
        ensures parts { self.new.parts ≡ self.old.parts ++ part.now ∷ [] }
        ensures room { self.old.room ≤ self.new.room + 1 }
    {
        match part.bare_root() {
            Some(root) if self.parts.is_empty() => self.roots.push_reserved(root),
            _ => self.parts.push_reserved(*part),
        }
    }
}

/// The parts of these bare roots, followed by these parts, with memory reserved for `room` more.
///
/// # Errors
/// `NoMemory`.
fn spread(
    alloc: Global,
    roots: &[Imprint],
    parts: &[StablePart],
    room: usize,
) -> Result<Vec<StablePart>, NoMemory>
    ensures items { IfOk result (λ all. all.items ≡ map bare_part roots.now ++ parts.now) }
    ensures room { IfOk result (λ all. vec_len all + room ≤ vec_capacity all) }
{
    let mut all = Vec::new(alloc);
    'spreading: for k in 0..roots.len() {
        all.push(StablePart::bare(roots[k]))?;
    }
    all.extend_from_slice(parts)?;
    all.reserve(room)?;
    Ok(all)
}
