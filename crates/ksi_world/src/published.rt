//! The published seconds, each with its root.
ghost use Rattle.std.specs.Prelude.{◌≡◌, [], OnOk, OnErr};
ghost use Rattle.ksi_world.specs.Histories.{put_rising, published_with};

use ksi_imprint::{Imprint, NoMemory};
use ksi_signature::Answer;
use std::alloc::Global;
use std::collections::BTreeMap;
use std::collections::btree_map::Iter;
use std::marker::Model;

/// The published seconds, each with its root. A contract sees their list, rising.
#[derive(Drop)]
pub struct PublishedRoots {
    roots: BTreeMap<u64, Imprint>,
}

impl Model for PublishedRoots {
    ghost use Rattle.std.specs.Prelude.{ℕ, List, ◌^◌};
    ghost use Rattle.ksi_world.specs.Validity.{AreTimes};

    ghost Value = { List (ℕ × List ℕ) };

    ghost view = { λ published. published.roots.entries };

    ghost invariant = { λ published. AreTimes 0 (2 ^ 64) published.roots.entries };
}

impl PublishedRoots {
    /// Nothing is published.
    pub(crate) fn new(alloc: Global) -> Self
        ensures { result ≡ [] }
    {
        PublishedRoots {
            roots: BTreeMap::new(alloc),
        }
    }

    /// The seconds in order, each with its root.
    pub fn iter(&self) -> Iter<'_, u64, Imprint>
        ensures { result ≡ self.now }
    {
        self.roots.iter()
    }

    /// Puts what was answered in its place: a published root whose second is new.
    ///
    /// # Errors
    /// `NoMemory`: all is as it was.
    pub(crate) fn put_answer(&mut self, second: u64, answer: &Answer) -> Result<(), NoMemory>
        ensures put { OnOk result (self.new ≡ published_with self.old second answer.now) }
        ensures unchanged { OnErr result (self.new ≡ self.old) }
    {
        match answer {
            Answer::Published(root) => self.put(second, *root),
            _ => Ok(()),
        }
    }

    /// Puts a root in its place, where its second is new.
    fn put(&mut self, second: u64, root: Imprint) -> Result<(), NoMemory>
        ensures put { OnOk result (self.new ≡ put_rising second root self.old) }
        ensures unchanged { OnErr result (self.new ≡ self.old) }
    {
        if self.roots.contains_key(&second) {
            return Ok(());
        }
        self.roots.insert(second, root)?;
        Ok(())
    }
}
