ghost use Rattle.std.specs.Prelude.{◌≡◌, ◌++◌, ◌∷◌, [], ℕ, ◌<◌, ◌≤◌, ◌+◌, ◌-◌, ◌*◌, ◌^◌, length, OnOk, OnErr, IfOk, IsOk};
ghost use Rattle.ksi_split.specs.Upward.{halves, whole};
ghost use Rattle.ksi_split.specs.Trees.{tree, path_of, node_at};
ghost use Rattle.ksi_split.specs.Leaves.{leaf_of};

use crate::NoMemory;
use crate::joins::Joins;
use crate::levels::{add_all, add_next, count, grow, levels, part};
use crate::paths::{Paths, paths_from};
use crate::power::split;
use crate::row::Row;
use crate::side::Side;
use crate::steps::Steps;
use crate::tree_link::TreeLink;
use crate::uncounted::{append_all_from, append_from, leaf_from, node_from, path_from, root_from};
use crate::zeros::Zeros;
use std::alloc::Global;
use std::marker::{Brand, Model};
use std::sync::ledger::{Blank, Ledger};

/// Leaves that come one by one behind those before the start, and the complete parts of their tree. A contract sees
/// how many leaves stand before the start, what each of them is, and the leaves that came.
#[derive(Drop)]
pub struct Rows<N: Copy, J: Joins<N>> {
    alloc: Global,
    pub(crate) zeros: Zeros<N, J>,
    rows: Vec<Row<N>>,
}

impl<N: Copy, J: Joins<N>> Model for Rows<N, J> {
    ghost use Rattle.ksi_split.specs.Leaves.{Leaves};
    ghost use Rattle.ksi_split.specs.Stored.{AreRows, row_at};

    ghost Value = { Leaves N };

    ghost view = { λ r. record { start = r.zeros.start; before = r.zeros.leaf; items = row_at r.rows.items 0 } };

    ghost invariant = { λ r. AreRows J.joined r.zeros.start r.zeros.leaf r.rows.items };
}

impl<N: Copy, J: Joins<N>> Rows<N, J> {
    /// No leaf yet behind the first `start`, which are all `before`; `start` is at most 2^63. Without leaves before the
    /// first it takes no memory.
    ///
    /// # Errors
    /// `NoMemory`: no rows are made.
    pub fn new(alloc: Global, start: u64, before: N) -> Result<Self, NoMemory>
        requires { start ≤ 2 ^ 63 }
        ensures made { IfOk result (λ rows. rows ≡ record { start = start; before = before; items = [] }) }
        ensures sure { start ≡ 0 → IsOk result }
    {
        let zeros = Zeros::new(alloc, start, before)?;
        Ok(Rows {
            alloc,
            zeros,
            rows: Vec::new(alloc),
        })
    }

    /// What the memory is taken from.
    pub fn alloc(&self) -> Global {
        self.alloc
    }

    /// How many leaves stand before the first that came.
    pub fn start(&self) -> u64
        ensures { result ≡ self.now.start }
    {
        self.zeros.start
    }

    /// How many leaves came.
    pub fn count(&self) -> u64
        ensures { result ≡ length self.now.items }
    {
        count(&self.rows)
    }

    /// A leaf; `at` is below the start and the count together.
    pub fn leaf(&self, at: u64) -> N
        requires { at < self.now.start + length self.now.items }
        ensures { result ≡ leaf_of self.now at }
    {
        leaf_from::<N, J, Brand>(self, at, Blank::new(1))
    }

    /// The same, with its step.
    pub fn leaf_counted<L: Ledger>(&self, at: u64, steps: &mut Steps<L>) -> N
        requires { at < self.now.start + length self.now.items }
        ensures leaf { result ≡ leaf_of self.now at }
        ensures cost { steps.new ≡ steps.old + 1 }
    {
        self.part(0, at, steps)
    }

    /// The root of the tree over the leaves to `last`, which is an existing leaf.
    pub fn root(&self, last: u64) -> N
        requires { last < self.now.start + length self.now.items }
        ensures { result ≡ tree J.joined (leaf_of self.now) 0 (last + 1) }
    {
        root_from::<N, J, Brand>(self, last, Blank::new(1))
    }

    /// The part that sides from the top lead to in the tree over the leaves to `last`, which is an existing leaf; none if
    /// the sides pass a leaf.
    pub fn node(&self, last: u64, sides: &[Side]) -> Option<N>
        requires { last < self.now.start + length self.now.items }
        ensures { result ≡ node_at J.joined (leaf_of self.now) last sides.now }
    {
        node_from::<N, J, Brand>(self, last, sides, Blank::new(1))
    }

    /// The links from leaf `t` up to the root of the tree over the leaves to `last`, the lowest first; `t` is at most
    /// `last`, which is an existing leaf.
    ///
    /// # Errors
    /// `NoMemory`: nothing has changed.
    pub fn path(&self, t: u64, last: u64) -> Result<Vec<TreeLink<N>>, NoMemory>
        requires within { t ≤ last }
        requires covered { last < self.now.start + length self.now.items }
        ensures { IfOk result (λ path. path.items ≡ path_of J.joined (leaf_of self.now) 0 t (last + 1)) }
    {
        path_from::<N, J, Brand>(self, t, last, Blank::new(1))
    }

    /// The same, with its steps: one for each link at least, and fewer than two for each level that the tree has, which
    /// are at most 63.
    pub fn path_counted<L: Ledger>(
        &self,
        t: u64,
        last: u64,
        steps: &mut Steps<L>,
    ) -> Result<Vec<TreeLink<N>>, NoMemory>
        requires within { t ≤ last }
        requires covered { last < self.now.start + length self.now.items }
        ensures path { IfOk result (λ path. path.items ≡ path_of J.joined (leaf_of self.now) 0 t (last + 1)) }
        ensures cost { (k : ℕ) → last < 2 ^ k → steps.new ≤ steps.old + (2 * k - 1) }
        ensures most { steps.new ≤ steps.old + 126 }
        ensures least { IfOk result (λ path. steps.old + length path.items ≤ steps.new) }
    {
        let alloc = self.alloc;
        let levels = levels(last);
        let mut path = Vec::with_capacity(alloc, levels)?;
        // the part that the last leaf is in, read where it may become a sibling
        let mut border = None;
        if t < last {
            border = Some(self.part(0, last, steps));
        }
        let mut at = t;
        for level in 0..levels {
            if let Some(link) = self.link_up(last, level, at, border, steps) {
                path.push(link)?;
            }
            at /= 2;
            border = self.raise_behind(last, level, at, border, steps);
        }
        Ok(path)
    }

    /// The paths of the tree over the leaves to `last`, which is an existing leaf. The parts that they share are computed
    /// once.
    ///
    /// # Errors
    /// `NoMemory`: nothing has changed.
    pub fn paths(&self, last: u64) -> Result<Paths<'_, N, J>, NoMemory>
        requires { last < self.now.start + length self.now.items }
        ensures { IfOk result (λ paths. paths ≡ record { leaves = self.now; last = last }) }
    {
        paths_from::<N, J, Brand>(self, last, Blank::new(1))
    }

    /// Adds a leaf behind all others, of which there are fewer than 2^63 with those before the start.
    ///
    /// # Errors
    /// `NoMemory`: all is as it was.
    pub fn append(&mut self, leaf: N) -> Result<(), NoMemory>
        requires { self.old.start + length self.old.items < 2 ^ 63 }
        ensures added { OnOk result (self.new ≡ record self.old { items = self.old.items ++ leaf ∷ [] }) }
        ensures unchanged { OnErr result (self.new ≡ self.old) }
    {
        append_from::<N, J, Brand>(self, leaf, Blank::new(1))
    }

    pub(crate) fn append_counted<L: Ledger>(
        &mut self,
        leaf: N,
        steps: &mut Steps<L>,
    ) -> Result<(), NoMemory>
        requires { self.old.start + length self.old.items < 2 ^ 63 }
        ensures added { OnOk result (self.new ≡ record self.old { items = self.old.items ++ leaf ∷ [] }) }
        ensures unchanged { OnErr result (self.new ≡ self.old) }
    {
        let n = self.zeros.start + count(&self.rows);
        // all growths come first, so that a refused one leaves all as it was
        grow(self.alloc, &mut self.rows, n, n + 1)?;
        add_next(&self.zeros, &mut self.rows, n, leaf, steps);
        Ok(())
    }

    /// Adds leaves in order behind all others, which are at most 2^63 with these and those before the start.
    ///
    /// # Errors
    /// `NoMemory`: all is as it was.
    pub fn append_all(&mut self, leaves: &[N]) -> Result<(), NoMemory>
        requires { self.old.start + length self.old.items + length leaves.now ≤ 2 ^ 63 }
        ensures added { OnOk result (self.new ≡ record self.old { items = self.old.items ++ leaves.now }) }
        ensures unchanged { OnErr result (self.new ≡ self.old) }
    {
        append_all_from::<N, J, Brand>(self, leaves, Blank::new(1))
    }

    pub(crate) fn append_all_counted<L: Ledger>(
        &mut self,
        leaves: &[N],
        steps: &mut Steps<L>,
    ) -> Result<(), NoMemory>
        requires { self.old.start + length self.old.items + length leaves.now ≤ 2 ^ 63 }
        ensures added { OnOk result (self.new ≡ record self.old { items = self.old.items ++ leaves.now }) }
        ensures unchanged { OnErr result (self.new ≡ self.old) }
    {
        let n = self.zeros.start + count(&self.rows);
        grow(self.alloc, &mut self.rows, n, n + leaves.len() as u64)?;
        add_all(&self.zeros, &mut self.rows, n, leaves, steps);
        Ok(())
    }

    pub(crate) fn root_counted<L: Ledger>(&self, last: u64, steps: &mut Steps<L>) -> N
        requires { last < self.now.start + length self.now.items }
        ensures { result ≡ tree J.joined (leaf_of self.now) 0 (last + 1) }
    {
        let _ = &self.zeros;
        self.border(last, levels(last), steps)
    }

    pub(crate) fn node_counted<L: Ledger>(
        &self,
        last: u64,
        sides: &[Side],
        steps: &mut Steps<L>,
    ) -> Option<N>
        requires { last < self.now.start + length self.now.items }
        ensures { result ≡ node_at J.joined (leaf_of self.now) last sides.now }
    {
        let _ = &self.zeros;
        let mut first = 0;
        let mut count = last + 1;
        for side in sides {
            if count == 1 {
                return None;
            }
            let half = split(count);
            match side {
                Side::Left => count = half,
                Side::Right => {
                    first += half;
                    count -= half;
                }
            }
        }
        let level = levels(count - 1);
        Some(self.part_to(last, level, first >> level, steps))
    }

    /// A complete part.
    pub(crate) fn part<L: Ledger>(&self, level: usize, at: u64, steps: &mut Steps<L>) -> N
        requires few { level < 64 }
        requires within { at < halves level (self.now.start + length self.now.items) }
        ensures part { result ≡ whole J.joined (leaf_of self.now) level at }
        ensures cost { steps.new ≡ steps.old + 1 }
    {
        part(&self.zeros, &self.rows, level, at, steps)
    }
}
