//! The rows of all levels, the lowest first: how they are read, and how they grow by a leaf.
ghost use Rattle.std.specs.Prelude.{◌≡◌, ◌≢◌, ◌++◌, ◌∷◌, [], ℕ, ◌<◌, ◌≤◌, ◌%◌, ◌+◌, ◌^◌, length, vec_len, OnOk};
ghost use Rattle.ksi_split.specs.Upward.{halves};
ghost use Rattle.ksi_split.specs.Leaves.{leaf_at};
ghost use Rattle.ksi_split.specs.Stored.{row_at, room_at, kept_part, row_of, EndsAt, AreRows};

use crate::NoMemory;
use crate::joins::Joins;
use crate::row::Row;
use crate::steps::Steps;
use crate::zeros::Zeros;
use std::alloc::Global;
use std::sync::ledger::Ledger;

/// How many leaves are in the lowest row.
pub(crate) fn count<N: Copy>(rows: &Vec<Row<N>>) -> u64
    ensures { result ≡ length (row_at rows.now.items 0) }
{
    if rows.is_empty() {
        0
    } else {
        rows[0].len() as u64
    }
}

/// How often a number can be halved until it is 0.
pub(crate) fn levels(n: u64) -> usize
    ensures enough { n < 2 ^ result }
    ensures least { (k : ℕ) → n < 2 ^ k → result ≤ k }
    ensures few { n < 2 ^ 63 → result ≤ 63 }
{
    if n == 0 { 0 } else { n.ilog2() as usize + 1 }
}

/// The part at a place in a level, from the zeros or from its row.
pub(crate) fn part<N: Copy, J: Joins<N>, L: Ledger>(
    zeros: &Zeros<N, J>,
    rows: &Vec<Row<N>>,
    level: usize,
    at: u64,
    steps: &mut Steps<L>,
) -> N
    requires few { level < 64 }
    requires within { at < halves level zeros.now.start + length (row_at rows.now.items level) }
    ensures part { result ≡ kept_part J.joined zeros.now.leaf zeros.now.start rows.now.items level at }
    ensures cost { steps.new ≡ steps.old + 1 }
{
    let first = zeros.start >> level;
    if at < first {
        zeros.part(level, steps)
    } else {
        rows[level].read((at - first) as usize, steps)
    }
}

/// The highest level at which the leaf behind `n` leaves completes a part.
pub(crate) fn completed(n: u64) -> usize
    requires { n < 2 ^ 63 }
    ensures ends { EndsAt n result }
    ensures few { result ≤ 63 }
{
    let mut at = n;
    let mut level = 0;
    while at % 2 == 1 {
        at /= 2;
        level += 1;
    }
    level
}

/// The lowest level from which on `n` leaves have as many complete parts as `end`, which are as many or more.
fn risen(n: u64, end: u64) -> usize
    requires rise { n ≤ end }
    requires many { end ≤ 2 ^ 63 }
    ensures same { (k : ℕ) → result ≤ k → halves k n ≡ halves k end }
    ensures few { result ≤ 64 }
{
    let mut low = n;
    let mut high = end;
    let mut level = 0;
    while low != high {
        low /= 2;
        high /= 2;
        level += 1;
    }
    level
}

/// Makes room for the parts that are complete with `end` leaves, and were not with `n`, and their rows where they are not
/// there.
pub(crate) fn grow<N: Copy>(
    alloc: Global,
    rows: &mut Vec<Row<N>>,
    n: u64,
    end: u64,
) -> Result<(), NoMemory>
    requires rise { n ≤ end }
    requires many { end ≤ 2 ^ 63 }
    ensures kept { (k : ℕ) → row_at rows.new.items k ≡ row_at rows.old.items k }
    ensures room { OnOk result ((k : ℕ) → halves k end ≤ halves k n + room_at rows.new.items k) }
{
    let levels = risen(n, end);
    make(alloc, rows, levels)?;
    for level in 0..levels {
        grow_one(rows, level, ((end >> level) - (n >> level)) as usize)?;
    }
    Ok(())
}

/// Makes the rows below `levels` where they are not there; a row that is made is empty.
fn make<N: Copy>(alloc: Global, rows: &mut Vec<Row<N>>, levels: usize) -> Result<(), NoMemory>
    requires few { levels ≤ 64 }
    ensures kept { (k : ℕ) → row_at rows.new.items k ≡ row_at rows.old.items k }
    ensures rows { OnOk result (levels ≤ vec_len rows.new) }
{
    if rows.is_empty() {
        rows.reserve_exact(levels)?;
    }
    for _level in rows.len()..levels {
        rows.push(Row::new(alloc))?;
    }
    Ok(())
}

/// Makes room for this many parts in a row.
fn grow_one<N: Copy>(rows: &mut Vec<Row<N>>, level: usize, more: usize) -> Result<(), NoMemory>
    requires { level < vec_len rows.old }
    ensures len { vec_len rows.new ≡ vec_len rows.old }
    ensures kept { (k : ℕ) → row_at rows.new.items k ≡ row_at rows.old.items k }
    ensures others { (k : ℕ) → k ≢ level → room_at rows.new.items k ≡ room_at rows.old.items k }
    ensures room { OnOk result (more ≤ room_at rows.new.items level) }
{
    rows[level].grow(more)
}

/// Adds a leaf behind `n` leaves, and the parts that it completes, which stand in the levels up to `top`.
pub(crate) fn add<N: Copy, J: Joins<N>, L: Ledger>(
    zeros: &Zeros<N, J>,
    rows: &mut Vec<Row<N>>,
    n: u64,
    top: usize,
    leaf: N,
    steps: &mut Steps<L>,
)
    requires count { n ≡ zeros.now.start + length (row_at rows.old.items 0) }
    requires many { n < 2 ^ 63 }
    requires top { EndsAt n top }
    requires few { top ≤ 63 }
    requires row { (k : ℕ) → k < 64 → row_at rows.old.items k ≡
        row_of J.joined (leaf_at zeros.now.start zeros.now.leaf (row_at rows.old.items 0 ++ leaf ∷ [])) zeros.now.start n k }
    requires room { (k : ℕ) → k ≤ top → 0 < room_at rows.old.items k }
    ensures items { row_at rows.new.items 0 ≡ row_at rows.old.items 0 ++ leaf ∷ [] }
    ensures row { (k : ℕ) → k < 64 → row_at rows.new.items k ≡
        row_of J.joined (leaf_at zeros.now.start zeros.now.leaf (row_at rows.old.items 0 ++ leaf ∷ [])) zeros.now.start (n + 1) k }
    ensures room { (k : ℕ) → halves k n + room_at rows.old.items k ≤ halves k (n + 1) + room_at rows.new.items k }
{
    let mut node = leaf;
    let mut at = n;
    for level in 0..top {
        put(rows, level, node);
        let left = part(zeros, rows, level, at - 1, steps);
        node = J::join(&left, &node);
        at /= 2;
    }
    put(rows, top, node);
}

/// Adds a leaf behind the others, where there is room for the parts that it completes.
pub(crate) fn add_next<N: Copy, J: Joins<N>, L: Ledger>(
    zeros: &Zeros<N, J>,
    rows: &mut Vec<Row<N>>,
    n: u64,
    leaf: N,
    steps: &mut Steps<L>,
)
    requires count { n ≡ zeros.now.start + length (row_at rows.old.items 0) }
    requires many { n < 2 ^ 63 }
    requires rows { AreRows J.joined zeros.now.start zeros.now.leaf rows.old.items }
    requires room { (k : ℕ) → halves k (n + 1) ≤ halves k n + room_at rows.old.items k }
    ensures items { row_at rows.new.items 0 ≡ row_at rows.old.items 0 ++ leaf ∷ [] }
    ensures rows { AreRows J.joined zeros.now.start zeros.now.leaf rows.new.items }
    ensures room { (k : ℕ) → halves k n + room_at rows.old.items k ≤ halves k (n + 1) + room_at rows.new.items k }
{
    let top = completed(n);
    add(zeros, rows, n, top, leaf, steps);
}

/// Adds leaves behind the others, where there is room for the parts that they complete.
pub(crate) fn add_all<N: Copy, J: Joins<N>, L: Ledger>(
    zeros: &Zeros<N, J>,
    rows: &mut Vec<Row<N>>,
    n: u64,
    leaves: &[N],
    steps: &mut Steps<L>,
)
    requires count { n ≡ zeros.now.start + length (row_at rows.old.items 0) }
    requires many { n + length leaves.now ≤ 2 ^ 63 }
    requires rows { AreRows J.joined zeros.now.start zeros.now.leaf rows.old.items }
    requires room { (k : ℕ) → halves k (n + length leaves.now) ≤ halves k n + room_at rows.old.items k }
    ensures items { row_at rows.new.items 0 ≡ row_at rows.old.items 0 ++ leaves.now }
    ensures rows { AreRows J.joined zeros.now.start zeros.now.leaf rows.new.items }
{
    for i in 0..leaves.len() {
        add_next(zeros, rows, n + i as u64, leaves[i], steps);
    }
}

/// Puts a part into a row that has room for it.
fn put<N: Copy>(rows: &mut Vec<Row<N>>, level: usize, node: N)
    requires at { level < vec_len rows.old }
    requires room { 0 < room_at rows.old.items level }
    ensures len { vec_len rows.new ≡ vec_len rows.old }
    ensures added { row_at rows.new.items level ≡ row_at rows.old.items level ++ node ∷ [] }
    ensures others { (k : ℕ) → k ≢ level → row_at rows.new.items k ≡ row_at rows.old.items k }
    ensures rooms { (k : ℕ) → k ≢ level → room_at rows.new.items k ≡ room_at rows.old.items k }
    ensures room { room_at rows.new.items level + 1 ≡ room_at rows.old.items level }
{
    rows[level].put(node);
}
