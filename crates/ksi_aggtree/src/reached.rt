//! What sides from the top lead to in a tree of items, by the numbers of its leaves.
ghost use Rattle.std.specs.Prelude.{◌≡◌, ◌<◌, ◌≤◌, ◌+◌, ◌-◌, ◌^◌, IfSome};
ghost use Rattle.ksi_split.specs.Powers.{IsSplit, split_of};
ghost use Rattle.ksi_aggtree.specs.Rounds.{most_items};
ghost use Rattle.ksi_aggtree.specs.Nodes.{reached_from, below_leaf};
ghost use Rattle.ksi_aggtree.specs.Within.{IsWithin};

use ksi_split::{Side, split};

/// What sides lead to.
#[derive(Clone, Copy, PartialEq, Eq, Debug)]
pub(crate) enum Reached {
    /// A part of the items: the first of them, and how many they are.
    Items(usize, usize),
    /// The left child of the leaf of this item.
    Below(usize),
}

/// What sides lead to from the part of `count` items from `first` down; none where they go on from there.
pub(crate) fn reach(first: usize, count: usize, sides: &[Side]) -> Option<Reached>
    requires some { 0 < count }
    requires few { first + count ≤ most_items }
    ensures reached { result ≡ reached_from (record { first = first; count = count }) sides.now }
    ensures within { IfSome result (IsWithin (first + count)) }
{
    let (side, lower) = match sides.split_first() {
        None => return Some(Reached::Items(first, count)),
        Some(first) => first,
    };
    if count == 1 {
        return below(first, *side, lower);
    }
    let half = left_half(count, 16);
    match side {
        Side::Left => reach(first, half, lower),
        Side::Right => reach(first + half, count - half, lower),
    }
}

/// What a side and those behind it lead to below the leaf of an item.
fn below(k: usize, side: Side, lower: &[Side]) -> Option<Reached>
    ensures below { result ≡ below_leaf k side lower.now }
    ensures within { IfSome result (IsWithin (k + 1)) }
{
    match side {
        Side::Left if lower.is_empty() => Some(Reached::Below(k)),
        _ => None,
    }
}

/// How many of the items are in the left part.
#[tactic(auto, using(crate::proofs::Halves::height_left))]
pub(crate) fn left_half(count: usize, height: u8) -> usize
    requires some { 1 < count }
    requires few { count ≤ 2 ^ height }
    ensures split { IsSplit count result }
    ensures value { result ≡ split_of count }
    ensures some { 0 < result }
    ensures lower { 0 < height }
    ensures left { result ≤ 2 ^ (height - 1) }
    ensures right { count - result ≤ 2 ^ (height - 1) }
{
    split(count as u64) as usize
}
