//! The volatile parts of those seconds that have a ballot in hand or open items.
ghost use Rattle.std.specs.Prelude.{◌≡◌, ◌==◌, ℕ, ◌≤◌, ◌++◌, [], if◌then◌else◌, IfOk, OnOk, OnErr, IsSome, length};
ghost use Rattle.std.specs.Ordering.{nat_cmp};
ghost use Rattle.std.specs.BTreeMap.{is_at};
ghost use Rattle.std.specs.Map.{lookup};
ghost use Rattle.ksi_aggtree.specs.Rounds.{IsRound, leaf_level, highest_item};
ghost use Rattle.ksi_aggtree.specs.Entries.{items_of, candidate_of};
ghost use Rattle.ksi_corenode.specs.Rows.{taken};
ghost use Rattle.ksi_corenode.specs.Stored.{volatile_at};

use crate::volatile::VolatilePart;
use ksi_aggtree::{Entry, Item};
use ksi_imprint::{Compress, Imprint, NoMemory};
use ksi_signature::Answer;
use ksi_synod::InHand;
use std::alloc::Global;
use std::collections::BTreeMap;

/// The ballot in hand for a second.
#[tactic(auto, unfolding(crate::specs::Stored::volatile_at))]
pub(crate) fn hand_of<C: Compress>(
    volatile_parts: &BTreeMap<u64, VolatilePart<C>>,
    second: u64,
) -> Option<InHand>
    ensures { result ≡ (volatile_at volatile_parts.now.entries second).hand }
{
    match volatile_parts.get(&second) {
        Some(volatile) => volatile.hand(),
        None => None,
    }
}

/// How many items of a second are open.
#[tactic(auto, unfolding(crate::specs::Stored::volatile_at))]
pub(crate) fn count_open<C: Compress>(
    volatile_parts: &BTreeMap<u64, VolatilePart<C>>,
    second: u64,
) -> usize
    ensures { result ≡ length (volatile_at volatile_parts.now.entries second).open_items }
{
    match volatile_parts.get(&second) {
        Some(volatile) => volatile.count(),
        None => 0,
    }
}

/// Takes a ballot in hand, or none; for a ballot there is a place.
#[tactic(auto, unfolding(crate::specs::Stored::volatile_at))]
pub(crate) fn put_hand<C: Compress>(
    volatile_parts: &mut BTreeMap<u64, VolatilePart<C>>,
    second: u64,
    hand: Option<InHand>,
)
    requires room { IsSome hand → IsSome (lookup (is_at (nat_cmp second)) volatile_parts.old.entries) }
    ensures { (t : ℕ) → volatile_at volatile_parts.new.entries t ≡ (if t == second then record (volatile_at volatile_parts.old.entries second) { hand = hand } else volatile_at volatile_parts.old.entries t) }
{
    if let Some(volatile) = volatile_parts.get_mut(&second) {
        volatile.take_in_hand(hand);
    }
}

/// Takes an item of an aggregator among the open ones, where there is a place.
#[tactic(auto, unfolding(crate::specs::Stored::volatile_at))]
pub(crate) fn submit<C: Compress>(
    volatile_parts: &mut BTreeMap<u64, VolatilePart<C>>,
    second: u64,
    alloc: Global,
    aggregator: u32,
    item: &Item,
) -> Result<Answer, NoMemory>
    requires level { leaf_level item.now ≤ highest_item }
    requires there { IsSome (lookup (is_at (nat_cmp second)) volatile_parts.old.entries) }
    ensures after { IfOk result (λ answer. (t : ℕ) → volatile_at volatile_parts.new.entries t ≡
        (if t == second then record (volatile_at volatile_parts.old.entries second) { open_items = (taken aggregator item.now (volatile_at volatile_parts.old.entries second).open_items).0 } else volatile_at volatile_parts.old.entries t)) }
    ensures answer { IfOk result (λ answer. answer ≡ (taken aggregator item.now (volatile_at volatile_parts.old.entries second).open_items).1) }
    ensures unchanged { OnErr result ((t : ℕ) → volatile_at volatile_parts.new.entries t ≡ volatile_at volatile_parts.old.entries t) }
{
    match volatile_parts.get_mut(&second) {
        Some(volatile) => volatile.submission(alloc, aggregator, item),
        None => unreachable!(),
    }
}

/// A copy of the open items of a second in order, which make a round, and the imprint of their tree.
///
/// # Errors
/// `NoMemory`: no copy is made.
#[tactic(auto, unfolding(crate::specs::Stored::volatile_at))]
pub(crate) fn open_items<C: Compress>(
    volatile_parts: &BTreeMap<u64, VolatilePart<C>>,
    second: u64,
    alloc: Global,
) -> Result<(Vec<Entry>, Imprint), NoMemory>
    ensures items { IfOk result (λ copied. copied.0.items ≡ (volatile_at volatile_parts.now.entries second).open_items) }
    ensures candidate { IfOk result (λ copied. copied.1 ≡ candidate_of C.image (volatile_at volatile_parts.now.entries second).open_items) }
    ensures round { IsRound (items_of (volatile_at volatile_parts.now.entries second).open_items) }
{
    match volatile_parts.get(&second) {
        Some(volatile) => {
            let items = volatile.items(alloc)?;
            Ok((items, volatile.candidate()))
        }
        None => Ok((Vec::new(alloc), Imprint::ZERO)),
    }
}

/// Leaves no item of a second open.
#[tactic(auto, unfolding(crate::specs::Stored::volatile_at))]
pub(crate) fn forget_items<C: Compress>(
    volatile_parts: &mut BTreeMap<u64, VolatilePart<C>>,
    second: u64,
)
    ensures { (t : ℕ) → volatile_at volatile_parts.new.entries t ≡
        (if t == second then record (volatile_at volatile_parts.old.entries second) { open_items = [] } else volatile_at volatile_parts.old.entries t) }
{
    if let Some(volatile) = volatile_parts.get_mut(&second) {
        volatile.clear();
        drop_idle(volatile_parts, second);
    }
}

/// Drops the part of a second that has neither a ballot in hand nor an open item, which changes nothing that is seen.
#[tactic(auto, unfolding(crate::specs::Stored::volatile_at))]
fn drop_idle<C: Compress>(volatile_parts: &mut BTreeMap<u64, VolatilePart<C>>, second: u64)
    ensures { (t : ℕ) → volatile_at volatile_parts.new.entries t ≡ volatile_at volatile_parts.old.entries t }
{
    let idle = match volatile_parts.get(&second) {
        Some(volatile) => volatile.is_idle(),
        None => false,
    };
    if idle {
        volatile_parts.remove(&second);
    }
}
