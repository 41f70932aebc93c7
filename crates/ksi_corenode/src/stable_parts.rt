//! The stable parts of all seconds. Those of the settled seconds, from the start up to the first that is not held, are in a
//! list; the others are in a map.
ghost use Rattle.std.specs.Prelude.{◌≡◌, ◌==◌, ℕ, List, ◌+◌, ◌<◌, ◌≤◌, ◌^◌, ◌∷◌, ◌++◌, [], if◌then◌else◌, length, false, IsTrue, IsSome, IsNone, IfSome, OnOk, IfOk, Some, None, vec_len, vec_capacity};
ghost use Rattle.std.specs.Ordering.{nat_cmp};
ghost use Rattle.std.specs.BTreeMap.{is_at, btree_map_len};
ghost use Rattle.std.specs.Map.{lookup};
ghost use Rattle.ksi_corenode.specs.Stored.{fresh_part, unsettled_at, part_at, has_place, part_of};
ghost use Rattle.ksi_corenode.specs.Settled.{IsSettled};
ghost use Rattle.ksi_corenode.specs.Next.{IsNext, part_held_or_sealed};

use crate::settled_parts::SettledParts;
use crate::stable::StablePart;
use ksi_imprint::NoMemory;
use ksi_split::Steps;
use std::alloc::Global;
use std::collections::BTreeMap;
use std::marker::Model;
use std::sync::ledger::Ledger;

/// The stable parts. Contracts describe the start, how many seconds are settled, and the part of each second.
#[derive(Drop)]
pub(crate) struct StableParts {
    start: u64,
    settled: SettledParts,
    unsettled: BTreeMap<u64, StablePart>,
}

impl Model for StableParts {
    ghost use Rattle.std.specs.Prelude.{◌≤◌, length};
    ghost use Rattle.std.specs.BTreeMap.{btree_map_len};
    ghost use Rattle.ksi_corenode.specs.Stored.{StablePartsState, part_at};
    ghost use Rattle.ksi_corenode.specs.Settled.{IsSettled};

    ghost Value = { StablePartsState };

    ghost view = { λ s. record { start = s.start; bare = s.settled.bare; settled = s.settled.parts; unsettled = s.unsettled.entries } };

    ghost invariant = { λ s. IsSettled (λ t. (part_at s.start s.settled.parts s.unsettled.entries t).vote.held) s.start (length s.settled.parts)
        × (btree_map_len s.unsettled ≤ s.settled.room) };
}

impl StableParts {
    /// The parts before any event.
    #[tactic(auto, unfolding(crate::specs::Stored::part_at))]
    pub fn new(alloc: Global, start: u64) -> Self
        ensures start { result.start ≡ start }
        ensures settled { result.settled ≡ [] }
        ensures at { (t : ℕ) → part_of result t ≡ fresh_part }
    {
        StableParts {
            start,
            settled: SettledParts::new(alloc),
            unsettled: BTreeMap::new(alloc),
        }
    }

    /// The start.
    pub fn start(&self) -> u64
        ensures { result ≡ self.now.start }
    {
        self.start
    }

    /// The number of settled seconds, which is the length of the list: one step.
    pub fn settled<L: Ledger>(&self, steps: &mut Steps<L>) -> u64
        ensures settled { IsSettled (λ t. (part_of self.now t).vote.held) self.now.start result }
        ensures step { steps.new ≡ steps.old + 1 }
    {
        steps.tick();
        self.settled.len() as u64
    }

    /// The part of a second, from the list or the map: one step.
    #[tactic(auto, unfolding(crate::specs::Stored::part_at))]
    pub fn get<L: Ledger>(&self, t: u64, steps: &mut Steps<L>) -> StablePart
        ensures part { result ≡ part_of self.now t }
        ensures step { steps.new ≡ steps.old + 1 }
    {
        steps.tick();
        if self.start <= t && t - self.start < self.settled.len() as u64 {
            return self.settled.get((t - self.start) as usize);
        }
        match self.unsettled.get(&t) {
            Some(part) => *part,
            None => StablePart::new(),
        }
    }

    /// The first second from this one on with a held root or sealed items. A settled one is found without looking at others.
    pub fn next_from(&self, from: u64) -> Option<u64>
        ensures next { IfSome result (IsNext (λ t. part_held_or_sealed (part_of self.now t)) from) }
        ensures none { IsNone result → (t : ℕ) → from ≤ t → part_held_or_sealed (part_of self.now t) ≡ false }
    {
        if self.start <= from && from - self.start < self.settled.len() as u64 {
            return Some(from);
        }
        self.next_beside(from)
    }

    /// The same for a second that is not settled: the next one is the first settled one, or one of the others.
    fn next_beside(&self, from: u64) -> Option<u64>
        ensures next { IfSome result (IsNext (λ t. part_held_or_sealed (part_of self.now t)) from) }
        ensures none { IsNone result → (t : ℕ) → from ≤ t → part_held_or_sealed (part_of self.now t) ≡ false }
    {
        let next = next_unsettled(&self.unsettled, from);
        let first = from.max(self.start);
        if first - self.start >= self.settled.len() as u64 {
            return next;
        }
        match next {
            Some(t) => Some(t.min(first)),
            None => Some(first),
        }
    }

    /// Makes a place for the part of a second, and reserves memory for it among the settled ones.
    ///
    /// # Errors
    /// `NoMemory`: nothing has changed.
    #[tactic(auto, unfolding(crate::specs::Stored::part_at, crate::specs::Stored::has_place))]
    pub fn make_place(&mut self, t: u64) -> Result<(), NoMemory>
        ensures start { self.new.start ≡ self.old.start }
        ensures at { (u : ℕ) → part_of self.new u ≡ part_of self.old u }
        ensures there { OnOk result (IsTrue (has_place self.new.start self.new.bare self.new.settled self.new.unsettled t)) }
    {
        if self.start <= t && t - self.start < self.settled.len() as u64 {
            return self.make_settled_place(t);
        }
        if self.unsettled.contains_key(&t) {
            return Ok(());
        }
        self.settled.reserve(self.unsettled.len() + 1)?;
        self.unsettled.insert(t, StablePart::new())?;
        Ok(())
    }

    /// Makes a place for the part of a settled second: if it is one of the bare roots, all parts are stored in full.
    ///
    /// # Errors
    /// `NoMemory`: nothing has changed.
    #[tactic(auto, unfolding(crate::specs::Stored::part_at, crate::specs::Stored::has_place))]
    fn make_settled_place(&mut self, t: u64) -> Result<(), NoMemory>
        requires from { self.old.start ≤ t }
        requires below { t < self.old.start + length self.old.settled }
        ensures start { self.new.start ≡ self.old.start }
        ensures at { (u : ℕ) → part_of self.new u ≡ part_of self.old u }
        ensures there { OnOk result (IsTrue (has_place self.new.start self.new.bare self.new.settled self.new.unsettled t)) }
    {
        if t - self.start < self.settled.bare() as u64 {
            self.settled.spread()?;
        }
        Ok(())
    }

    /// Replaces the part of a second. A root that was held is still held.
    pub fn put(&mut self, t: u64, part: &StablePart)
        requires place { IsTrue (has_place self.old.start self.old.bare self.old.settled self.old.unsettled t) }
        requires held { (root : List ℕ) → (part_of self.old t).vote.held ≡ Some root → part.now.vote.held ≡ Some root }
        ensures start { self.new.start ≡ self.old.start }
        ensures at { (u : ℕ) → part_of self.new u ≡ (if u == t then part.now else part_of self.old u) }
    {
        write(self.start, &mut self.settled, &mut self.unsettled, t, part);
        settle(self.start, &mut self.settled, &mut self.unsettled);
    }
}

/// The first second in the map from this one on with a held root or sealed items.
fn next_unsettled(unsettled: &BTreeMap<u64, StablePart>, from: u64) -> Option<u64>
    ensures next { IfSome result (IsNext (λ t. part_held_or_sealed (unsettled_at unsettled.now.entries t)) from) }
    ensures none { IsNone result → (t : ℕ) → from ≤ t → part_held_or_sealed (unsettled_at unsettled.now.entries t) ≡ false }
{
    'following: for (t, part) in unsettled.range(from..) {
        if part.is_held_or_sealed() {
            return Some(*t);
        }
    }
    None
}

/// Writes the part of a second to the list or the map.
#[tactic(auto, unfolding(crate::specs::Stored::part_at, crate::specs::Stored::has_place))]
fn write(
    start: u64,
    settled: &mut SettledParts,
    unsettled: &mut BTreeMap<u64, StablePart>,
    t: u64,
    part: &StablePart,
)
    requires place { IsTrue (has_place start settled.old.bare settled.old.parts unsettled.old.entries t) }
    ensures at { (u : ℕ) → part_at start settled.new.parts unsettled.new.entries u ≡ (if u == t then part.now else part_at start settled.old.parts unsettled.old.entries u) }
    ensures settled { length settled.new.parts ≡ length settled.old.parts }
    ensures room { settled.new.room ≡ settled.old.room }
    ensures unsettled { btree_map_len unsettled.new ≡ btree_map_len unsettled.old }
{
    if start <= t && t - start < settled.len() as u64 {
        settled.set((t - start) as usize, part);
        return;
    }
    match unsettled.get_mut(&t) {
        Some(place) => *place = *part,
        None => unreachable!(),
    }
}

/// Moves the seconds that follow the settled ones to the list, as long as they are held.
fn settle(start: u64, settled: &mut SettledParts, unsettled: &mut BTreeMap<u64, StablePart>)
    requires room { btree_map_len unsettled.old ≤ settled.old.room }
    requires held { (t : ℕ) → start ≤ t → t < start + length settled.old.parts → IsSome (part_at start settled.old.parts unsettled.old.entries t).vote.held }
    ensures at { (u : ℕ) → part_at start settled.new.parts unsettled.new.entries u ≡ part_at start settled.old.parts unsettled.old.entries u }
    ensures settled { IsSettled (λ t. (part_at start settled.new.parts unsettled.new.entries t).vote.held) start (length settled.new.parts) }
    ensures room { btree_map_len unsettled.new ≤ settled.new.room }
{
    'settling: while let Some(next) = held_next(start, settled.len(), unsettled) {
        move_over(start, settled, unsettled, next);
    }
}

/// The second after this many settled ones, if it is held.
fn held_next(start: u64, settled: usize, unsettled: &BTreeMap<u64, StablePart>) -> Option<u64>
    ensures next { IfSome result (λ next. next ≡ start + settled) }
    ensures there { IfSome result (λ next. IsSome (lookup (is_at (nat_cmp next)) unsettled.now.entries)) }
    ensures held { IfSome result (λ next. IsSome (unsettled_at unsettled.now.entries next).vote.held) }
    ensures none { IsNone result → start + settled < 2 ^ 64 → (unsettled_at unsettled.now.entries (start + settled)).vote.held ≡ None }
{
    let next = start.checked_add(settled as u64)?;
    match unsettled.get(&next) {
        Some(part) if part.vote.held().is_some() => Some(next),
        _ => None,
    }
}

/// Moves the next second to the list of settled ones.
#[tactic(auto, unfolding(crate::specs::Stored::part_at))]
fn move_over(
    start: u64,
    settled: &mut SettledParts,
    unsettled: &mut BTreeMap<u64, StablePart>,
    next: u64,
)
    requires next { next ≡ start + length settled.old.parts }
    requires there { IsSome (lookup (is_at (nat_cmp next)) unsettled.old.entries) }
    requires room { btree_map_len unsettled.old ≤ settled.old.room }
    ensures at { (u : ℕ) → part_at start settled.new.parts unsettled.new.entries u ≡ part_at start settled.old.parts unsettled.old.entries u }
    ensures settled { length settled.new.parts ≡ length settled.old.parts + 1 }
    ensures unsettled { btree_map_len unsettled.new + 1 ≡ btree_map_len unsettled.old }
    ensures room { btree_map_len unsettled.new ≤ settled.new.room }
{
    match unsettled.remove(&next) {
        Some(part) => settled.push(&part),
        None => unreachable!(),
    }
}
