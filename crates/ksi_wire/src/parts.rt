// The parts of a line: seconds, actors, ballots, names, items.
ghost use Rattle.std.specs.Prelude.{◌≡◌, ◌≤◌, ◌<◌, ◌^◌, length, IfOk};
ghost use Rattle.ksi_synod.specs.Ballots.{IsBallot};
ghost use Rattle.ksi_corenode.specs.Owners.{IsOwned};
ghost use Rattle.ksi_aggtree.specs.Rounds.{leaf_level, highest_item};
ghost use Rattle.ksi_schedule.specs.Plans.{InRange};
ghost use Rattle.ksi_schedule.specs.Reading.{words_left};
ghost use Rattle.ksi_wire.specs.Asked.{second_in, core_in, lower_in, is_same, is_same_name, ballot_in, name_in, item_in, Reads};

use crate::cursor::{Words, is};
use crate::fault::WireFault;
use ksi_aggtree::{HIGHEST_ITEM, Item, Name};
use ksi_schedule::{Actor, Plan};
use ksi_synod::PLAN_SECONDS;

pub(crate) fn second(plan: &Plan, words: &mut Words<'_>) -> Result<u64, WireFault>
    ensures read { Reads (second_in plan.now (words_left words.old.left)) result (words_left words.new.left) }
    ensures after { IfOk result (λ t. plan.now.start ≤ t) }
    ensures early { IfOk result (λ t. t < 2 ^ 63) }
    ensures within { IfOk result (InRange plan.now) }
{
    let n = words.number()?;
    let start = plan.core_plan().start();
    if start <= n && n - start < PLAN_SECONDS {
        Ok(n)
    } else {
        Err(WireFault::Second)
    }
}

pub(crate) fn core(plan: &Plan, words: &mut Words<'_>) -> Result<u8, WireFault>
    ensures read { Reads (core_in plan.now (words_left words.old.left)) result (words_left words.new.left) }
    ensures few { IfOk result (λ j. j < 9) }
{
    let n = words.number()?;
    if n < u64::from(plan.cores()) {
        Ok(n as u8)
    } else {
        Err(WireFault::Actor)
    }
}

/// An aggregator whose parent is this node.
pub(crate) fn lower(plan: &Plan, me: Actor, words: &mut Words<'_>) -> Result<u32, WireFault>
    ensures read { Reads (lower_in plan.now me (words_left words.old.left)) result (words_left words.new.left) }
    ensures there { IfOk result (λ k. k < length plan.now.parents) }
{
    let n = words.number()?;
    if n < plan.aggregators() as u64 && is_same(plan.parent(n as u32), me) {
        Ok(n as u32)
    } else {
        Err(WireFault::Actor)
    }
}

fn is_same(one: Actor, other: Actor) -> bool
    ensures { result ≡ is_same one other }
{
    match (one, other) {
        (Actor::Core(j), Actor::Core(i)) => j == i,
        (Actor::Aggregator(k), Actor::Aggregator(i)) => k == i,
        _ => false,
    }
}

/// A ballot of a core of the plan.
pub(crate) fn ballot(plan: &Plan, words: &mut Words<'_>) -> Result<u64, WireFault>
    ensures read { Reads (ballot_in plan.now (words_left words.old.left)) result (words_left words.new.left) }
    ensures round { IfOk result IsBallot }
    ensures owned { IfOk result (IsOwned plan.now.cores) }
{
    let n = words.number()?;
    if 16 <= n && n < 1 << 36 && n % 16 < u64::from(plan.cores()) {
        Ok(n)
    } else {
        Err(WireFault::Ballot)
    }
}

/// The name that is left, if one is.
pub(crate) fn name(words: &mut Words<'_>) -> Result<Option<Name>, WireFault>
    ensures { Reads (name_in (words_left words.old.left)) result (words_left words.new.left) }
{
    match words.next_if_any() {
        None => Ok(None),
        Some(word) => match Name::read(word) {
            Some(name) => Ok(Some(name)),
            None => Err(WireFault::Name),
        },
    }
}

/// The item of an aggregator, under the name that the plan gives it.
pub(crate) fn item(plan: &Plan, from: u32, words: &mut Words<'_>) -> Result<Item, WireFault>
    requires { from < length plan.now.parents }
    ensures read { Reads (item_in plan.now from (words_left words.old.left)) result (words_left words.new.left) }
    ensures level { IfOk result (λ item. leaf_level item ≤ highest_item) }
{
    let imprint = words.imprint()?;
    let level = words.number()?;
    if level >= u64::from(HIGHEST_ITEM) {
        return Err(WireFault::Level);
    }
    let name = name(words)?;
    if are_same(&name, &plan.name(from)) {
        Ok(Item {
            imprint,
            level: level as u8,
            name,
        })
    } else {
        Err(WireFault::Name)
    }
}

fn are_same(one: &Option<Name>, other: &Option<Name>) -> bool
    ensures { result ≡ is_same_name one.now other.now }
{
    match (one, other) {
        (None, None) => true,
        (Some(one), Some(other)) => is(one.as_bytes(), other.as_bytes()),
        _ => false,
    }
}
