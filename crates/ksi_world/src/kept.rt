//! The kept seconds: what the cores hold, and whose items it is.
ghost use Rattle.std.specs.Prelude.{◌≡◌, ◌<◌, ◌≤◌, ◌+◌, ◌^◌, ◌++◌, [], length, replicate, IfOk, IfSome, IfNone, OnOk, option_map};
ghost use Rattle.std.specs.Option.{option_copied};
ghost use Rattle.ksi_aggtree.specs.Entries.{items_of};
ghost use Rattle.ksi_corenode.specs.CoreState.{state_of};
ghost use Rattle.ksi_world.specs.Records.{kept_before, kept_among, sealed_as};
ghost use Rattle.ksi_world.specs.Keeping.{root_among, sealed_among, items_among, second_among, IsIdle, AreIdle, IsKnown, AreKnown};

use ksi_aggtree::{Entry, Item, Items, Second};
use ksi_corenode::Core;
use ksi_imprint::{Compress, Imprint, NoMemory};
use ksi_schedule::Plan;
use std::alloc::Global;
use std::marker::Model;

/// Kept seconds. A contract sees their list.
#[derive(Drop)]
pub struct Seconds {
    seconds: Vec<Second>,
}

impl Model for Seconds {
    ghost use Rattle.std.specs.Prelude.{List};
    ghost use Rattle.ksi_aggtree.specs.declared.second.Second as kept;

    ghost Value = { List kept.Second };

    ghost view = { λ seconds. seconds.seconds.items };
}

impl Seconds {
    /// The seconds of a `Vec`, which is not copied.
    pub fn from_vec(seconds: Vec<Second>) -> Self
        ensures { result ≡ seconds.items }
    {
        Seconds { seconds }
    }

    /// The seconds in order.
    pub fn as_slice(&self) -> &[Second]
        ensures { result.now ≡ self.now }
    {
        self.seconds.as_slice()
    }

    /// The seconds in a `Vec`, which are not copied.
    pub fn into_vec(self) -> Vec<Second>
        ensures { result.items ≡ self }
    {
        let Seconds { seconds } = self;
        seconds
    }
}

/// What is kept: the first second of the plan, and the kept seconds, rising.
#[derive(Drop)]
pub struct Kept {
    pub start: u64,
    pub seconds: Seconds,
}

/// What is kept under a plan, where these are the kept seconds.
pub(crate) fn kept_under(plan: &Plan, seconds: Vec<Second>) -> Kept
    ensures start { result.start ≡ plan.now.start }
    ensures seconds { result.seconds ≡ seconds.items }
{
    Kept {
        start: plan.start(),
        seconds: Seconds::from_vec(seconds),
    }
}

/// The kept ones of so many seconds from the first one on, rising. Only the first one, and those that a core holds or sealed
/// something for, are looked at. A core is asked for its next one once it has passed, so all of them are walked once.
pub(crate) fn kept_seconds<C: Compress>(
    alloc: Global,
    cores: &[Core<C>],
    start: u64,
    many: u64,
) -> Result<Vec<Second>, NoMemory>
    requires { start + many < 2 ^ 64 }
    ensures { IfOk result (λ kept. kept.items ≡ kept_among (second_among C.image cores.now) start many) }
{
    let end = start + many;
    let mut known = all_at(alloc, start, cores.len())?;
    let mut kept = Vec::new(alloc);
    let mut from = start;
    'keeping: while let Some(second) = next_below(cores, &mut known, from, end) {
        put_kept(alloc, cores, second, &mut kept)?;
        from = second + 1;
    }
    Ok(kept)
}

/// Puts a second behind the others, where it is decided.
fn put_kept<C: Compress>(
    alloc: Global,
    cores: &[Core<C>],
    second: u64,
    kept: &mut Vec<Second>,
) -> Result<(), NoMemory>
    ensures { OnOk result (kept.new.items ≡ kept.old.items ++ kept_before (second_among C.image cores.now second) []) }
{
    if let Some(decided) = kept_second(alloc, cores, second)? {
        kept.push(decided)?;
    }
    Ok(())
}

/// This many times the same second.
fn all_at(alloc: Global, second: u64, many: usize) -> Result<Vec<u64>, NoMemory>
    ensures { IfOk result (λ known. known.items ≡ replicate many second) }
{
    Ok(vec![in alloc; second; many]?)
}

/// The first second from this one on and before the end that a core may hold or have sealed something for. Of each core it is
/// known up to which second it holds nothing; where that one has passed the core is asked again.
fn next_below<C: Compress>(
    cores: &[Core<C>],
    known: &mut Vec<u64>,
    from: u64,
    end: u64,
) -> Option<u64>
    requires order { from ≤ end }
    requires many { length known.old.items ≡ length cores.now }
    requires known { AreKnown cores.now from end known.old.items }
    ensures many { length known.new.items ≡ length cores.now }
    ensures known { AreKnown cores.now from end known.new.items }
    ensures within { IfSome result (λ second. (from ≤ second) × (second < end)) }
    ensures idle { IfSome result (AreIdle cores.now from) }
    ensures none { IfNone result (AreIdle cores.now from end) }
{
    let mut next = end;
    'asking: for place in 0..cores.len() {
        let second = idle_up_to(&cores[place], known[place], from, end);
        known[place] = second;
        next = next.min(second);
    }
    if next < end { Some(next) } else { None }
}

/// Up to which second, at most the end, a core holds nothing from this one on: what is known, or what the core says.
fn idle_up_to<C: Compress>(core: &Core<C>, known: u64, from: u64, end: u64) -> u64
    requires order { from ≤ end }
    requires known { IsKnown core.now from end known }
    ensures behind { from ≤ result }
    ensures within { result ≤ end }
    ensures idle { IsIdle core.now from result }
{
    if from <= known {
        return known;
    }
    match core.next_second(from) {
        Some(second) => second.min(end),
        None => end,
    }
}

/// The second with its root and items, where it is decided.
#[tactic(auto, unfolding(crate::specs::Keeping::second_among))]
fn kept_second<C: Compress>(
    alloc: Global,
    cores: &[Core<C>],
    second: u64,
) -> Result<Option<Second>, NoMemory>
    ensures { IfOk result (λ kept. kept ≡ second_among C.image cores.now second) }
{
    let root = match held_root(cores, second) {
        Some(root) => root,
        None => return Ok(None),
    };
    let items = kept_items(alloc, cores, second, &root)?;
    Ok(Some(Second {
        second,
        root,
        items,
    }))
}

/// The root that the first core holds that holds one.
fn held_root<C: Compress>(cores: &[Core<C>], second: u64) -> Option<Imprint>
    ensures { result ≡ root_among cores.now second }
{
    'asking: for core in cores {
        if let Some(root) = core.held(second) {
            return Some(root);
        }
    }
    None
}

/// The items of a root: none of the zero imprint, else those of the first core whose candidate it is.
fn kept_items<C: Compress>(
    alloc: Global,
    cores: &[Core<C>],
    second: u64,
    root: &Imprint,
) -> Result<Items, NoMemory>
    ensures { IfOk result (λ items. items ≡ items_among C.image cores.now second root.now) }
{
    if *root == Imprint::ZERO {
        return Ok(Items::from_vec(Vec::new(alloc)));
    }
    match sealed_items(cores, second, root) {
        Some(entries) => items_of(alloc, entries),
        None => Ok(Items::from_vec(Vec::new(alloc))),
    }
}

/// The items without their origins.
///
/// # Errors
/// `NoMemory`.
pub fn items_of(alloc: Global, entries: &[Entry]) -> Result<Items, NoMemory>
    ensures { IfOk result (λ items. items ≡ items_of entries.now) }
{
    let mut items = Vec::with_capacity(alloc, entries.len())?;
    'taking: for entry in entries {
        items.push(entry.item)?;
    }
    Ok(Items::from_vec(items))
}

/// The sealed items of the first core whose candidate the root is.
fn sealed_items<'a, C: Compress>(
    cores: &'a [Core<C>],
    second: u64,
    root: &Imprint,
) -> Option<&'a [Entry]>
    ensures { option_map items_of (option_copied result) ≡ sealed_among C.image cores.now second root.now }
{
    'asking: for core in cores {
        if let Some(entries) = items_of_root(core, second, root) {
            return Some(entries);
        }
    }
    None
}

/// The sealed items of a core, where the root is its candidate.
fn items_of_root<'a, C: Compress>(
    core: &'a Core<C>,
    second: u64,
    root: &Imprint,
) -> Option<&'a [Entry]>
    ensures { option_map items_of (option_copied result) ≡ sealed_as C.image root.now (state_of core.now second).sealed }
{
    match core.candidate(second) {
        Some(candidate) if candidate == *root => core.sealed(second),
        _ => None,
    }
}
