//! The mirror of a core: what it holds and has sealed.
ghost use Rattle.std.specs.Prelude.{◌≡◌, ◌<◌, ◌≤◌, ◌+◌, ◌^◌, ◌++◌, [], ℕ, false, IfOk, IfSome, IfNone, OnOk};
ghost use Rattle.std.specs.List.{AllByRecursion};
ghost use Rattle.ksi_imprint.specs.Imprints.{IsImprint};
ghost use Rattle.ksi_corenode.specs.CoreState.{state_of, held_by};
ghost use Rattle.ksi_corenode.specs.Next.{held_or_sealed};
ghost use Rattle.ksi_replay.specs.Mirrors.{put_before, root_with, each_second, list_at, sealed_by, HasSealedImprints, mirror_of};

use crate::journal::imprints_in;
use ksi_corenode::Core;
use ksi_imprint::{Compress, Imprint, NoMemory};
use ksi_mirror::{Mirror, MirrorParts, SealedList};
use ksi_synod::PLAN_SECONDS;
use ksi_world::laws::sealed_is_listed;
use ksi_world::{World, items_of};
use std::alloc::Global;

/// The mirror of a core of the plan: the start, each root that it holds, and each list of items that it sealed. What is
/// empty is left out. Mirrors of the cores of one history merge in any order
/// ([`mirrors_of_a_history_merge`](crate::laws::mirrors_of_a_history_merge)).
///
/// # Errors
/// `NoMemory`.
#[tactic(auto, unfolding(crate::specs::Mirrors::mirror_of))]
pub fn mirror_of<C: Compress>(alloc: Global, world: &World<C>, core: u8) -> Result<Mirror, NoMemory>
    requires core { core < world.now.plan.cores }
    ensures { IfOk result (λ mirror. mirror ≡ mirror_of C.image world.now core) }
{
    sealed_is_listed();
    let _events = world.events();
    let start = world.plan().start();
    let parts = copied(alloc, world.core(core), start, core)?;
    imprints_of_roots(&parts.roots);
    imprints_of_lists(&parts.lists);
    Ok(Mirror::new(parts))
}

/// What a core holds and has sealed for the seconds of a plan that starts with this one. Only seconds for which it has
/// something are looked at.
fn copied<C: Compress>(
    alloc: Global,
    node: &Core<C>,
    start: u64,
    core: u8,
) -> Result<MirrorParts, NoMemory>
    requires { start + 2 ^ 24 < 2 ^ 64 }
    ensures start { IfOk result (λ parts. parts.start ≡ start) }
    ensures roots { IfOk result (λ parts. parts.roots.items ≡ each_second (root_with (held_by node.now)) start) }
    ensures lists { IfOk result (λ parts. parts.lists.items ≡ each_second (list_at (sealed_by node.now) core) start) }
{
    let end = start + PLAN_SECONDS;
    let mut roots = Vec::new(alloc);
    let mut lists = Vec::new(alloc);
    let mut from = start;
    'copying: while let Some(second) = next_below(node, from, end) {
        put_root(node, second, &mut roots)?;
        put_list(alloc, node, second, core, &mut lists)?;
        from = second + 1;
    }
    Ok(MirrorParts {
        start,
        roots,
        lists,
    })
}

/// The first second from this one on and before the end that the core holds or sealed something for.
fn next_below<C: Compress>(node: &Core<C>, from: u64, end: u64) -> Option<u64>
    ensures within { IfSome result (λ second. (from ≤ second) × (second < end)) }
    ensures idle { IfSome result (λ second. (t : ℕ) → from ≤ t → t < second → held_or_sealed (state_of node.now t) ≡ false) }
    ensures none { IfNone result ((t : ℕ) → from ≤ t → t < end → held_or_sealed (state_of node.now t) ≡ false) }
{
    match node.next_second(from) {
        Some(second) => { if second < end { Some(second) } else { None } }
        None => None,
    }
}

/// Puts the root of a second behind the others, where one is held.
fn put_root<C: Compress>(
    node: &Core<C>,
    second: u64,
    roots: &mut Vec<(u64, Imprint)>,
) -> Result<(), NoMemory>
    ensures { OnOk result (roots.new.items ≡ roots.old.items ++ put_before (root_with (held_by node.now) second) []) }
{
    match node.held(second) {
        Some(root) => {
            roots.push((second, root))?;
            Ok(())
        }
        None => Ok(()),
    }
}

/// Puts the list of a second behind the others, where items were sealed.
fn put_list<C: Compress>(
    alloc: Global,
    node: &Core<C>,
    second: u64,
    core: u8,
    lists: &mut Vec<SealedList>,
) -> Result<(), NoMemory>
    ensures { OnOk result (lists.new.items ≡ lists.old.items ++ put_before (list_at (sealed_by node.now) core second) []) }
{
    match node.sealed(second) {
        Some(entries) if !entries.is_empty() => {
            let items = items_of(alloc, entries)?;
            lists.push(SealedList {
                second,
                core,
                items,
            })?;
            Ok(())
        }
        _ => Ok(()),
    }
}

/// Each root is an imprint, as its type keeps it.
fn imprints_of_roots(roots: &[(u64, Imprint)])
    ensures { AllByRecursion (λ one. IsImprint one.1) roots.now }
{
    'roots: for one in roots {
        let _root = one.1.bytes();
    }
}

/// The items of each list have imprints, and names where they have any, as their types keep it.
fn imprints_of_lists(lists: &[SealedList])
    ensures { AllByRecursion HasSealedImprints lists.now }
{
    'lists: for one in lists {
        imprints_in(one.items.as_slice());
    }
}
