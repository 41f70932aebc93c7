// A store follows a core of a world, one event after the other.
ghost use Rattle.std.specs.Prelude.{◌≡◌, ◌<◌, ◌++◌, ◌∷◌, [], None, IfOk};
ghost use Rattle.ksi_schedule.specs.Events.{IsEvent};
ghost use Rattle.ksi_world.specs.CoreEvents.{asked_of, is_restart_of};
ghost use Rattle.ksi_world.specs.Histories.{world_of};
ghost use Rattle.ksi_node_file.specs.Followed.{IsFollowing};

use crate::stores::{empty_store, taken};
use ksi_disk::MemDisk;
use ksi_imprint::{Compress, NoMemory};
use ksi_laws_facts::laws::{rows_add_what_they_store, step_is_by_facts, world_is_seen};
use ksi_nodestore::NodeStore;
use ksi_schedule::{Event, Plan};
use ksi_world::World;
use ksi_world::laws::events_are_turns;
use std::alloc::Global;

/// The store of a core before anything happened.
pub(crate) fn first<C: Compress>(
    alloc: Global,
    plan: &Plan,
    core: u8,
) -> Result<NodeStore<C, MemDisk>, NoMemory>
    requires member { core < plan.now.cores }
    ensures { IfOk result (IsFollowing C.image plan.now [] core) }
{
    empty_store(alloc, core, plan.core_plan())
}

/// The store after an event more, which is about to happen in the world.
pub(crate) fn follow<C: Compress>(
    world: &World<C>,
    store: NodeStore<C, MemDisk>,
    core: u8,
    event: &Event,
) -> Result<NodeStore<C, MemDisk>, NoMemory>
    requires member { core < world.now.plan.cores }
    requires event { IsEvent world.now.plan event.now }
    requires following { IsFollowing C.image world.now.plan world.now.events core store }
    ensures { IfOk result (IsFollowing C.image world.now.plan (world.now.events ++ event.now ∷ []) core) }
{
    events_are_turns();
    step_is_by_facts();
    world_is_seen();
    rows_add_what_they_store();
    let _events = world.events();
    let _plan = world.plan();
    match world.asked_of(core, event) {
        Some(asked) => taken(store, asked),
        None => Ok(unasked(world, store, core, event)),
    }
}

/// The same of an event that asks nothing of the core. Where the core restarts so does its store, whose file stays: opening it
/// again would leave the core in the same state, and would cost as much as all that is in it.
fn unasked<C: Compress>(
    world: &World<C>,
    store: NodeStore<C, MemDisk>,
    core: u8,
    event: &Event,
) -> NodeStore<C, MemDisk>
    requires member { core < world.now.plan.cores }
    requires none { asked_of core (world_of C.image world.now).wire event.now ≡ None }
    requires following { IsFollowing C.image world.now.plan world.now.events core store }
    ensures { IsFollowing C.image world.now.plan (world.now.events ++ event.now ∷ []) core result }
{
    events_are_turns();
    step_is_by_facts();
    world_is_seen();
    let _plan = world.plan();
    if is_restart_of(core, event) {
        let mut store = store;
        store.restart();
        store
    } else {
        store
    }
}

/// Whether the event restarts the core.
fn is_restart_of(core: u8, event: &Event) -> bool
    ensures { result ≡ is_restart_of core event.now }
{
    match event {
        Event::RestartCore(other) => core == *other,
        _ => false,
    }
}
