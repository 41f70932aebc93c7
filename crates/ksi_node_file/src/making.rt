ghost use Rattle.std.specs.Prelude.{◌≡◌, ◌<◌, IfOk, OnOk, length};
ghost use Rattle.ksi_schedule.specs.Plans.{core_plan_of};
ghost use Rattle.ksi_schedule.specs.Events.{IsEvent, with_event};
ghost use Rattle.ksi_nodestore.specs.Stores.{IsFileOf};
ghost use Rattle.ksi_node_file.specs.CoreFacts.{core_facts, node_of};
ghost use Rattle.ksi_node_file.specs.Followed.{IsFollowing};

use crate::following::{first, follow};
use ksi_disk::MemDisk;
use ksi_imprint::{Bytes, Compress, NoMemory};
use ksi_nodestore::NodeStore;
use ksi_schedule::{Event, Schedule};
use ksi_world::World;
use std::alloc::Global;

/// The file of a node, and how many records it has.
#[derive(Drop)]
pub struct NodeFile {
    pub bytes: Bytes,
    pub records: u64,
}

/// The file of a core of the schedule's plan after its events.
///
/// # Errors
/// `NoMemory`.
pub fn node_file<C: Compress>(
    alloc: Global,
    schedule: &Schedule,
    core: u8,
) -> Result<NodeFile, NoMemory>
    requires { core < schedule.now.plan.cores }
    ensures bytes { IfOk result (λ file. file.bytes ≡ node_of C.image schedule.now core) }
    ensures again { IfOk result (λ file. IsFileOf core (core_plan_of schedule.now.plan) (core_facts C.image schedule.now.plan schedule.now.events core) file.bytes) }
    ensures records { IfOk result (λ file. file.records ≡ length (core_facts C.image schedule.now.plan schedule.now.events core)) }
{
    let store = followed::<C>(alloc, schedule, core)?;
    let records = store.counts().records;
    let disk = store.into_disk();
    let bytes = Bytes::copy_of(alloc, disk.bytes())?;
    Ok(NodeFile { bytes, records })
}

/// The store of a core after the events of a schedule.
fn followed<C: Compress>(
    alloc: Global,
    schedule: &Schedule,
    core: u8,
) -> Result<NodeStore<C, MemDisk>, NoMemory>
    requires { core < schedule.now.plan.cores }
    ensures { IfOk result (IsFollowing C.image schedule.now.plan schedule.now.events core) }
{
    let mut world = World::<C>::new(alloc, schedule.plan())?;
    let mut store = first::<C>(alloc, schedule.plan(), core)?;
    'events: for event in schedule.events() {
        store = onward(&mut world, store, core, event)?;
    }
    Ok(store)
}

/// An event more, of the world and of the store.
fn onward<C: Compress>(
    world: &mut World<C>,
    store: NodeStore<C, MemDisk>,
    core: u8,
    event: &Event,
) -> Result<NodeStore<C, MemDisk>, NoMemory>
    requires member { core < world.old.plan.cores }
    requires event { IsEvent world.old.plan event.now }
    requires following { IsFollowing C.image world.old.plan world.old.events core store }
    ensures happened { OnOk result (world.new ≡ with_event world.old event.now) }
    ensures following { IfOk result (IsFollowing C.image world.new.plan world.new.events core) }
{
    let store = follow(world, store, core, event)?;
    world.step(*event)?;
    Ok(store)
}
