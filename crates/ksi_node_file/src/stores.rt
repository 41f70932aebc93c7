// Stores on a disk in memory of which no call fails.
ghost use Rattle.std.specs.Prelude.{◌≡◌, ◌<◌, ℕ, List, [], IfOk};
ghost use Rattle.ksi_synod.specs.CorePlans.{CorePlanState};
ghost use Rattle.ksi_corenode.specs.declared.fact.Fact.{Fact};
ghost use Rattle.ksi_corenode.specs.Events.{event_second, IsAsked, MayTake};
ghost use Rattle.ksi_corenode.specs.Owners.{BringsOwned};
ghost use Rattle.ksi_disk.specs.Deeds.{content_of};
ghost use Rattle.ksi_nodestore.specs.Spelling.{node_text};
ghost use Rattle.ksi_nodestore.specs.Stores.{IsFileOf};
ghost use Rattle.ksi_node_file.specs.Followed.{HasTaken, IsInMemory, IsOpened, IsTakeWant, IsWant};

use ksi_corenode::CoreEvent;
use ksi_corenode::laws::steps_are_lawful;
use ksi_disk::{DiskFailed, MemDisk};
use ksi_imprint::{Compress, NoMemory};
use ksi_nodestore::laws::{
    a_crash_is_a_restart, a_new_file_has_no_facts, files_of_facts_are_opened,
};
use ksi_nodestore::{NodeStore, OpenRefusal, TakeRefusal, format};
use ksi_synod::CorePlan;
use std::alloc::Global;

/// The most bytes that an event writes: those of a record of 65,536 items, and of two gates.
const ROOM: usize = 6_750_227;

/// The most writes and syncs of an event.
const TURNS: usize = 4;

/// The store of a core that has stored nothing.
pub(crate) fn empty_store<C: Compress>(
    alloc: Global,
    core: u8,
    plan: &CorePlan,
) -> Result<NodeStore<C, MemDisk>, NoMemory>
    requires member { core < plan.now.cores }
    ensures { IfOk result (IsOpened C.image core plan.now []) }
{
    a_new_file_has_no_facts();
    let _ = plan.cores();
    let disk = formatted(alloc, core, plan)?;
    opened(alloc, core, plan, disk)
}

/// A disk with the file of a core that has stored nothing.
fn formatted(alloc: Global, core: u8, plan: &CorePlan) -> Result<MemDisk, NoMemory>
    requires member { core < plan.now.cores }
    ensures text { IfOk result (λ disk. content_of disk ≡ node_text core plan.now []) }
    ensures sure { IfOk result (λ disk. disk.failing ≡ []) }
{
    let mut disk = MemDisk::new(alloc, &[], 19, 2, Vec::new(alloc))?;
    match format(core, plan, &mut disk) {
        Ok(()) => Ok(disk),
        Err(DiskFailed) => unreachable!(),
    }
}

/// The store of a file of facts.
fn opened<C: Compress>(
    alloc: Global,
    core: u8,
    plan: &CorePlan,
    disk: MemDisk,
) -> Result<NodeStore<C, MemDisk>, NoMemory>
    requires member { core < plan.now.cores }
    requires file { (facts : List Fact) × IsFileOf core plan.now facts (content_of disk) }
    requires sure { disk.failing ≡ [] }
    ensures { (facts : List Fact) → IsFileOf core plan.now facts (content_of disk) → content_of disk ≡ node_text core plan.now facts → IfOk result (IsOpened C.image core plan.now facts) }
{
    files_of_facts_are_opened();
    a_crash_is_a_restart();
    let mut disk = disk;
    disk.make_room(0, 1)?;
    match NodeStore::open(alloc, core, plan, disk) {
        Ok(store) => Ok(store),
        Err((refusal, _)) => Err(want(refusal)),
    }
}

fn want(refusal: OpenRefusal) -> NoMemory
    requires { IsWant refusal }
{
    match refusal {
        OpenRefusal::NoMemory => NoMemory,
        _ => unreachable!(),
    }
}

/// A store takes an event of its core.
pub(crate) fn taken<C: Compress>(
    store: NodeStore<C, MemDisk>,
    event: CoreEvent,
) -> Result<NodeStore<C, MemDisk>, NoMemory>
    requires held { (me : ℕ) × (plan : CorePlanState) × (facts : List Fact) × IsInMemory C.image me plan facts store }
    requires event { MayTake store.core event }
    requires asked { IsAsked store.core (event_second event) }
    requires owned { BringsOwned store.core.plan.cores event }
    ensures { (me : ℕ) (plan : CorePlanState) (facts : List Fact) → IsInMemory C.image me plan facts store → IfOk result (HasTaken C.image me plan facts event store) }
{
    steps_are_lawful();
    let mut store = store;
    store.make_room(ROOM, TURNS)?;
    match store.take(event) {
        Ok(_) => Ok(store),
        Err(refusal) => Err(take_want(refusal)),
    }
}

fn take_want(refusal: TakeRefusal) -> NoMemory
    requires { IsTakeWant refusal }
{
    match refusal {
        TakeRefusal::NoMemory => NoMemory,
        _ => unreachable!(),
    }
}
