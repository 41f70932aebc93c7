//! The turns of cores.
ghost use Rattle.ksi_schedule.specs.Plans.{core_plan_of};
ghost use Rattle.std.specs.Prelude.{◌≡◌, ◌≤◌, ◌<◌, length, IsTrue, false, IfOk, OnOk, OnErr};
ghost use Rattle.ksi_synod.specs.CorePlans.{IsCorePlan};
ghost use Rattle.ksi_corenode.specs.Events.{event_second, MayTake, core_row};
ghost use Rattle.ksi_corenode.specs.Rows.{restart_row};
ghost use Rattle.ksi_corenode.specs.SecondState.{fresh_second};
ghost use Rattle.ksi_world.specs.Nodes.{AreCores, EachCore, CoreStep, CoreRestart, CoresStay, is_respond};

use crate::outcome::Outcome;
use crate::posted::Posted;
use crate::posting::post_core;
use crate::wire::Wire;
use ksi_corenode::{Core, CoreEvent, NoMemory, Step};
use ksi_imprint::Compress;
use ksi_schedule::Plan;
use ksi_synod::laws::voters_are_cores;
use std::alloc::Global;

/// The cores of a plan before anything came.
pub(crate) fn new<C: Compress>(alloc: Global, plan: &Plan) -> Result<Vec<Core<C>>, NoMemory>
    ensures { IfOk result (λ cores. AreCores plan.now (λ j t. fresh_second j (core_plan_of plan.now) t) cores.items) }
{
    let mut cores = Vec::new(alloc);
    let core_plan = plan.core_plan();
    'adding: for me in 0..core_plan.cores() {
        cores.push(Core::new(alloc, me, core_plan))?;
    }
    Ok(cores)
}

/// A core takes an event of a second.
pub(crate) fn take<C: Compress>(
    cores: &mut Vec<Core<C>>,
    wire: &mut Wire,
    core: u8,
    second: u64,
    event: CoreEvent,
) -> Result<Outcome, NoMemory>
    requires there { core < length cores.old.items }
    requires plan { EachCore (λ c. IsCorePlan c.plan) cores.old.items }
    requires may { EachCore (λ c. MayTake c event) cores.old.items }
    requires second { event_second event ≡ second }
    ensures ok { IfOk result (CoreStep (λ c. core_row C.image c event) core second cores.old.items cores.new.items wire.old wire.new) }
    ensures cores { OnErr result (CoresStay cores.old.items cores.new.items) }
    ensures wire { OnErr result (wire.new ≡ wire.old) }
{
    voters_are_cores();
    wire.posted.reserve(9)?;
    let step = cores[core as usize].take(event)?;
    make_room(&mut wire.posted, &event, &step)?;
    Ok(post_core(&mut wire.posted, core, second, step))
}

/// Makes room for what a core sends, where there is room for nine messages: only to Respond it may send more.
fn make_room(posted: &mut Posted, event: &CoreEvent, step: &Step) -> Result<(), NoMemory>
    requires room { 9 ≤ posted.old.room }
    requires few { is_respond event.now ≡ false → length step.now.sends ≤ 9 }
    ensures room { OnOk result (length step.now.sends ≤ posted.new.room) }
    ensures respond { OnErr result (IsTrue (is_respond event.now)) }
    ensures messages { posted.new.messages ≡ posted.old.messages }
{
    if !is_respond(event) {
        return Ok(());
    }
    posted.reserve(step.sends.as_slice().len())?;
    Ok(())
}

/// Whether aggregators are to be answered.
fn is_respond(event: &CoreEvent) -> bool
    ensures { result ≡ is_respond event.now }
{
    matches!(event, CoreEvent::Respond(_))
}

/// A core restarts.
pub(crate) fn restart<C: Compress>(cores: &mut Vec<Core<C>>, core: u8)
    requires there { core < length cores.old.items }
    ensures { CoreRestart restart_row core cores.old.items cores.new.items }
{
    cores[core as usize].restart();
}
