// Plans while their lines are read.
ghost use Rattle.std.specs.Prelude.{◌≡◌, ◌<◌, true, length, IfSome, OnOk, OnErr};
ghost use Rattle.std.specs.Prelude.{[]};
ghost use Rattle.ksi_synod.specs.CorePlans.{has_room, AreVoters};
ghost use Rattle.ksi_schedule.specs.Plans.{IsPlan, IsParent, InRange, core_plan_of, parent_of};
ghost use Rattle.ksi_schedule.specs.Members.{with_members};
ghost use Rattle.ksi_schedule.specs.Lines.{reaches_core, with_parent};
ghost use Rattle.ksi_aggtree.specs.Names.{IsName};

use crate::actor::Actor;
use crate::parent::Parent;
use crate::plan::Plan;
use ksi_imprint::NoMemory;
use ksi_synod::Voters;

// Whether a core is reached from the actor in this many steps up, or fewer.
pub(crate) fn reaches_core(plan: &Plan, steps: usize, actor: Actor) -> bool
    ensures { result ≡ reaches_core plan.now steps actor }
{
    match actor {
        Actor::Core(j) => j < plan.cores(),
        Actor::Aggregator(k) => steps > 0 && reaches_core(plan, steps - 1, parent_of(plan, k)),
    }
}

// The aggregator's parent, or core 0 where there is no such aggregator.
fn parent_of(plan: &Plan, aggregator: u32) -> Actor
    ensures { result ≡ parent_of plan.now aggregator }
{
    match plan.parents.as_slice().get(aggregator as usize) {
        Some(parent) => parent.actor,
        None => Actor::Core(0),
    }
}

// One aggregator more.
pub(crate) fn push_parent(plan: &mut Plan, parent: Parent) -> Result<(), NoMemory>
    requires room { length plan.old.parents < 4096 }
    requires there { IsParent plan.old.cores (length plan.old.parents) parent.actor }
    requires named { IfSome parent.name IsName }
    requires low { reaches_core plan.old 7 parent.actor ≡ true }
    ensures ok { OnOk result (plan.new ≡ with_parent plan.old parent) }
    ensures err { OnErr result (plan.new ≡ plan.old) }
{
    plan.parents.push(parent)
}

// From the second on these vote.
pub(crate) fn add_voters(plan: &mut Plan, second: u64, voters: &Voters)
    requires none { plan.old.parents ≡ [] }
    requires room { has_room (core_plan_of plan.old) second ≡ true }
    requires second { InRange plan.old second }
    requires voters { AreVoters plan.old.cores voters.now }
    ensures plan { plan.new ≡ with_members plan.old (record { second = second; voters = voters.now }) }
    ensures limits { IsPlan plan.new }
{
    plan.core_plan.add_voters(second, voters);
}
