ghost use Rattle.std.specs.Prelude.{◌≡◌, IfOk};
ghost use Rattle.ksi_replay.specs.Generate.{bare, header};

use ksi_imprint::NoMemory;
use ksi_schedule::{Actor, Parent, Parents, Plan};
use ksi_synod::CorePlan;
use std::alloc::Global;

/// The first second.
pub(crate) const START: u64 = 1_700_000_000;

/// The plan of all generated schedules.
///
/// # Errors
/// `NoMemory`.
pub(crate) fn header(alloc: Global) -> Result<Plan, NoMemory>
    ensures { IfOk result (λ plan. plan ≡ header) }
{
    let parents = [
        bare(Actor::Core(0)),
        bare(Actor::Core(1)),
        bare(Actor::Core(2)),
        bare(Actor::Aggregator(0)),
        bare(Actor::Aggregator(1)),
        bare(Actor::Aggregator(3)),
    ];
    let parents = Parents::from_vec(parents.to_vec(alloc)?);
    Ok(planned(parents))
}

fn bare(actor: Actor) -> Parent
    ensures { result ≡ bare actor }
{
    Parent { actor, name: None }
}

fn planned(parents: Parents) -> Plan
    requires { parents ≡ header.parents }
    ensures { result ≡ header }
{
    Plan {
        core_plan: CorePlan::new(3, START),
        parents,
    }
}
