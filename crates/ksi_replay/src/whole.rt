ghost use Rattle.std.specs.Prelude.{◌≡◌, ◌<◌, ◌≤◌, ◌^◌, ℕ, IfOk, OnOk};
ghost use Rattle.ksi_replay.specs.Generate.{all_seconds, enough, generated, generated_within};

use crate::laws::no_bound_is_reached;
use crate::maker::Maker;
use crate::plan::START;
use ksi_imprint::NoMemory;
use ksi_schedule::Schedule;
use std::alloc::Global;

/// The schedule of a number, at most a million events over 256 seconds from 1700000000 on. It is the same for all greater
/// bounds of its definition.
///
/// # Errors
/// `NoMemory`.
#[tactic(auto, using(crate::proofs::Few::few_events), unfolding(crate::specs::Generate::generated))]
pub fn generate(alloc: Global, number: u64) -> Result<Schedule, NoMemory>
    ensures rule { IfOk result (λ schedule. schedule ≡ generated number) }
    ensures unbounded { IfOk result (λ schedule. (places most : ℕ) → 2 ^ 21 ≤ places → enough ≤ most → generated_within places most number ≡ schedule) }
{
    no_bound_is_reached();
    let mut maker = Maker::new(alloc, number)?;
    maker.all_seconds()?;
    let plan = maker.plan(alloc)?;
    let events = maker.events(alloc)?;
    Ok(Schedule::new(plan, events))
}

impl Maker {
    /// The seconds 0 to 255.
    #[tactic(auto, using(crate::proofs::Loops::seconds_more), unfolding(crate::specs::Generate::all_seconds))]
    fn all_seconds(&mut self) -> Result<(), NoMemory>
        ensures { OnOk result (self.new ≡ (all_seconds enough self.old).1) }
    {
        'seconds: for i in 0..256 {
            self.steps_of(i, START + i)?;
        }
        Ok(())
    }
}
