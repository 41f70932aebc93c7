// Taking events.
ghost use Rattle.std.specs.Prelude.{◌≡◌, ◌≤◌, ◌↔◌, ◌^◌, ℕ, true, false, List, IfOk, Err};
ghost use Rattle.ksi_synod.specs.CorePlans.{CorePlanState};
ghost use Rattle.ksi_corenode.specs.declared.fact.Fact.{Fact};
ghost use Rattle.ksi_corenode.specs.CoreState.{IsTurn};
ghost use Rattle.ksi_corenode.specs.Events.{event_second, core_row, IsAsked, MayTake};
ghost use Rattle.ksi_corenode.specs.Lawful.{with_new};
ghost use Rattle.ksi_corenode.specs.Owners.{BringsOwned};
ghost use Rattle.ksi_disk.specs.Images.{LeavesOnly};
ghost use Rattle.ksi_corenode.specs.Counted.{count_below};
ghost use Rattle.ksi_nodestore.specs.declared.refusal.TakeRefusal.TheVariants.{Spent};
ghost use Rattle.ksi_nodestore.specs.StoreState.{IsStoreOf};
ghost use Rattle.ksi_nodestore.specs.Spelling.{node_text};
ghost use Rattle.ksi_nodestore.specs.Takes.{count_new, fact_added, is_held_at, is_sealed_at, HasTaken, IsCost, IsFileBeforeOrAfter, TakeCounts, TakeLeaves};

use crate::appending::keep;
use crate::room::record_for;
use crate::{Counts, NodeStore, TakeRefusal};
use ksi_corenode::laws::steps_are_lawful;
use ksi_corenode::{Core, CoreEvent, Fact, Step};
use ksi_disk::Disk;
use ksi_disk::laws::records_stand_one_after_the_other;
use ksi_imprint::Compress;

impl<C: Compress, D: Disk> NodeStore<C, D> {
    /// Takes an event by the call of the core that it is, under that call's condition, for a second at or after the start
    /// and below 2^63; the ballot that it brings, if any, is of a core of the plan. Its fact, if any, is appended to the
    /// file before the step is handed out: from then on each image has it.
    ///
    /// # Errors
    ///
    /// `Failed`, and the disk's count of faults rises; then the store is spent, its count of records stays, and each image
    /// has the facts before, with this event's or without. `Spent` exactly where an earlier event failed so. `NoMemory`:
    /// all is as it was.
    pub fn take(&mut self, event: CoreEvent) -> Result<Step, TakeRefusal>
        requires event { MayTake self.old.core event }
        requires asked { IsAsked self.old.core (event_second event) }
        requires owned { BringsOwned self.old.core.plan.cores event }
        ensures turn { IfOk result (λ step. IsTurn self.old.core self.new.core (event_second event) (core_row C.image self.old.core event) step) }
        ensures stored { (me : ℕ) (plan : CorePlanState) (facts : List Fact) → IsStoreOf C.image D.content D.images me plan facts self.old → IfOk result (λ step. IsStoreOf C.image D.content D.images me plan (with_new facts step.fact) self.new) }
        ensures exact { (me : ℕ) (plan : CorePlanState) (facts : List Fact) → IsStoreOf C.image D.content D.images me plan facts self.old → D.content self.old.log.disk ≡ node_text me plan facts →
            IfOk result (λ step. D.content self.new.log.disk ≡ node_text me plan (with_new facts step.fact)) }
        ensures any_moment { (me : ℕ) (plan : CorePlanState) (facts : List Fact) → IsStoreOf C.image D.content D.images me plan facts self.old →
            LeavesOnly D.moment D.images_since self.old.log.disk self.new.log.disk (IsFileBeforeOrAfter me plan facts (fact_added C.image self.old.core event)) }
        ensures spent { (result ≡ Err Spent) ↔ (self.old.log.is_spent ≡ true) }
        ensures leaves { TakeLeaves self.old self.new result }
        ensures counted { TakeCounts (D.faults self.old.log.disk) (D.faults self.new.log.disk) result }
        ensures costs { IsCost (fact_added C.image self.old.core event) (D.meter self.old.log.disk) (D.meter self.new.log.disk) result }
    {
        if self.log.is_spent {
            Err(TakeRefusal::Spent)
        } else {
            self.take_on(&event)
        }
    }

    /// The core.
    pub fn core(&self) -> &Core<C>
        ensures { result.now ≡ self.now.core }
    {
        &self.core
    }

    /// How many records there are, and how many seconds the core sealed and holds. It takes no memory.
    pub fn counts(&self) -> Counts
        ensures records { result.records ≡ self.now.records }
        ensures sealed { result.sealed ≡ count_below (is_sealed_at self.now.core) (2 ^ 63) }
        ensures held { result.held ≡ count_below (is_held_at self.now.core) (2 ^ 63) }
    {
        let seconds = self.core.counts();
        Counts {
            records: self.records,
            sealed: seconds.sealed,
            held: seconds.held,
        }
    }

    /// The disk of the store.
    pub fn into_disk(self) -> D
        ensures { result ≡ self.log.disk }
    {
        let NodeStore { log, .. } = self;
        log.into_disk()
    }

    /// Takes an event, where no call has failed yet: room for its record first, then the core's step, then the record.
    fn take_on(&mut self, event: &CoreEvent) -> Result<Step, TakeRefusal>
        requires fresh { self.old.log.is_spent ≡ false }
        requires event { MayTake self.old.core event.now }
        requires asked { IsAsked self.old.core (event_second event.now) }
        requires owned { BringsOwned self.old.core.plan.cores event.now }
        ensures turn { IfOk result (λ step. IsTurn self.old.core self.new.core (event_second event.now) (core_row C.image self.old.core event.now) step) }
        ensures stored { (me : ℕ) (plan : CorePlanState) (facts : List Fact) → IsStoreOf C.image D.content D.images me plan facts self.old → IfOk result (λ step. HasTaken C.image D.content D.images me plan facts step.fact self.old self.new) }
        ensures any_moment { (me : ℕ) (plan : CorePlanState) (facts : List Fact) → IsStoreOf C.image D.content D.images me plan facts self.old →
            LeavesOnly D.moment D.images_since self.old.log.disk self.new.log.disk (IsFileBeforeOrAfter me plan facts (fact_added C.image self.old.core event.now)) }
        ensures leaves { TakeLeaves self.old self.new result }
        ensures counted { TakeCounts (D.faults self.old.log.disk) (D.faults self.new.log.disk) result }
        ensures costs { IsCost (fact_added C.image self.old.core event.now) (D.meter self.old.log.disk) (D.meter self.new.log.disk) result }
    {
        steps_are_lawful();
        records_stand_one_after_the_other();
        let record_ = record_for(self.alloc, &self.core, event)?;
        let step = self.core.take(*event)?;
        keep(&mut self.log, record_, &step.fact)?;
        self.records += count_of(&step.fact);
        Ok(step)
    }
}

/// How many facts there are, one or none.
fn count_of(fact: &Option<Fact>) -> u64
    ensures count { result ≡ count_new fact.now }
    ensures few { result ≤ 1 }
{
    match fact {
        None => 0,
        Some(_) => 1,
    }
}
