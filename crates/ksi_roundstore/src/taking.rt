// Taking events.
ghost use Rattle.std.specs.Prelude.{◌≡◌, ◌≤◌, ◌<◌, ◌↔◌, ◌^◌, true, false, IfOk, Err};
ghost use Rattle.ksi_aggregator.specs.Events.{event_second, MayTake};
ghost use Rattle.ksi_aggregator.specs.Rounds.{rounds_of};
ghost use Rattle.ksi_disk.specs.Images.{LeavesOnly};
ghost use Rattle.ksi_roundstore.specs.declared.refusal.TakeRefusal.TheVariants.{Spent};
ghost use Rattle.ksi_roundstore.specs.Takes.{count_new, fact_added, HasEither, HasStored, IsCost, TakeCounts, TakeLeaves, TookTurn};

use crate::appending::keep;
use crate::room::record_for;
use crate::{RoundStore, TakeRefusal};
use ksi_aggregator::{Aggregator, Fact, RoundEvent, Step};
use ksi_disk::Disk;
use ksi_disk::laws::records_stand_one_after_the_other;
use ksi_imprint::Compress;

impl<C: Compress, D: Disk> RoundStore<C, D> {
    /// Takes an event of a second before 2^63 by the call of the aggregator that it is, under that call's condition. Its
    /// fact, if any, is appended to the file before the step is handed out: from then on each image has it.
    ///
    /// # Errors
    ///
    /// `Failed`, and the disk's count of faults rises; then the store is spent, its count of records stays, and each image
    /// has the records before, with this event's or without. `Spent` exactly where an earlier event failed so. `NoMemory`:
    /// all is as it was.
    pub fn take(&mut self, event: RoundEvent) -> Result<Step, TakeRefusal>
        requires event { MayTake (rounds_of self.old.aggregator) event }
        requires early { event_second event < 2 ^ 63 }
        ensures turn { IfOk result (λ step. TookTurn C.image self.old.aggregator self.new.aggregator event step) }
        ensures stored { IfOk result (λ step. HasStored D.content D.images step.fact self.old.log self.new.log) }
        ensures any_moment { self.old.log.is_spent ≡ false →
            LeavesOnly D.moment D.images_since self.old.log.disk self.new.log.disk (HasEither (D.content self.old.log.disk) (fact_added C.image self.old.aggregator event)) }
        ensures spent { (result ≡ Err Spent) ↔ (self.old.log.is_spent ≡ true) }
        ensures leaves { TakeLeaves self.old self.new result }
        ensures counted { TakeCounts (D.faults self.old.log.disk) (D.faults self.new.log.disk) result }
        ensures costs { IsCost (fact_added C.image self.old.aggregator event) (D.meter self.old.log.disk) (D.meter self.new.log.disk) result }
    {
        if self.log.is_spent {
            Err(TakeRefusal::Spent)
        } else {
            self.take_on(event)
        }
    }

    /// The aggregator.
    pub fn aggregator(&self) -> &Aggregator<C>
        ensures { result.now ≡ self.now.aggregator }
    {
        &self.aggregator
    }

    /// How many records there are.
    pub fn records(&self) -> u64
        ensures { result ≡ self.now.records }
    {
        self.records
    }

    /// The disk of the store.
    pub fn into_disk(self) -> D
        ensures { result ≡ self.log.disk }
    {
        let RoundStore { log, .. } = self;
        log.into_disk()
    }

    /// Takes an event, where no call has failed yet: its record first, then the aggregator's step, then the record is
    /// appended.
    fn take_on(&mut self, event: RoundEvent) -> Result<Step, TakeRefusal>
        requires fresh { self.old.log.is_spent ≡ false }
        requires event { MayTake (rounds_of self.old.aggregator) event }
        requires early { event_second event < 2 ^ 63 }
        ensures turn { IfOk result (λ step. TookTurn C.image self.old.aggregator self.new.aggregator event step) }
        ensures stored { IfOk result (λ step. HasStored D.content D.images step.fact self.old.log self.new.log) }
        ensures any_moment { LeavesOnly D.moment D.images_since self.old.log.disk self.new.log.disk (HasEither (D.content self.old.log.disk) (fact_added C.image self.old.aggregator event)) }
        ensures leaves { TakeLeaves self.old self.new result }
        ensures counted { TakeCounts (D.faults self.old.log.disk) (D.faults self.new.log.disk) result }
        ensures costs { IsCost (fact_added C.image self.old.aggregator event) (D.meter self.old.log.disk) (D.meter self.new.log.disk) result }
    {
        records_stand_one_after_the_other();
        let record_ = record_for(self.alloc, &self.aggregator, &event)?;
        let step = self.aggregator.take(event)?;
        keep(&mut self.log, record_, &step.fact)?;
        self.records += count_of(&step.fact);
        Ok(step)
    }
}

/// How many facts there are, one or none.
fn count_of(fact: &Option<Fact>) -> u64
    ensures count { result ≡ count_new fact.now }
    ensures few { result ≤ 1 }
{
    match fact {
        None => 0,
        Some(_) => 1,
    }
}
