ghost use Rattle.std.specs.Prelude.{◌≡◌, ◌<◌, ◌≤◌, ◌^◌, [], ℕ, length, IfOk, IfSome, IfNone, OnOk, OnErr};
ghost use Rattle.ksi_corenode.specs.CoreState.{state_of};
ghost use Rattle.ksi_world.specs.Histories.{happens, held_in, world_of};
ghost use Rattle.ksi_world.specs.Records.{issued_of, IsIssuedOf, NotIssuedOf, kept_seconds};
ghost use Rattle.ksi_world.specs.Validity.{AreRising, AreTimes, EachKept, IsKept};
ghost use Rattle.ksi_schedule.specs.Plans.{IsPlan, core_plan_of};
ghost use Rattle.ksi_schedule.specs.Events.{with_event, IsEvent, AreEvents};

use crate::kept::{Kept, kept_under};
use crate::nodes::Nodes;
use crate::outcome::{Asked, Outcome};
use crate::published::PublishedRoots;
use crate::wire::Wire;
use ksi_aggtree::laws::one_round;
use ksi_corenode::Core;
use ksi_imprint::{Bytes, Compress, Imprint, NoMemory};
use ksi_schedule::{Event, Plan, Schedule};
use ksi_synod::PLAN_SECONDS;
use ksi_synod::laws::steps_agree;
use std::alloc::Global;
use std::marker::Model;

/// All nodes of a plan after a list of events. A contract sees the plan and the events.
#[derive(Drop)]
pub struct World<C: Compress> {
    alloc: Global,
    plan: Plan,
    events: Vec<Event>,
    nodes: Nodes<C>,
}

impl<C: Compress> Model for World<C> {
    ghost use Rattle.ksi_schedule.specs.Events.{History};
    ghost use Rattle.ksi_world.specs.Nodes.{IsWorld};

    ghost Value = { History };

    ghost view = { λ w. record { plan = w.plan; events = w.events.items } };

    ghost invariant = { λ w. IsWorld C.image w.plan w.events.items w.nodes };
}

impl<C: Compress> World<C> {
    /// The nodes of the plan before anything happened.
    ///
    /// # Errors
    /// `NoMemory`: nothing is made.
    pub fn new(alloc: Global, plan: &Plan) -> Result<World<C>, NoMemory>
        ensures { IfOk result (λ world. world ≡ record { plan = plan.now; events = [] }) }
    {
        let nodes = Nodes::new(alloc, plan)?;
        let plan = plan.copy(alloc)?;
        Ok(World {
            alloc,
            plan,
            events: Vec::new(alloc),
            nodes,
        })
    }

    /// The nodes of a schedule's plan after its events, which are not copied.
    ///
    /// # Errors
    /// `NoMemory`: nothing is made.
    pub fn after(alloc: Global, schedule: Schedule) -> Result<World<C>, NoMemory>
        ensures { IfOk result (λ world. world ≡ schedule) }
    {
        let (plan, events) = schedule.into_parts();
        let nodes = Nodes::after(alloc, &plan, events.as_slice())?;
        Ok(World {
            alloc,
            plan,
            events: events.into_vec(),
            nodes,
        })
    }

    /// One event, whose actor is the plan's and whose second is at or after the start and before 2^24 seconds later. It
    /// is added to the events.
    ///
    /// # Errors
    /// `NoMemory`: all is as it was.
    pub fn step(&mut self, event: Event) -> Result<Outcome, NoMemory>
        requires { IsEvent self.old.plan event }
        ensures event { OnOk result (self.new ≡ with_event self.old event) }
        ensures outcome { IfOk result (λ outcome. outcome ≡ (happens C.image self.old.plan (world_of C.image self.old) event).outcome) }
        ensures unchanged { OnErr result (self.new ≡ self.old) }
    {
        one_round();
        self.events.reserve(1)?;
        let outcome = self.nodes.happen(&self.plan, &event)?;
        self.events.push_reserved(event);
        Ok(outcome)
    }

    /// The events so far, each of an actor and a second of the plan.
    pub fn events(&self) -> &[Event]
        ensures events { result.now ≡ self.now.events }
        ensures lawful { AreEvents self.now.plan self.now.events }
    {
        self.events.as_slice()
    }

    /// All messages ever sent. The number of a message is its place.
    pub fn wire(&self) -> &Wire
        ensures { result.now ≡ (world_of C.image self.now).wire }
    {
        self.nodes.wire()
    }

    /// The accepted requests. The number of a request is its place.
    pub fn requests(&self) -> &[Asked]
        ensures { result.now ≡ (world_of C.image self.now).requests }
    {
        self.nodes.requests()
    }

    /// The published seconds, each with its root. They rise from the start and are below 2^63.
    pub fn published(&self) -> &PublishedRoots
        ensures published { result.now ≡ (world_of C.image self.now).published }
        ensures rising { AreTimes self.now.plan.start (2 ^ 63) (world_of C.image self.now).published }
    {
        self.nodes.published()
    }

    /// The plan.
    pub fn plan(&self) -> &Plan
        ensures plan { result.now ≡ self.now.plan }
        ensures limits { IsPlan self.now.plan }
    {
        &self.plan
    }

    /// What a core holds for a second; none where the plan has no such core.
    pub fn held(&self, core: u8, second: u64) -> Option<Imprint>
        ensures { result ≡ held_in (world_of C.image self.now) core second }
    {
        one_round();
        if core >= self.plan.cores() {
            return None;
        }
        self.nodes.core(core).held(second)
    }

    /// A core of the plan.
    pub fn core(&self, core: u8) -> &Core<C>
        requires { core < self.now.plan.cores }
        ensures me { result.now.me ≡ core }
        ensures plan { result.now.plan ≡ core_plan_of self.now.plan }
        ensures start { result.now.start ≡ self.now.plan.start }
        ensures seconds { (second : ℕ) → state_of result.now second ≡ (world_of C.image self.now).seconds core second }
    {
        self.nodes.core(core)
    }

    /// The signature of the request of this number, or none exactly if no closed round that has a response has such a
    /// request. It has at most 10,000 bytes.
    ///
    /// # Errors
    /// `NoMemory`.
    pub fn issued(&self, number: u64) -> Result<Option<Bytes>, NoMemory>
        ensures exact { IfOk result (λ found. found ≡ issued_of C.image (world_of C.image self.now) number) }
        ensures some { IfOk result (λ found. IfSome found (IsIssuedOf C.image (world_of C.image self.now) number)) }
        ensures none { IfOk result (λ found. IfNone found (NotIssuedOf (world_of C.image self.now) number)) }
        ensures short { IfOk result (λ found. IfSome found (λ bytes. length bytes ≤ 10000)) }
    {
        match self.nodes.asked(number) {
            Some(asked) => self.nodes.aggregator(asked.aggregator).issued(number),
            None => Ok(None),
        }
    }

    /// The kept seconds, rising from the start, all below 2^63: for each the root that the lowest core holds that holds
    /// one, and the sealed items of the lowest core whose candidate it is. A second with the zero imprint has no items. Any
    /// other has at least one and at most 65,536, whose leaves have levels to 239, and its root is the imprint of their tree.
    ///
    /// # Errors
    /// `NoMemory`.
    pub fn kept(&self) -> Result<Kept, NoMemory>
        ensures start { IfOk result (λ kept. kept.start ≡ self.now.plan.start) }
        ensures seconds { IfOk result (λ kept. kept.seconds ≡ kept_seconds C.image self.now.plan (world_of C.image self.now)) }
        ensures rising { IfOk result (λ kept. AreRising kept.start kept.seconds) }
        ensures early { IfOk result (λ kept. EachKept (λ one. one.second < 2 ^ 63) kept.seconds) }
        ensures trees { IfOk result (λ kept. EachKept (IsKept C.image) kept.seconds) }
    {
        steps_agree();
        let many = all_seconds();
        let seconds = self.nodes.kept(self.alloc, self.plan.start(), many)?;
        Ok(kept_under(&self.plan, seconds))
    }
}

/// How many seconds a plan has.
fn all_seconds() -> u64
    ensures { result ≡ 2 ^ 24 }
{
    PLAN_SECONDS
}
