//! All nodes, the wire between them, and what one event makes of them.
ghost use Rattle.std.specs.Prelude.{◌≡◌, ◌<◌, ◌+◌, ◌^◌, vec_len, vec_capacity, length, slice_get, Some, IfOk, OnErr};
ghost use Rattle.std.specs.Option.{option_copied};
ghost use Rattle.ksi_signature.specs.declared.above.Above.{Above};
ghost use Rattle.ksi_corenode.specs.Events.{event_second};
ghost use Rattle.ksi_world.specs.declared.message.Content.{Content};
ghost use Rattle.ksi_world.specs.declared.message.Message.{Message};
ghost use Rattle.ksi_schedule.specs.Plans.{PlanState, IsPlan};
ghost use Rattle.ksi_schedule.specs.Events.{AreEvents};
ghost use Rattle.ksi_world.specs.Histories.{asked_with, outcome_of, first_world};
ghost use Rattle.ksi_world.specs.Records.{kept_among};
ghost use Rattle.ksi_world.specs.Keeping.{second_among};
ghost use Rattle.ksi_world.specs.Nodes.{Fits, IsReady, IsReadyCore, IsTaken, IsWorld, Happened, TookTurn, WasTaken, StoodStill};

use crate::kept::kept_seconds;
use crate::letter::{Letter, letter_of};
use crate::outcome::{Asked, Outcome};
use crate::published::PublishedRoots;
use crate::wire::Wire;
use crate::{aggregators, cores};
use ksi_aggregator::Aggregator;
use ksi_aggtree::laws::one_round;
use ksi_aggtree::{Item, Name, Second};
use ksi_corenode::{Core, CoreEvent};
use ksi_imprint::{Compress, Imprint, NoMemory};
use ksi_schedule::{Actor, Event, Plan};
use ksi_signature::{Above, Answer};
use std::alloc::Global;
use std::marker::Model;

/// All nodes, all messages ever sent, the accepted requests, and what was published.
#[derive(Drop)]
pub(crate) struct Nodes<C: Compress> {
    cores: Vec<Core<C>>,
    aggregators: Vec<Aggregator<C>>,
    wire: Wire,
    requests: Vec<Asked>,
    published: PublishedRoots,
}

impl<C: Compress> Model for Nodes<C> {
    ghost use Rattle.ksi_world.specs.Nodes.{NodesState};

    ghost Value = { NodesState };

    ghost view = { λ n. record { cores = n.cores.items; aggregators = n.aggregators.items; wire = n.wire; requests = n.requests.items; published = n.published } };
}

impl<C: Compress> Nodes<C> {
    /// A core takes an event of a second.
    fn take(&mut self, core: u8, second: u64, event: CoreEvent) -> Result<Outcome, NoMemory>
        requires ready { (plan : PlanState) × IsReadyCore plan core event self.old }
        requires second { event_second event ≡ second }
        ensures ok { IfOk result (λ outcome. (plan : PlanState) → TookTurn C.image plan core second event self.old self.new outcome) }
        ensures err { OnErr result ((plan : PlanState) → StoodStill plan self.old self.new) }
    {
        cores::take(&mut self.cores, &mut self.wire, core, second, event)
    }

    /// A core restarts.
    fn restart_core(&mut self, core: u8) -> Outcome
        requires { (plan : PlanState) × IsReady plan (Event.RestartCore core) self.old }
        ensures { (plan : PlanState) → Happened C.image plan (Event.RestartCore core) self.old self.new result }
    {
        cores::restart(&mut self.cores, core);
        Outcome {
            answer: Answer::Done,
            sent: 0,
        }
    }

    /// An aggregator restarts.
    fn restart_aggregator(&mut self, aggregator: u32) -> Outcome
        requires { (plan : PlanState) × IsReady plan (Event.RestartAggregator aggregator) self.old }
        ensures { (plan : PlanState) → Happened C.image plan (Event.RestartAggregator aggregator) self.old self.new result }
    {
        aggregators::restart(&mut self.aggregators, aggregator);
        Outcome {
            answer: Answer::Done,
            sent: 0,
        }
    }

    /// An aggregator closes its round of a second.
    fn close(&mut self, plan: &Plan, aggregator: u32, second: u64) -> Result<Outcome, NoMemory>
        requires { IsReady plan.now (Event.Close aggregator second) self.old }
        ensures ok { IfOk result (Happened C.image plan.now (Event.Close aggregator second) self.old self.new) }
        ensures err { OnErr result (StoodStill plan.now self.old self.new) }
    {
        aggregators::close(
            plan,
            &mut self.aggregators,
            &mut self.wire,
            aggregator,
            second,
        )
    }

    /// An aggregator takes a request, whose number is how many were accepted before.
    fn request(
        &mut self,
        plan: &Plan,
        aggregator: u32,
        second: u64,
        imprint: Imprint,
        name: Option<Name>,
    ) -> Result<Outcome, NoMemory>
        requires { IsReady plan.now (Event.Request aggregator second imprint name) self.old }
        ensures ok { IfOk result (Happened C.image plan.now (Event.Request aggregator second imprint name) self.old self.new) }
        ensures err { OnErr result (StoodStill plan.now self.old self.new) }
    {
        let number = self.requests.len() as u64;
        self.requests.reserve(1)?;
        let outcome = aggregators::request(
            plan,
            &mut self.aggregators,
            &mut self.wire,
            aggregator,
            number,
            second,
            imprint,
            name,
        )?;
        let asked = Asked {
            aggregator,
            second,
            imprint,
        };
        accept(&mut self.requests, asked, &outcome.answer);
        Ok(outcome)
    }

    /// A core publishes the root of the calendar to a second.
    fn publish(&mut self, core: u8, second: u64) -> Result<Outcome, NoMemory>
        requires { (plan : PlanState) × IsReady plan (Event.Publish core second) self.old }
        ensures ok { IfOk result (λ outcome. (plan : PlanState) → Happened C.image plan (Event.Publish core second) self.old self.new outcome) }
        ensures err { OnErr result ((plan : PlanState) → StoodStill plan self.old self.new) }
    {
        let event = CoreEvent::Publish(second);
        let outcome = cores::take(&mut self.cores, &mut self.wire, core, second, event)?;
        self.published.put_answer(second, &outcome.answer)?;
        Ok(outcome)
    }

    /// An aggregator takes the item of another.
    fn item_to_aggregator(
        &mut self,
        plan: &Plan,
        from: u32,
        to: u32,
        second: u64,
        item: Item,
    ) -> Result<Outcome, NoMemory>
        requires { IsTaken plan.now (Actor.Aggregator from) (Actor.Aggregator to) second (Content.Submission item) self.old }
        ensures ok { IfOk result (WasTaken C.image plan.now (Actor.Aggregator from) (Actor.Aggregator to) second (Content.Submission item) self.old self.new) }
        ensures err { OnErr result (StoodStill plan.now self.old self.new) }
    {
        aggregators::submission(
            plan,
            &mut self.aggregators,
            &mut self.wire,
            from,
            to,
            second,
            item,
        )
    }

    /// An aggregator takes a response of the wire.
    fn response(
        &mut self,
        plan: &Plan,
        sender: Actor,
        to: u32,
        second: u64,
        number: usize,
    ) -> Result<Outcome, NoMemory>
        requires { (message : Message) × (above : Above) × (slice_get self.old.wire number ≡ Some message) × (message.content ≡ Content.Response above) × IsTaken plan.now sender (Actor.Aggregator to) second (Content.Response above) self.old }
        ensures ok { IfOk result (λ outcome. (message : Message) (above : Above) → slice_get self.old.wire number ≡ Some message → message.content ≡ Content.Response above →
            WasTaken C.image plan.now sender (Actor.Aggregator to) second (Content.Response above) self.old self.new outcome) }
        ensures err { OnErr result (StoodStill plan.now self.old self.new) }
    {
        aggregators::response(
            plan,
            &mut self.aggregators,
            &mut self.wire,
            to,
            second,
            number,
        )
    }

    /// The message of a number comes to its addressee.
    fn deliver(&mut self, plan: &Plan, number: u64) -> Result<Outcome, NoMemory>
        requires { IsReady plan.now (Event.Deliver number) self.old }
        ensures ok { IfOk result (Happened C.image plan.now (Event.Deliver number) self.old self.new) }
        ensures err { OnErr result (StoodStill plan.now self.old self.new) }
    {
        let number = number as usize;
        let Some(message) = self.wire.get(number) else {
            return Ok(nothing());
        };
        let sender = message.sender;
        let second = message.second;
        match letter_of(&message) {
            Letter::Vote(from, to, vote) => {
                self.take(to, second, CoreEvent::Receive(from, second, vote))
            }
            Letter::ToCore(from, to, item) => {
                self.take(to, second, CoreEvent::Submission(from, second, item))
            }
            Letter::ToAggregator(from, to, item) => {
                self.item_to_aggregator(plan, from, to, second, item)
            }
            Letter::Response(to) => self.response(plan, sender, to, second, number),
            Letter::None => Ok(nothing()),
        }
    }

    /// One event, whose row says what it makes of the nodes.
    pub fn happen(&mut self, plan: &Plan, event: &Event) -> Result<Outcome, NoMemory>
        requires { IsReady plan.now event.now self.old }
        ensures ok { IfOk result (Happened C.image plan.now event.now self.old self.new) }
        ensures err { OnErr result (StoodStill plan.now self.old self.new) }
    {
        match *event {
            Event::Request(aggregator, second, imprint, name) => {
                self.request(plan, aggregator, second, imprint, name)
            }
            Event::Close(aggregator, second) => self.close(plan, aggregator, second),
            Event::Seal(core, second) => self.take(core, second, CoreEvent::Seal(second)),
            Event::Ballot(core, second) => self.take(core, second, CoreEvent::Ballot(second)),
            Event::Deliver(number) => self.deliver(plan, number),
            Event::Tell(core, second) => self.take(core, second, CoreEvent::Tell(second)),
            Event::Respond(core, second) => self.take(core, second, CoreEvent::Respond(second)),
            Event::Publish(core, second) => self.publish(core, second),
            Event::RestartCore(core) => Ok(self.restart_core(core)),
            Event::RestartAggregator(aggregator) => Ok(self.restart_aggregator(aggregator)),
        }
    }

    /// All messages ever sent.
    pub fn wire(&self) -> &Wire
        ensures { result.now ≡ self.now.wire }
    {
        &self.wire
    }

    /// The accepted requests.
    pub fn requests(&self) -> &[Asked]
        ensures { result.now ≡ self.now.requests }
    {
        self.requests.as_slice()
    }

    /// The published seconds.
    pub fn published(&self) -> &PublishedRoots
        ensures { result.now ≡ self.now.published }
    {
        &self.published
    }

    /// A core that is there.
    pub fn core(&self, core: u8) -> &Core<C>
        requires { core < length self.now.cores }
        ensures { slice_get self.now.cores core ≡ Some result.now }
    {
        &self.cores[core as usize]
    }

    /// An aggregator that is there.
    pub fn aggregator(&self, aggregator: u32) -> &Aggregator<C>
        requires { aggregator < length self.now.aggregators }
        ensures { slice_get self.now.aggregators aggregator ≡ Some result.now }
    {
        &self.aggregators[aggregator as usize]
    }

    /// The accepted request of a number.
    pub fn asked(&self, number: u64) -> Option<&Asked>
        ensures { option_copied result ≡ slice_get self.now.requests number }
    {
        self.requests.get(number as usize)
    }

    /// The kept ones of this many seconds from the first one on, rising.
    pub fn kept(&self, alloc: Global, start: u64, many: u64) -> Result<Vec<Second>, NoMemory>
        requires { start + many < 2 ^ 64 }
        ensures { IfOk result (λ kept. kept.items ≡ kept_among (second_among C.image self.now.cores) start many) }
    {
        kept_seconds(alloc, &self.cores, start, many)
    }

    /// The nodes of a plan after these events.
    pub fn after(alloc: Global, plan: &Plan, events: &[Event]) -> Result<Self, NoMemory>
        requires plan { IsPlan plan.now }
        requires events { AreEvents plan.now events.now }
        ensures { IfOk result (IsWorld C.image plan.now events.now) }
    {
        one_round();
        let mut nodes = Nodes::new(alloc, plan)?;
        'events: for event in events {
            nodes.happen(plan, event)?;
        }
        Ok(nodes)
    }

    /// The nodes of a plan before anything happened.
    pub fn new(alloc: Global, plan: &Plan) -> Result<Self, NoMemory>
        ensures { IfOk result (Fits plan.now (first_world plan.now)) }
    {
        let cores = cores::new(alloc, plan)?;
        let aggregators = aggregators::new(alloc, plan)?;
        let wire = Wire::new(alloc);
        let requests = Vec::new(alloc);
        let published = PublishedRoots::new(alloc);
        Ok(Nodes {
            cores,
            aggregators,
            wire,
            requests,
            published,
        })
    }
}

/// No message was sent, and nothing was done.
fn nothing() -> Outcome
    ensures { result ≡ outcome_of Answer.Nothing 0 }
{
    Outcome {
        answer: Answer::Nothing,
        sent: 0,
    }
}

/// A request that got a number is accepted, where there is room.
fn accept(requests: &mut Vec<Asked>, asked: Asked, answer: &Answer)
    requires { vec_len requests.old < vec_capacity requests.old }
    ensures { requests.new.items ≡ asked_with requests.old.items asked answer.now }
{
    if let Answer::Number(_) = answer {
        requests.push_reserved(asked);
    }
}
