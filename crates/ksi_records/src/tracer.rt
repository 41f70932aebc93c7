ghost use Rattle.std.specs.Prelude.{◌≡◌, ◌<◌, ◌^◌, ◌+◌, [], ◌↔◌, length, take, IfErr, IfOk, IfSome, IsSome, IsTrue, OnOk};
ghost use Rattle.ksi_schedule.specs.Events.{with_event, AreEvents, IsEvent};
ghost use Rattle.ksi_schedule.specs.Plans.{IsPlan};
ghost use Rattle.ksi_world.specs.Histories.{after, happens, world_of};
ghost use Rattle.ksi_records.specs.Entries.{restart_of, IsGiven, IsHead};
ghost use Rattle.ksi_schedule.specs.Pieces.{Text};
ghost use Rattle.ksi_records.specs.declared.head.Head.TheVariants as heads;
ghost use Rattle.ksi_records.specs.Marks.{mark_of};
ghost use Rattle.ksi_records.specs.Steps.{IsAnswer, IsRefusal};
ghost use Rattle.ksi_records.specs.Told.{answer_as, event_of, with_head, sent_before, accepted_before, AreEarly, HasCome, IsMessageLine, IsSent, IsAccepted, IsMissing, IsNamed, IsUnaccepted, IsUnnamed};

use crate::fault::RecordFault;
use crate::head::{Given, Head};
use crate::mark::Mark;
use crate::telling::{answer_as, block, is, is_block, is_line_of, signature_block};
use crate::version::Version;
use ksi_imprint::{Bytes, Compress, NoMemory, Refused};
use ksi_schedule::{Actor, Event, Plan};
use ksi_signature::Answer;
use ksi_world::{Outcome, Wire, World};
use std::alloc::Global;
use std::marker::Model;

/// What came of an entry.
#[derive(Drop)]
pub enum Told {
    /// Its block is what the world says, and the line that came is the message's.
    Agrees,
    /// Its block, or the line that came, is another.
    Differs,
    /// A step whose reply was lost agrees with any world. The world's block of it is here.
    Unsaid(Bytes),
}

/// The world after the entries of a record so far. A contract sees its history.
#[derive(Drop)]
pub struct Tracer<C: Compress> {
    alloc: Global,
    world: World<C>,
    marks: Vec<Mark>,
}

impl<C: Compress> Model for Tracer<C> {
    ghost use Rattle.std.specs.Prelude.{◌≡◌};
    ghost use Rattle.ksi_schedule.specs.Events.{History};
    ghost use Rattle.ksi_world.specs.Histories.{first_world};
    ghost use Rattle.ksi_records.specs.Marks.{marks_from};

    ghost Value = { History };

    ghost view = { λ tracer. tracer.world };

    ghost invariant = { λ tracer. tracer.marks.items ≡ marks_from C.image tracer.world.plan (first_world tracer.world.plan) tracer.world.events };
}

impl<C: Compress> Tracer<C> {
    /// The world of a plan before anything happened.
    ///
    /// # Errors
    /// `NoMemory`: nothing is made.
    pub fn new(alloc: Global, plan: &Plan) -> Result<Tracer<C>, NoMemory>
        ensures { IfOk result (λ tracer. tracer ≡ record { plan = plan.now; events = [] }) }
    {
        let world = World::new(alloc, plan)?;
        let mut marks = Vec::new(alloc);
        marks.push(mark(&world))?;
        Ok(Tracer {
            alloc,
            world,
            marks,
        })
    }

    /// How many steps there were.
    pub fn steps(&self) -> usize
        ensures count { result ≡ length self.now.events }
        ensures allowed { AreEvents self.now.plan self.now.events }
        ensures few { length self.now.events < 2 ^ 64 }
        ensures plan { IsPlan self.now.plan }
    {
        // a fact of each world: its plan is one
        self.world.plan();
        self.world.events().len()
    }

    /// The world takes what an entry's first line says. The answer is whether the block is what the world says to it, and the
    /// line that came is the message's.
    ///
    /// # Errors
    /// `Message`, `Request`: the line names no message and no request. `NoMemory`.
    pub fn take(
        &mut self,
        version: Version,
        head: &Head,
        came: &[u8],
        block: &[u8],
    ) -> Result<Told, Refused<RecordFault>>
        requires { IsHead self.old.plan head.now }
        ensures answer { IfOk result (IsAnswer C.image self.old.plan version self.old.events head.now came.now block.now) }
        ensures refused { IfErr result (IsRefusal (IsMissing C.image self.old.plan self.old.events head.now)) }
        ensures events { OnOk result (self.new ≡ record { plan = self.old.plan; events = with_head C.image self.old.plan self.old.events head.now }) }
    {
        match head {
            Head::Said(given) => self.said(version, given, came, block),
            Head::Unsaid(given) => self.unsaid(version, given, came, block),
            Head::Restarted(actor) => self.restarted(*actor, block),
            Head::Sign(step) => self.signed(*step, block),
        }
    }

    /// A step, whose block is here.
    fn said(
        &mut self,
        version: Version,
        given: &Given,
        came: &[u8],
        said: &[u8],
    ) -> Result<Told, Refused<RecordFault>>
        requires { IsGiven self.old.plan given.now }
        ensures answer { IfOk result (IsAnswer C.image self.old.plan version self.old.events (heads.Said given.now) came.now said.now) }
        ensures refused { IfErr result (IsRefusal (IsUnnamed C.image self.old.plan self.old.events given.now)) }
        ensures events { OnOk result (self.new ≡ record { plan = self.old.plan; events = with_head C.image self.old.plan self.old.events (heads.Said given.now) }) }
    {
        let has_come = self.has_come(version, given, came)?;
        let (before, answer) = self.step(given)?;
        if !has_come {
            return Ok(Told::Differs);
        }
        if is_block(self.alloc, &answer, self.wire(), before, said)? {
            Ok(Told::Agrees)
        } else {
            Ok(Told::Differs)
        }
    }

    /// A step whose reply was lost.
    fn unsaid(
        &mut self,
        version: Version,
        given: &Given,
        came: &[u8],
        said: &[u8],
    ) -> Result<Told, Refused<RecordFault>>
        requires { IsGiven self.old.plan given.now }
        ensures answer { IfOk result (IsAnswer C.image self.old.plan version self.old.events (heads.Unsaid given.now) came.now said.now) }
        ensures refused { IfErr result (IsRefusal (IsUnnamed C.image self.old.plan self.old.events given.now)) }
        ensures events { OnOk result (self.new ≡ record { plan = self.old.plan; events = with_head C.image self.old.plan self.old.events (heads.Unsaid given.now) }) }
    {
        let has_come = self.has_come(version, given, came)?;
        let (before, answer) = self.step(given)?;
        if !has_come {
            return Ok(Told::Differs);
        }
        if !said.is_empty() {
            return Ok(Told::Differs);
        }
        let text = block(self.alloc, &answer, false, self.wire(), before)?;
        Ok(Told::Unsaid(Bytes::from_vec(text)))
    }

    /// A node was started again.
    fn restarted(&mut self, actor: Actor, said: &[u8]) -> Result<Told, Refused<RecordFault>>
        requires { IsEvent self.old.plan (restart_of actor) }
        ensures answer { (version : Version) (came : Text) → IfOk result (IsAnswer C.image self.old.plan version self.old.events (heads.Restarted actor) came said.now) }
        ensures refused { IfErr result (IsRefusal (λ fault. ⊥)) }
        ensures events { OnOk result (self.new ≡ record { plan = self.old.plan; events = with_head C.image self.old.plan self.old.events (heads.Restarted actor) }) }
    {
        self.happen(restart_of(actor))?;
        if said.is_empty() {
            Ok(Told::Agrees)
        } else {
            Ok(Told::Differs)
        }
    }

    /// The answer to whoever asked for the signature of the request that a step accepted.
    fn signed(&self, step: u64, said: &[u8]) -> Result<Told, Refused<RecordFault>>
        ensures answer { (version : Version) (came : Text) → IfOk result (IsAnswer C.image self.now.plan version self.now.events (heads.Sign step) came said.now) }
        ensures refused { IfErr result (IsRefusal (IsUnaccepted C.image self.now.plan self.now.events step)) }
    {
        let Some(number) = self.request_number(step) else {
            return Err(Refused::Fault(RecordFault::Request));
        };
        let found = self.world.issued(number)?;
        let text = signature_block(self.alloc, &found)?;
        if is(said, &text) {
            Ok(Told::Agrees)
        } else {
            Ok(Told::Differs)
        }
    }

    /// Whether the line that came is that of the message that is named. Version 1 does not have the line.
    fn has_come(&self, version: Version, given: &Given, came: &[u8]) -> Result<bool, NoMemory>
        ensures { IfOk result (λ has_come. IsNamed C.image self.now.plan self.now.events given.now →
            (IsTrue has_come ↔ HasCome C.image self.now.plan version self.now.events given.now came.now)) }
    {
        match version {
            Version::One => Ok(true),
            Version::Two => match given {
                Given::Line(_, _) => Ok(true),
                Given::Message(step, place) => self.is_line(*step, *place, came),
            },
        }
    }

    /// Whether a line is that of a message that a step sent.
    fn is_line(&self, step: u64, place: u64, came: &[u8]) -> Result<bool, NoMemory>
        ensures { IfOk result (λ is_line. IsSent C.image self.now.plan self.now.events step place →
            (IsTrue is_line ↔ IsMessageLine (world_of C.image self.now).wire (sent_before C.image self.now.plan self.now.events step + place) came.now)) }
    {
        match self.message_number(step, place) {
            Some(number) => is_line_of(self.alloc, self.wire(), number, came),
            None => Ok(false),
        }
    }

    /// The step of what was given: how many messages there were before it, and its answer.
    fn step(&mut self, given: &Given) -> Result<(usize, Answer), Refused<RecordFault>>
        requires { IsGiven self.old.plan given.now }
        ensures named { OnOk result (IsNamed C.image self.old.plan self.old.events given.now) }
        ensures event { OnOk result (self.new ≡ with_event self.old (event_of C.image self.old.plan self.old.events given.now)) }
        ensures before { IfOk result (λ came. came.0 ≡ length (world_of C.image self.old).wire) }
        ensures answer { IfOk result (λ came. came.1 ≡ answer_as given.now (happens C.image self.old.plan (world_of C.image self.old) (event_of C.image self.old.plan self.old.events given.now)).outcome.answer) }
        ensures refused { IfErr result (IsRefusal (IsUnnamed C.image self.old.plan self.old.events given.now)) }
    {
        let Some(event) = self.event_of(given) else {
            return Err(Refused::Fault(RecordFault::Message));
        };
        let (before, outcome) = self.happen(event)?;
        Ok((before, answer_as(given, outcome.answer)))
    }

    /// The event that a line or a message is.
    fn event_of(&self, given: &Given) -> Option<Event>
        requires { IsGiven self.now.plan given.now }
        ensures event { IfSome result (λ event. event ≡ event_of C.image self.now.plan self.now.events given.now) }
        ensures there { IfSome result (IsEvent self.now.plan) }
        ensures named { IsSome result ↔ IsNamed C.image self.now.plan self.now.events given.now }
    {
        match given {
            Given::Line(_, event) => Some(*event),
            Given::Message(step, place) => {
                let number = self.message_number(*step, *place)?;
                Some(Event::Deliver(number))
            }
        }
    }

    /// The number of a message that a step sent.
    fn message_number(&self, step: u64, place: u64) -> Option<u64>
        ensures number { IfSome result (λ number. number ≡ sent_before C.image self.now.plan self.now.events step + place) }
        ensures sent { IsSome result ↔ IsSent C.image self.now.plan self.now.events step place }
    {
        let (begin, end) = self.around(step)?;
        let first = begin.messages as u64;
        if place < (end.messages as u64).saturating_sub(first) {
            Some(first + place)
        } else {
            None
        }
    }

    /// The number of the request that a step accepted.
    fn request_number(&self, step: u64) -> Option<u64>
        ensures number { IfSome result (λ number. number ≡ accepted_before C.image self.now.plan self.now.events step) }
        ensures accepted { IsSome result ↔ IsAccepted C.image self.now.plan self.now.events step }
    {
        let (begin, end) = self.around(step)?;
        if begin.requests < end.requests {
            Some(begin.requests as u64)
        } else {
            None
        }
    }

    /// How many messages and requests there were before a step and after it, if it is one of those so far.
    fn around(&self, step: u64) -> Option<(Mark, Mark)>
        ensures there { IsSome result ↔ (step < length self.now.events) }
        ensures before { IfSome result (λ marks. marks.0 ≡ mark_of (after C.image self.now.plan (take step self.now.events))) }
        ensures after { IfSome result (λ marks. marks.1 ≡ mark_of (after C.image self.now.plan (take (step + 1) self.now.events))) }
    {
        let place = step as usize;
        let marks = self.marks.as_slice();
        if place >= marks.len() || marks.len() - place < 2 {
            return None;
        }
        Some((marks[place], marks[place + 1]))
    }

    /// All messages ever sent.
    fn wire(&self) -> &Wire
        ensures wire { result.now ≡ (world_of C.image self.now).wire }
        ensures early { AreEarly result.now }
    {
        // facts of each world: its plan is one, and its events are the plan's
        self.world.plan();
        self.world.events();
        self.world.wire()
    }

    /// One event: how many messages there were before it, and what came of it.
    fn happen(&mut self, event: Event) -> Result<(usize, Outcome), NoMemory>
        requires { IsEvent self.old.plan event }
        ensures event { OnOk result (self.new ≡ with_event self.old event) }
        ensures before { IfOk result (λ came. came.0 ≡ length (world_of C.image self.old).wire) }
        ensures outcome { IfOk result (λ came. came.1 ≡ (happens C.image self.old.plan (world_of C.image self.old) event).outcome) }
    {
        let before = self.world.wire().len();
        self.marks.reserve(1)?;
        let outcome = self.world.step(event)?;
        self.marks.push_reserved(mark(&self.world));
        Ok((before, outcome))
    }
}

/// How many messages and requests there are.
fn mark<C: Compress>(world: &World<C>) -> Mark
    ensures { result ≡ mark_of (world_of C.image world.now) }
{
    Mark {
        messages: world.wire().len(),
        requests: world.requests().len(),
    }
}

fn restart_of(actor: Actor) -> Event
    ensures { result ≡ restart_of actor }
{
    match actor {
        Actor::Core(core) => Event::RestartCore(core),
        Actor::Aggregator(aggregator) => Event::RestartAggregator(aggregator),
    }
}
