ghost use Rattle.std.specs.Prelude.{◌≡◌, ◌<◌, ◌≤◌, ◌++◌, ◌∷◌, [], true, length, IfSome, OnOk, OnErr};
ghost use Rattle.ksi_synod.specs.CorePlans.{has_room, AreVoters};
ghost use Rattle.ksi_schedule.specs.Plans.{IsParent, InRange, core_plan_of};
ghost use Rattle.ksi_schedule.specs.Members.{with_members};
ghost use Rattle.ksi_schedule.specs.Events.{IsEvent, AreEvents, with_event};
ghost use Rattle.ksi_schedule.specs.Schedules.{IsSchedule};
ghost use Rattle.ksi_schedule.specs.Lines.{reaches_core, with_parent};
ghost use Rattle.ksi_aggtree.specs.Names.{IsName};

use crate::event::Event;
use crate::growing::{add_voters, push_parent};
use crate::parent::Parent;
use crate::plan::Plan;
use ksi_imprint::NoMemory;
use ksi_synod::Voters;
use std::marker::Model;

/// Events in order. A contract sees the list.
#[derive(Drop)]
pub struct Events {
    events: Vec<Event>,
}

impl Model for Events {
    ghost use Rattle.std.specs.Prelude.{List};
    ghost use Rattle.ksi_schedule.specs.declared.event.Event as event;

    ghost Value = { List event.Event };

    ghost view = { λ events. events.events.items };
}

impl Events {
    /// These events, which are not copied.
    pub fn from_vec(events: Vec<Event>) -> Self
        ensures { result ≡ events.items }
    {
        Events { events }
    }

    /// The events in order.
    pub fn as_slice(&self) -> &[Event]
        ensures { result.now ≡ self.now }
    {
        self.events.as_slice()
    }

    /// The events in a `Vec`, which are not copied.
    pub fn into_vec(self) -> Vec<Event>
        ensures { result.items ≡ self }
    {
        let Events { events } = self;
        events
    }

    fn push(&mut self, event: Event) -> Result<(), NoMemory>
        ensures ok { OnOk result (self.new ≡ self.old ++ event ∷ []) }
        ensures err { OnErr result (self.new ≡ self.old) }
    {
        self.events.extend_from_slice(&[event])
    }
}

/// A plan, and the events that are to happen.
///
/// There are at most 1,000,000 events. The actor of each is one of the plan's, and its second is one of the 2^24 seconds
/// from the plan's start on; any message may be delivered.
#[derive(Drop)]
pub struct Schedule {
    plan: Plan,
    events: Events,
}

impl Model for Schedule {
    ghost use Rattle.ksi_schedule.specs.Events.{History};
    ghost use Rattle.ksi_schedule.specs.Schedules.{IsSchedule};

    ghost Value = { History };

    ghost view = { λ schedule. record { plan = schedule.plan; events = schedule.events } };

    ghost invariant = { λ schedule. IsSchedule (record { plan = schedule.plan; events = schedule.events }) };
}

impl Schedule {
    /// The schedule of a plan and its events, which are not copied.
    pub fn new(plan: Plan, events: Events) -> Self
        requires each { AreEvents plan events }
        requires few { length events ≤ 1000000 }
        ensures { result ≡ record { plan = plan; events = events } }
    {
        Schedule { plan, events }
    }

    pub fn plan(&self) -> &Plan
        ensures plan { result.now ≡ self.now.plan }
        ensures limits { IsSchedule self.now }
    {
        &self.plan
    }

    /// The events in order.
    pub fn events(&self) -> &[Event]
        ensures events { result.now ≡ self.now.events }
        ensures limits { IsSchedule self.now }
    {
        self.events.as_slice()
    }

    /// The plan and the events, which are not copied.
    pub fn into_parts(self) -> (Plan, Events)
        ensures plan { result.0 ≡ self.plan }
        ensures events { result.1 ≡ self.events }
        ensures limits { IsSchedule self }
    {
        let Schedule { plan, events } = self;
        (plan, events)
    }

    /// From the second on these vote.
    pub(crate) fn add_voters(&mut self, second: u64, voters: &Voters)
        requires none { self.old.events ≡ [] }
        requires alone { self.old.plan.parents ≡ [] }
        requires room { has_room (core_plan_of self.old.plan) second ≡ true }
        requires second { InRange self.old.plan second }
        requires voters { AreVoters self.old.plan.cores voters.now }
        ensures { self.new ≡ record { plan = with_members self.old.plan (record { second = second; voters = voters.now }); events = self.old.events } }
    {
        add_voters(&mut self.plan, second, voters);
    }

    /// One aggregator more.
    pub(crate) fn push_parent(&mut self, parent: Parent) -> Result<(), NoMemory>
        requires none { self.old.events ≡ [] }
        requires room { length self.old.plan.parents < 4096 }
        requires there { IsParent self.old.plan.cores (length self.old.plan.parents) parent.actor }
        requires named { IfSome parent.name IsName }
        requires low { reaches_core self.old.plan 7 parent.actor ≡ true }
        ensures ok { OnOk result (self.new ≡ record { plan = with_parent self.old.plan parent; events = self.old.events }) }
        ensures err { OnErr result (self.new ≡ self.old) }
    {
        push_parent(&mut self.plan, parent)
    }

    /// One event more.
    pub(crate) fn push_event(&mut self, event: Event) -> Result<(), NoMemory>
        requires room { length self.old.events < 1000000 }
        requires there { IsEvent self.old.plan event }
        ensures ok { OnOk result (self.new ≡ with_event self.old event) }
        ensures err { OnErr result (self.new ≡ self.old) }
    {
        self.events.push(event)
    }
}
