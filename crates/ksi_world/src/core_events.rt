//! What events ask of a core, one event after the other.
ghost use Rattle.std.specs.Prelude.{◌≡◌, ℕ, List, Some, None, true, false};
ghost use Rattle.ksi_corenode.specs.CoreState.{CoreState, state_of, IsTurn};
ghost use Rattle.ksi_corenode.specs.Events.{core_row, event_second, IsAsked, MayTake};
ghost use Rattle.ksi_corenode.specs.Rows.{restart_row};
ghost use Rattle.ksi_corenode.specs.declared.event.CoreEvent as asked;
ghost use Rattle.ksi_corenode.specs.declared.step.Step.{Step};
ghost use Rattle.ksi_schedule.specs.Plans.{PlanState, IsPlan};
ghost use Rattle.ksi_schedule.specs.Events.{AreEvents, IsEvent};
ghost use Rattle.ksi_schedule.specs.declared.event.Event as happened;
ghost use Rattle.ksi_world.specs.Histories.{WorldState, after, happens, world_of};
ghost use Rattle.ksi_world.specs.Nodes.{core_turn, IsCore};
ghost use Rattle.ksi_world.specs.CoreEvents.{asked_by_content, asked_of, is_restart_of, where_mine};

use crate::World;
use crate::message::{Content, LentMessage};
use crate::wire::Wire;
use ksi_aggtree::laws::one_round;
use ksi_corenode::CoreEvent;
use ksi_imprint::Compress;
use ksi_schedule::{Actor, Event};

impl<C: Compress> World<C> {
    /// What an event asks of a core, where it happens next.
    pub fn asked_of(&self, core: u8, event: &Event) -> Option<CoreEvent>
        ensures { result ≡ asked_of core (world_of C.image self.now).wire event.now }
    {
        asked_of(core, self.wire(), event)
    }
}

fn asked_of(core: u8, wire: &Wire, event: &Event) -> Option<CoreEvent>
    ensures { result ≡ asked_of core wire.now event.now }
{
    match *event {
        Event::Seal(j, t) => where_mine(core, j, CoreEvent::Seal(t)),
        Event::Ballot(j, t) => where_mine(core, j, CoreEvent::Ballot(t)),
        Event::Deliver(number) => match wire.get(number as usize) {
            None => None,
            Some(message) => asked_by(core, &message),
        },
        Event::Tell(j, t) => where_mine(core, j, CoreEvent::Tell(t)),
        Event::Respond(j, t) => where_mine(core, j, CoreEvent::Respond(t)),
        Event::Publish(j, t) => where_mine(core, j, CoreEvent::Publish(t)),
        _ => None,
    }
}

/// What a message asks of a core.
fn asked_by(core: u8, message: &LentMessage<'_>) -> Option<CoreEvent>
    ensures { result ≡ asked_by_content core message.now.sender message.now.addressee message.now.second message.now.content.now }
{
    let Actor::Core(to) = message.addressee else {
        return None;
    };
    let second = message.second;
    match (message.sender, message.content) {
        (Actor::Core(from), Content::Synod(vote)) => {
            where_mine(core, to, CoreEvent::Receive(from, second, *vote))
        }
        (Actor::Aggregator(from), Content::Submission(item)) => {
            where_mine(core, to, CoreEvent::Submission(from, second, *item))
        }
        _ => None,
    }
}

/// What is asked of the other core is asked of this one where they are one.
fn where_mine(core: u8, other: u8, event: CoreEvent) -> Option<CoreEvent>
    ensures { result ≡ where_mine core other event }
{
    if core == other { Some(event) } else { None }
}
