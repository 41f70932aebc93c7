// The first lines of entries.
ghost use Rattle.std.specs.Prelude.{◌≡◌, ◌<◌, ◌^◌, ◌++◌, ◌∷◌, [], OnOk};
ghost use Rattle.ksi_schedule.specs.Printed.{actor_word, line_of};
ghost use Rattle.ksi_schedule.specs.declared.actor.Actor.TheVariants as actors;
ghost use Rattle.ksi_wire.specs.Lines.{core_words};
ghost use Rattle.ksi_aggregator.specs.Events.{event_second};
ghost use Rattle.ksi_wire.specs.RoundLines.{round_words};
ghost use Rattle.ksi_records.specs.Entries.{came_after, came_text, line_words, given_words, head_words, IsEarly, IsEarlyGiven, IsEarlyHead};

use crate::blocks::{put_node, put_number};
use crate::head::{Given, Head};
use crate::version::Version;
use ksi_aggregator::RoundEvent;
use ksi_corenode::CoreEvent;
use ksi_imprint::NoMemory;
use ksi_schedule::{Actor, Event};
use ksi_wire::{put_core_event, put_round_event};
use std::alloc::Global;

/// The first line of an entry, with no line feed.
#[tactic(auto, using(crate::proofs::LineLemmas::given_spaced))]
pub(crate) fn put_head(alloc: Global, text: &mut Vec<u8>, head: &Head) -> Result<(), NoMemory>
    requires { IsEarlyHead head.now }
    ensures { OnOk result (text.new.items ≡ text.old.items ++ line_of (head_words head.now)) }
{
    match head {
        Head::Said(given) => put_given(alloc, text, given),
        Head::Unsaid(given) => {
            text.extend_from_slice(b"unsaid ")?;
            put_given(alloc, text, given)
        }
        Head::Restarted(actor) => {
            text.extend_from_slice(b"restart ")?;
            put_node(text, *actor)
        }
        Head::Sign(step) => {
            text.extend_from_slice(b"sign ")?;
            put_number(text, *step)
        }
    }
}

/// The line that came, after a space, if the entry has it.
pub(crate) fn put_came(
    text: &mut Vec<u8>,
    version: Version,
    head: &Head,
    came: &[u8],
) -> Result<(), NoMemory>
    ensures { OnOk result (text.new.items ≡ text.old.items ++ came_after version head.now came.now) }
{
    match head {
        Head::Said(given) => put_given_came(text, version, given, came),
        Head::Unsaid(given) => put_given_came(text, version, given, came),
        Head::Restarted(_) | Head::Sign(_) => Ok(()),
    }
}

fn put_given_came(
    text: &mut Vec<u8>,
    version: Version,
    given: &Given,
    came: &[u8],
) -> Result<(), NoMemory>
    ensures { OnOk result (text.new.items ≡ text.old.items ++ came_text version given.now came.now) }
{
    match given {
        Given::Line(_, _) => Ok(()),
        Given::Message(_, _) => match version {
            Version::One => Ok(()),
            Version::Two => {
                text.push(b' ')?;
                text.extend_from_slice(came)
            }
        },
    }
}

fn put_given(alloc: Global, text: &mut Vec<u8>, given: &Given) -> Result<(), NoMemory>
    requires { IsEarlyGiven given.now }
    ensures { OnOk result (text.new.items ≡ text.old.items ++ line_of (given_words given.now)) }
{
    match given {
        Given::Line(number, event) => put_line(alloc, text, *number, event),
        Given::Message(step, place) => {
            text.extend_from_slice(b"deliver ")?;
            put_number(text, *step)?;
            text.push(b' ')?;
            put_number(text, *place)
        }
    }
}

/// The node, and the line that it took; nothing of an event that is no line.
fn put_line(alloc: Global, text: &mut Vec<u8>, number: u64, event: &Event) -> Result<(), NoMemory>
    requires { IsEarly event.now }
    ensures { OnOk result (text.new.items ≡ text.old.items ++ line_of (line_words number event.now)) }
{
    match event {
        Event::Request(k, t, imprint, name) => {
            let line = RoundEvent::Request(number, *t, *imprint, *name);
            put_to_aggregator(alloc, text, *k, &line)
        }
        Event::Close(k, t) => put_to_aggregator(alloc, text, *k, &RoundEvent::Close(*t)),
        Event::Seal(j, t) => put_to_core(text, *j, &CoreEvent::Seal(*t)),
        Event::Ballot(j, t) => put_to_core(text, *j, &CoreEvent::Ballot(*t)),
        Event::Tell(j, t) => put_to_core(text, *j, &CoreEvent::Tell(*t)),
        Event::Respond(j, t) => put_to_core(text, *j, &CoreEvent::Respond(*t)),
        Event::Publish(j, t) => put_to_core(text, *j, &CoreEvent::Publish(*t)),
        Event::Deliver(_) | Event::RestartCore(_) | Event::RestartAggregator(_) => Ok(()),
    }
}

fn put_to_core(text: &mut Vec<u8>, core: u8, event: &CoreEvent) -> Result<(), NoMemory>
    ensures { OnOk result (text.new.items ≡ text.old.items ++ actor_word (actors.Core core) ++ 32 ∷ line_of (core_words event.now)) }
{
    put_node(text, Actor::Core(core))?;
    text.push(b' ')?;
    put_core_event(text, event)
}

fn put_to_aggregator(
    alloc: Global,
    text: &mut Vec<u8>,
    aggregator: u32,
    event: &RoundEvent,
) -> Result<(), NoMemory>
    requires { event_second event.now < 2 ^ 63 }
    ensures { OnOk result (text.new.items ≡ text.old.items ++ actor_word (actors.Aggregator aggregator) ++ 32 ∷ line_of (round_words event.now)) }
{
    put_node(text, Actor::Aggregator(aggregator))?;
    text.push(b' ')?;
    put_round_event(alloc, text, event)
}
