//! Messages as they are stored: what was said once each, and to whom which of it was sent.
ghost use Rattle.std.specs.Prelude.{◌≡◌, ◌<◌, ◌≤◌, ◌+◌, ◌++◌, ◌∷◌, [], List, IsTrue, IfSome, Some, length, option_map, slice_get, vec_len, vec_capacity, OnOk};
ghost use Rattle.ksi_world.specs.declared.posted.Said as once;
ghost use Rattle.ksi_world.specs.Messages.{lent_message};

use crate::message::{Content, LentMessage, Message};
use crate::same::is_same_content;
use ksi_imprint::NoMemory;
use ksi_schedule::Actor;
use std::alloc::Global;
use std::collections::BTreeMap;
use std::marker::Model;

/// What was said: by whom, about which second, and what.
#[derive(Drop)]
struct Said {
    sender: Actor,
    second: u64,
    content: Content,
}

/// To whom what was said at this place was sent.
#[derive(Clone, Copy)]
struct Sent {
    addressee: Actor,
    said: usize,
}

/// Where the same may have been said before: it is compared before it is sent again.
#[derive(Drop)]
struct Hints {
    /// Where what was said last stands.
    last: usize,
    /// Where the responses of a core for a second begin.
    responses: BTreeMap<(u8, u64), usize>,
}

/// All messages, and room for more. A contract sees their list, and how many more there is room for.
#[derive(Drop)]
pub(crate) struct Posted {
    said: Vec<Said>,
    sent: Vec<Sent>,
    room: usize,
    hints: Hints,
}

impl Model for Posted {
    ghost use Rattle.std.specs.Prelude.{◌≤◌, ◌+◌, vec_len, vec_capacity};
    ghost use Rattle.ksi_world.specs.Messages.{PostedState, messages_in, AreSaid};

    ghost Value = { PostedState };

    ghost view = { λ p. record { messages = messages_in p.said.items p.sent.items; room = p.room } };

    ghost invariant = { λ p. AreSaid p.said.items p.sent.items × (vec_len p.said + p.room ≤ vec_capacity p.said) × (vec_len p.sent + p.room ≤ vec_capacity p.sent) };
}

impl Posted {
    /// No messages, and no room.
    pub(crate) fn new(alloc: Global) -> Self
        ensures { result ≡ record { messages = []; room = 0 } }
    {
        Posted {
            said: Vec::new(alloc),
            sent: Vec::new(alloc),
            room: 0,
            hints: Hints {
                last: 0,
                responses: BTreeMap::new(alloc),
            },
        }
    }

    /// How many messages there are.
    pub(crate) fn len(&self) -> usize
        ensures { result ≡ length self.now.messages }
    {
        self.sent.len()
    }

    /// The message of a number.
    pub(crate) fn get(&self, number: usize) -> Option<LentMessage<'_>>
        ensures { option_map lent_message result ≡ slice_get self.now.messages number }
    {
        let Some(sent) = self.sent.get(number) else {
            return None;
        };
        let said = &self.said[sent.said];
        Some(LentMessage {
            sender: said.sender,
            addressee: sent.addressee,
            second: said.second,
            content: &said.content,
        })
    }

    /// Makes room for this many messages.
    pub(crate) fn reserve(&mut self, many: usize) -> Result<(), NoMemory>
        ensures messages { self.new.messages ≡ self.old.messages }
        ensures room { OnOk result (self.new.room ≡ many) }
    {
        self.said.reserve(many)?;
        self.sent.reserve(many)?;
        self.room = many;
        Ok(())
    }

    /// Puts a message behind the others, where there is room.
    pub(crate) fn push(&mut self, message: Message)
        requires { 0 < self.old.room }
        ensures messages { self.new.messages ≡ self.old.messages ++ message ∷ [] }
        ensures room { self.new.room + 1 ≡ self.old.room }
    {
        let Message {
            sender,
            addressee,
            second,
            content,
        } = message;
        let said = Said {
            sender,
            second,
            content,
        };
        let place = say(&mut self.said, &mut self.hints, said);
        self.sent.push_reserved(Sent {
            addressee,
            said: place,
        });
        self.room -= 1;
    }
}

/// The place of what is said: where it was said before, if that is found, or else behind all, where there is room.
fn say(said: &mut Vec<Said>, hints: &mut Hints, new: Said) -> usize
    requires { vec_len said.old < vec_capacity said.old }
    ensures place { slice_get said.new.items result ≡ Some new }
    ensures kept { (more : List once.Said) × (said.new.items ≡ said.old.items ++ more) }
    ensures len { vec_len said.new ≤ vec_len said.old + 1 }
    ensures capacity { vec_capacity said.new ≡ vec_capacity said.old }
{
    let place = match said_before(said.as_slice(), hints, &new) {
        Some(place) => place,
        None => {
            let place = said.len();
            note(hints, &new, place);
            said.push_reserved(new);
            place
        }
    };
    hints.last = place;
    place
}

/// Where the same was said before: last, or behind it, or where the sender's responses begin.
fn said_before(said: &[Said], hints: &Hints, new: &Said) -> Option<usize>
    ensures { IfSome result (λ place. slice_get said.now place ≡ Some new.now) }
{
    let last = hints.last;
    if stands_at(said, last, new) {
        return Some(last);
    }
    let next = last.saturating_add(1);
    if stands_at(said, next, new) {
        return Some(next);
    }
    let first = *hints.responses.get(&responder(new)?)?;
    if stands_at(said, first, new) {
        Some(first)
    } else {
        None
    }
}

/// Whether the same was said at a place.
fn stands_at(said: &[Said], place: usize, new: &Said) -> bool
    ensures { IsTrue result → slice_get said.now place ≡ Some new.now }
{
    match said.get(place) {
        Some(old) => {
            old.sender == new.sender
                && old.second == new.second
                && is_same_content(&old.content, &new.content)
        }
        None => false,
    }
}

/// Notes where the responses of a core for a second begin. Without memory for it nothing is noted.
fn note(hints: &mut Hints, new: &Said, place: usize) {
    let Some(responder) = responder(new) else {
        return;
    };
    if !hints.responses.contains_key(&responder) {
        let _ = hints.responses.insert(responder, place);
    }
}

/// The core that responds, and its second.
fn responder(said: &Said) -> Option<(u8, u64)> {
    match (said.sender, &said.content) {
        (Actor::Core(core), Content::Response(_)) => Some((core, said.second)),
        _ => None,
    }
}
