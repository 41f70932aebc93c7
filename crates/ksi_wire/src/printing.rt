// The lines of events.
ghost use Rattle.std.specs.Prelude.{◌≡◌, ◌<◌, ◌^◌, ◌++◌, ◌∷◌, [], codes, OnOk};
ghost use Rattle.std.specs.Fmt.{decimal};
ghost use Rattle.ksi_schedule.specs.Printed.{hex_of, name_words, spaced, line_of};
ghost use Rattle.ksi_aggregator.specs.Events.{event_second};
ghost use Rattle.ksi_wire.specs.RoundLines.{round_words, short};
ghost use Rattle.ksi_wire.specs.Responses.{above_text};
ghost use Rattle.ksi_wire.specs.Lines.{core_words, vote_words, last_words, item_words};

use crate::above::above_text;
use crate::event::ShortEvent;
use itoa::Buffer;
use ksi_aggregator::RoundEvent;
use ksi_aggtree::{Item, Name};
use ksi_corenode::CoreEvent;
use ksi_imprint::{Imprint, NoMemory};
use ksi_signature::Above;
use ksi_synod::{LastVote, SynodMessage};
use std::alloc::Global;

/// A word, behind a space.
pub(crate) fn put_word(text: &mut Vec<u8>, word: &[u8]) -> Result<(), NoMemory>
    ensures { OnOk result (text.new.items ≡ text.old.items ++ 32 ∷ word.now) }
{
    text.push(b' ')?;
    text.extend_from_slice(word)?;
    Ok(())
}

/// A number in decimal, behind a space.
pub(crate) fn put_number(text: &mut Vec<u8>, n: u64) -> Result<(), NoMemory>
    ensures { OnOk result (text.new.items ≡ text.old.items ++ 32 ∷ decimal n) }
{
    let mut buffer = Buffer::new();
    put_word(text, buffer.format(n).as_bytes())
}

/// A digest in hex, behind a space.
pub(crate) fn put_imprint(text: &mut Vec<u8>, imprint: &Imprint) -> Result<(), NoMemory>
    ensures { OnOk result (text.new.items ≡ text.old.items ++ 32 ∷ hex_of imprint.now) }
{
    let mut digits = [0; 64];
    imprint.write_hex(&mut digits);
    put_word(text, &digits)
}

fn put_name(text: &mut Vec<u8>, name: &Option<Name>) -> Result<(), NoMemory>
    ensures { OnOk result (text.new.items ≡ text.old.items ++ spaced (name_words name.now)) }
{
    match name {
        None => Ok(()),
        Some(name) => put_word(text, name.as_bytes()),
    }
}

/// The words of an item, each behind a space.
pub(crate) fn put_item(text: &mut Vec<u8>, item: &Item) -> Result<(), NoMemory>
    ensures { OnOk result (text.new.items ≡ text.old.items ++ spaced (item_words item.now)) }
{
    put_imprint(text, &item.imprint)?;
    put_number(text, u64::from(item.level))?;
    put_name(text, &item.name)
}

/// A first word and two numbers.
pub(crate) fn put_front(text: &mut Vec<u8>, name: &[u8], one: u64, two: u64) -> Result<(), NoMemory>
    ensures { OnOk result (text.new.items ≡ text.old.items ++ line_of (name.now ∷ decimal one ∷ decimal two ∷ [])) }
{
    text.extend_from_slice(name)?;
    put_number(text, one)?;
    put_number(text, two)
}

pub(crate) fn put_of_second(text: &mut Vec<u8>, name: &[u8], second: u64) -> Result<(), NoMemory>
    ensures { OnOk result (text.new.items ≡ text.old.items ++ line_of (name.now ∷ decimal second ∷ [])) }
{
    text.extend_from_slice(name)?;
    put_number(text, second)
}

/// The words of a message of the vote, each behind a space.
fn put_vote(text: &mut Vec<u8>, message: &SynodMessage) -> Result<(), NoMemory>
    ensures { OnOk result (text.new.items ≡ text.old.items ++ spaced (vote_words message.now)) }
{
    match message {
        SynodMessage::NextBallot(ballot) => {
            put_word(text, b"next")?;
            put_number(text, *ballot)
        }
        SynodMessage::LastVote(last) => put_last(text, last),
        SynodMessage::BeginBallot(ballot, decree) => {
            put_word(text, b"begin")?;
            put_number(text, *ballot)?;
            put_imprint(text, decree)
        }
        SynodMessage::Voted(ballot) => {
            put_word(text, b"voted")?;
            put_number(text, *ballot)
        }
        SynodMessage::Success(decree) => {
            put_word(text, b"success")?;
            put_imprint(text, decree)
        }
    }
}

fn put_last(text: &mut Vec<u8>, last: &LastVote) -> Result<(), NoMemory>
    ensures { OnOk result (text.new.items ≡ text.old.items ++ spaced (last_words last.now)) }
{
    put_word(text, b"last")?;
    put_number(text, last.ballot)?;
    match &last.vote {
        None => Ok(()),
        Some(vote) => {
            put_number(text, vote.ballot)?;
            put_imprint(text, &vote.imprint)
        }
    }
}

/// The line of what comes to a core, with no line feed.
pub fn put_core_event(text: &mut Vec<u8>, event: &CoreEvent) -> Result<(), NoMemory>
    ensures { OnOk result (text.new.items ≡ text.old.items ++ line_of (core_words event.now)) }
{
    match event {
        CoreEvent::Submission(from, second, item) => { put_submission(text, *from, *second, item) }
        CoreEvent::Seal(second) => put_of_second(text, b"seal", *second),
        CoreEvent::Ballot(second) => put_of_second(text, b"ballot", *second),
        CoreEvent::Receive(from, second, message) => {
            put_front(text, b"synod", u64::from(*from), *second)?;
            put_vote(text, message)
        }
        CoreEvent::Tell(second) => put_of_second(text, b"tell", *second),
        CoreEvent::Respond(second) => put_of_second(text, b"respond", *second),
        CoreEvent::Publish(second) => put_of_second(text, b"publish", *second),
    }
}

/// The line of what comes to an aggregator, with no line feed.
pub fn put_round_event(
    alloc: Global,
    text: &mut Vec<u8>,
    event: &RoundEvent,
) -> Result<(), NoMemory>
    requires { event_second event.now < 2 ^ 63 }
    ensures { OnOk result (text.new.items ≡ text.old.items ++ line_of (round_words event.now)) }
{
    match event {
        RoundEvent::Request(number, second, imprint, name) => {
            put_request(text, *number, *second, imprint, name)
        }
        RoundEvent::Submission(from, second, item) => put_submission(text, *from, *second, item),
        RoundEvent::Close(second) => put_of_second(text, b"close", *second),
        RoundEvent::Response(second, above) => put_response(alloc, text, *second, above),
    }
}

/// The line of an event without a response.
pub(crate) fn put_short(text: &mut Vec<u8>, event: &ShortEvent) -> Result<(), NoMemory>
    ensures { OnOk result (text.new.items ≡ text.old.items ++ line_of (round_words (short event.now))) }
{
    match event {
        ShortEvent::Request(number, second, imprint, name) => {
            put_request(text, *number, *second, imprint, name)
        }
        ShortEvent::Submission(from, second, item) => put_submission(text, *from, *second, item),
        ShortEvent::Close(second) => put_of_second(text, b"close", *second),
    }
}

/// The line that asks for a signature.
pub(crate) fn put_sign(text: &mut Vec<u8>, number: u64) -> Result<(), NoMemory>
    ensures { OnOk result (text.new.items ≡ text.old.items ++ line_of (codes "sign" ∷ decimal number ∷ [])) }
{
    put_of_second(text, b"sign", number)
}

fn put_submission(text: &mut Vec<u8>, from: u32, second: u64, item: &Item) -> Result<(), NoMemory>
    ensures { OnOk result (text.new.items ≡ text.old.items ++ line_of (codes "submission" ∷ decimal from ∷ decimal second ∷ item_words item.now)) }
{
    put_front(text, b"submission", u64::from(from), second)?;
    put_item(text, item)
}

fn put_request(
    text: &mut Vec<u8>,
    number: u64,
    second: u64,
    imprint: &Imprint,
    name: &Option<Name>,
) -> Result<(), NoMemory>
    ensures { OnOk result (text.new.items ≡ text.old.items ++ line_of (codes "request" ∷ decimal number ∷ decimal second ∷ hex_of imprint.now ∷ name_words name.now)) }
{
    put_front(text, b"request", number, second)?;
    put_imprint(text, imprint)?;
    put_name(text, name)
}

/// The line of a response: the path from the round of a second to the root.
pub fn put_response(
    alloc: Global,
    text: &mut Vec<u8>,
    second: u64,
    above: &Above,
) -> Result<(), NoMemory>
    requires { second < 2 ^ 63 }
    ensures { OnOk result (text.new.items ≡ text.old.items ++ line_of (codes "response" ∷ decimal second ∷ above_text second above.now ∷ [])) }
{
    put_of_second(text, b"response", second)?;
    let word = above_text(alloc, second, above)?;
    put_word(text, word.as_slice())
}
