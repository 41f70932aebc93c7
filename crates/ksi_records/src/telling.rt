//! What a world says to an event, and to whoever asks for a signature.
ghost use Rattle.std.specs.Prelude.{◌≡◌, ◌++◌, ◌∷◌, [], ◌<◌, ◌^◌, true, Bool, codes, drop, map, OnOk, IfOk, IsTrue, ◌↔◌};
ghost use Rattle.ksi_schedule.specs.Printed.{line_of, text_of_lines};
ghost use Rattle.ksi_wire.specs.Steps.{step_text, stored_lines};
ghost use Rattle.ksi_records.specs.Told.{answer_as, signature_block, AreEarly, IsMessageLine};
ghost use Rattle.ksi_records.specs.Texts.{message_words};
ghost use Rattle.ksi_world.specs.Messages.{lent_message};

use crate::head::Given;
use ksi_corenode::CoreEvent;
use ksi_imprint::{Bytes, NoMemory};
use ksi_schedule::Actor;
use ksi_signature::Answer;
use ksi_wire::{put_answer, put_core_event, put_response, put_to};
use ksi_world::{Content, LentMessage, Wire};
use memchr::memchr;
use std::alloc::Global;

/// A request's number is that which it had in the run.
pub(crate) fn answer_as(given: &Given, answer: Answer) -> Answer
    ensures { result ≡ answer_as given.now answer }
{
    match (given, answer) {
        (Given::Line(number, _), Answer::Number(_)) => Answer::Number(*number),
        _ => answer,
    }
}

/// Whether a text is the block of an answer and of the messages from this number on, with or without the line that says that a fact
/// was stored.
pub(crate) fn is_block(
    alloc: Global,
    answer: &Answer,
    wire: &Wire,
    before: usize,
    said: &[u8],
) -> Result<bool, NoMemory>
    requires { AreEarly wire.now }
    ensures { IfOk result (λ is_told. IsTrue is_told ↔ ((stored : Bool) × (said.now ≡ step_text answer.now stored (map message_words (drop before wire.now))))) }
{
    let stored = is_stored(said);
    if is(said, &block(alloc, answer, stored, wire, before)?) {
        return Ok(true);
    }
    Ok(is(said, &block(alloc, answer, !stored, wire, before)?))
}

/// Whether two texts are one.
pub(crate) fn is(one: &[u8], other: &[u8]) -> bool
    ensures { IsTrue result ↔ (one.now ≡ other.now) }
{
    one == other
}

/// The block of an answer, of whether a fact was stored, and of the messages from this number on.
pub(crate) fn block(
    alloc: Global,
    answer: &Answer,
    is_stored: bool,
    wire: &Wire,
    before: usize,
) -> Result<Vec<u8>, NoMemory>
    requires { AreEarly wire.now }
    ensures { IfOk result (λ text. text.items ≡ step_text answer.now is_stored (map message_words (drop before wire.now))) }
{
    let mut text = Vec::new(alloc);
    put_answer(&mut text, answer)?;
    put_stored(&mut text, is_stored)?;
    put_messages(alloc, &mut text, wire, before)?;
    text.extend_from_slice(b".\n")?;
    Ok(text)
}

/// The line that says that a fact was stored, where one was.
fn put_stored(text: &mut Vec<u8>, is_stored: bool) -> Result<(), NoMemory>
    ensures { OnOk result (text.new.items ≡ text.old.items ++ text_of_lines (stored_lines is_stored)) }
{
    if is_stored {
        text.extend_from_slice(b"stored\n")?;
    }
    Ok(())
}

/// The lines of the messages from this number on.
fn put_messages(
    alloc: Global,
    text: &mut Vec<u8>,
    wire: &Wire,
    before: usize,
) -> Result<(), NoMemory>
    requires { AreEarly wire.now }
    ensures { OnOk result (text.new.items ≡ text.old.items ++ text_of_lines (map message_words (drop before wire.now))) }
{
    'telling: for number in before..wire.len() {
        match wire.get(number) {
            Some(message) => put_message(alloc, text, &message)?,
            None => unreachable!(),
        }
    }
    Ok(())
}

/// The line of a message.
fn put_message(alloc: Global, text: &mut Vec<u8>, message: &LentMessage<'_>) -> Result<(), NoMemory>
    requires { message.now.second < 2 ^ 63 }
    ensures { OnOk result (text.new.items ≡ text.old.items ++ (line_of (message_words (lent_message message.now)) ++ 10 ∷ [])) }
{
    let second = message.second;
    put_to(text, message.addressee)?;
    match message.content {
        Content::Synod(vote) => match message.sender {
            Actor::Core(from) => {
                put_core_event(text, &CoreEvent::Receive(from, second, *vote))?;
            }
            Actor::Aggregator(_) => {}
        },
        Content::Submission(item) => match message.sender {
            Actor::Aggregator(from) => {
                put_core_event(text, &CoreEvent::Submission(from, second, *item))?;
            }
            Actor::Core(_) => {}
        },
        Content::Response(above) => put_response(alloc, text, second, above)?,
    }
    text.push(b'\n')?;
    Ok(())
}

/// Whether a line is that of the message of a number: the addressee, and what it is sent.
pub(crate) fn is_line_of(
    alloc: Global,
    wire: &Wire,
    number: u64,
    came: &[u8],
) -> Result<bool, NoMemory>
    requires { AreEarly wire.now }
    ensures { IfOk result (λ is_line. IsTrue is_line ↔ IsMessageLine wire.now number came.now) }
{
    match wire.get(number as usize) {
        Some(message) => is_message(alloc, &message, came),
        None => Ok(false),
    }
}

/// Whether the line of a message is `send`, and then this.
#[tactic(auto, using(crate::proofs::MessageLemmas::same_lines))]
fn is_message(alloc: Global, message: &LentMessage<'_>, came: &[u8]) -> Result<bool, NoMemory>
    requires { message.now.second < 2 ^ 63 }
    ensures { IfOk result (λ is_message. IsTrue is_message ↔ (line_of (message_words (lent_message message.now)) ≡ codes "send " ++ came.now)) }
{
    let mut sent = Vec::new(alloc);
    put_message(alloc, &mut sent, message)?;
    let mut line = Vec::new(alloc);
    line.extend_from_slice(b"send ")?;
    line.extend_from_slice(came)?;
    line.push(b'\n')?;
    Ok(is(sent.as_slice(), line.as_slice()))
}

/// The block of a signature, or of none.
pub(crate) fn signature_block(alloc: Global, found: &Option<Bytes>) -> Result<Vec<u8>, NoMemory>
    ensures { IfOk result (λ text. text.items ≡ signature_block found.now) }
{
    let mut text = Vec::new(alloc);
    match found {
        Some(bytes) => {
            text.extend_from_slice(b"signature ")?;
            let digits = hex::encode(alloc, bytes.as_slice())?;
            text.extend_from_slice(digits.as_bytes())?;
        }
        None => text.extend_from_slice(b"not issued")?,
    }
    text.extend_from_slice(b"\n.\n")?;
    Ok(text)
}

/// Whether a block says that a fact was stored.
fn is_stored(block: &[u8]) -> bool {
    match memchr(b'\n', block) {
        Some(place) => {
            let (_, rest) = block.split_at(place);
            rest.starts_with(b"\nstored\n")
        }
        None => false,
    }
}
