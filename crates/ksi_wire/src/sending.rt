// The lines of what nodes send: `send`, the addressee, and the line that it takes.
ghost use Rattle.std.specs.Prelude.{◌≡◌, ◌<◌, ◌^◌, ◌++◌, ◌∷◌, [], codes, length, map, IfOk, OnOk};
ghost use Rattle.ksi_schedule.specs.Printed.{actor_word, line_of, text_of_lines};
ghost use Rattle.ksi_wire.specs.Steps.{answer_words, core_send_words, round_send_words, core_step_text, round_step_text, stored_lines};

use crate::answers::put_answer;
use crate::printing::{put_core_event, put_response};
use itoa::Buffer;
use ksi_corenode::{CoreEvent, Step};
use ksi_imprint::NoMemory;
use ksi_schedule::{Actor, Plan};
use ksi_signature::Answer;
use std::alloc::Global;

/// `send`, and the word of an actor.
pub fn put_to(text: &mut Vec<u8>, actor: Actor) -> Result<(), NoMemory>
    ensures { OnOk result (text.new.items ≡ text.old.items ++ (codes "send" ++ 32 ∷ actor_word actor ++ 32 ∷ [])) }
{
    let (letter, number) = match actor {
        Actor::Core(j) => (b'c', u64::from(j)),
        Actor::Aggregator(k) => (b'a', u64::from(k)),
    };
    text.extend_from_slice(b"send ")?;
    text.push(letter)?;
    let mut digits = Buffer::new();
    text.extend_from_slice(digits.format(number).as_bytes())?;
    text.push(b' ')?;
    Ok(())
}

/// The line of what a core sends.
fn put_core_send(
    alloc: Global,
    text: &mut Vec<u8>,
    me: u8,
    second: u64,
    send: &ksi_corenode::Send,
) -> Result<(), NoMemory>
    requires { second < 2 ^ 63 }
    ensures { OnOk result (text.new.items ≡ text.old.items ++ (line_of (core_send_words me second send.now) ++ 10 ∷ [])) }
{
    match send {
        ksi_corenode::Send::Synod(to, message) => {
            put_to(text, Actor::Core(*to))?;
            put_core_event(text, &CoreEvent::Receive(me, second, *message))?;
        }
        ksi_corenode::Send::Response(to, above) => {
            put_to(text, Actor::Aggregator(*to))?;
            put_response(alloc, text, second, above)?;
        }
    }
    text.push(b'\n')?;
    Ok(())
}

/// The lines of what a core sends in a second.
fn put_core_sends(
    alloc: Global,
    text: &mut Vec<u8>,
    me: u8,
    second: u64,
    sends: &[ksi_corenode::Send],
) -> Result<(), NoMemory>
    requires { second < 2 ^ 63 }
    ensures { OnOk result (text.new.items ≡ text.old.items ++ text_of_lines (map (core_send_words me second) sends.now)) }
{
    'sending: for send in sends {
        put_core_send(alloc, text, me, second, send)?;
    }
    Ok(())
}

/// The lines of a step of a core: its answer, whether a fact was stored, what is sent, and a full stop.
pub fn core_step_text(alloc: Global, me: u8, second: u64, step: &Step) -> Result<Vec<u8>, NoMemory>
    requires { second < 2 ^ 63 }
    ensures { IfOk result (λ text. text.items ≡ core_step_text me second step.now) }
{
    let mut text = Vec::new(alloc);
    put_front(&mut text, &step.answer, step.fact.is_some())?;
    put_core_sends(alloc, &mut text, me, second, step.sends.as_slice())?;
    text.extend_from_slice(b".\n")?;
    Ok(text)
}

/// The lines of an answer, and of whether a fact was stored.
fn put_front(text: &mut Vec<u8>, answer: &Answer, is_stored: bool) -> Result<(), NoMemory>
    ensures { OnOk result (text.new.items ≡ text.old.items ++ text_of_lines ((codes "answer" ∷ answer_words answer.now) ∷ []) ++ text_of_lines (stored_lines is_stored)) }
{
    put_answer(text, answer)?;
    put_stored(text, is_stored)
}

/// The line that says that a fact was stored, where one was.
fn put_stored(text: &mut Vec<u8>, is_stored: bool) -> Result<(), NoMemory>
    ensures { OnOk result (text.new.items ≡ text.old.items ++ text_of_lines (stored_lines is_stored)) }
{
    if is_stored {
        text.extend_from_slice(b"stored\n")?;
    }
    Ok(())
}

/// The line of what an aggregator of the plan sends.
fn put_round_send(
    alloc: Global,
    text: &mut Vec<u8>,
    plan: &Plan,
    me: u32,
    second: u64,
    send: &ksi_aggregator::Send,
) -> Result<(), NoMemory>
    requires there { me < length plan.now.parents }
    requires second { second < 2 ^ 63 }
    ensures { OnOk result (text.new.items ≡ text.old.items ++ (line_of (round_send_words plan.now me second send.now) ++ 10 ∷ [])) }
{
    match send {
        ksi_aggregator::Send::Submission(item) => {
            put_to(text, plan.parent(me))?;
            let item = item.with_name(plan.name(me));
            put_core_event(text, &CoreEvent::Submission(me, second, item))?;
        }
        ksi_aggregator::Send::Response(to, above) => {
            put_to(text, Actor::Aggregator(*to))?;
            put_response(alloc, text, second, above)?;
        }
    }
    text.push(b'\n')?;
    Ok(())
}

/// The lines of what an aggregator of the plan sends in a second.
fn put_round_sends(
    alloc: Global,
    text: &mut Vec<u8>,
    plan: &Plan,
    me: u32,
    second: u64,
    sends: &[ksi_aggregator::Send],
) -> Result<(), NoMemory>
    requires there { me < length plan.now.parents }
    requires second { second < 2 ^ 63 }
    ensures { OnOk result (text.new.items ≡ text.old.items ++ text_of_lines (map (round_send_words plan.now me second) sends.now)) }
{
    'sending: for send in sends {
        put_round_send(alloc, text, plan, me, second, send)?;
    }
    Ok(())
}

/// The lines of what came of an event of an aggregator, as those of a step of a core.
pub fn round_step_text(
    alloc: Global,
    plan: &Plan,
    me: u32,
    second: u64,
    answer: &Answer,
    is_stored: bool,
    sends: &[ksi_aggregator::Send],
) -> Result<Vec<u8>, NoMemory>
    requires there { me < length plan.now.parents }
    requires second { second < 2 ^ 63 }
    ensures { IfOk result (λ text. text.items ≡ round_step_text plan.now me second answer.now is_stored sends.now) }
{
    let mut text = Vec::new(alloc);
    put_front(&mut text, answer, is_stored)?;
    put_round_sends(alloc, &mut text, plan, me, second, sends)?;
    text.extend_from_slice(b".\n")?;
    Ok(text)
}
