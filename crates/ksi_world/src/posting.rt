//! What is sent stands behind the messages of the wire.
ghost use Rattle.std.specs.Prelude.{◌≡◌, ◌≤◌, ◌<◌, ◌++◌, map, length};
ghost use Rattle.ksi_world.specs.Histories.{core_message, round_message, outcome_of};

use crate::message::{Content, Message};
use crate::outcome::Outcome;
use crate::posted::Posted;
use ksi_schedule::{Actor, Plan};

/// Puts what a core sent in a second behind the messages, where there is room.
pub(crate) fn post_core(
    posted: &mut Posted,
    core: u8,
    second: u64,
    step: ksi_corenode::Step,
) -> Outcome
    requires room { length step.sends ≤ posted.old.room }
    ensures messages { posted.new.messages ≡ posted.old.messages ++ map (core_message core second) step.sends }
    ensures outcome { result ≡ outcome_of step.answer (length step.sends) }
{
    let ksi_corenode::Step {
        answer,
        fact: _,
        sends,
    } = step;
    let sends = sends.into_vec();
    let sent = sends.len();
    'posting: for send in sends {
        posted.push(core_message(core, second, send));
    }
    Outcome { answer, sent }
}

/// Puts what an aggregator of the plan sent in a second behind the messages, where there is room.
pub(crate) fn post_round(
    plan: &Plan,
    posted: &mut Posted,
    aggregator: u32,
    second: u64,
    step: ksi_aggregator::Step,
) -> Outcome
    requires there { aggregator < length plan.now.parents }
    requires room { length step.sends ≤ posted.old.room }
    ensures messages { posted.new.messages ≡ posted.old.messages ++ map (round_message plan.now aggregator second) step.sends }
    ensures outcome { result ≡ outcome_of step.answer (length step.sends) }
{
    let ksi_aggregator::Step {
        answer,
        fact: _,
        sends,
    } = step;
    let sends = sends.into_vec();
    let sent = sends.len();
    'posting: for send in sends {
        posted.push(round_message(plan, aggregator, second, send));
    }
    Outcome { answer, sent }
}

/// The message of a core's send.
fn core_message(core: u8, second: u64, send: ksi_corenode::Send) -> Message
    ensures { result ≡ core_message core second send }
{
    let sender = Actor::Core(core);
    match send {
        ksi_corenode::Send::Synod(to, message) => Message {
            sender,
            addressee: Actor::Core(to),
            second,
            content: Content::Synod(message),
        },
        ksi_corenode::Send::Response(to, above) => Message {
            sender,
            addressee: Actor::Aggregator(to),
            second,
            content: Content::Response(above),
        },
    }
}

/// The message of an aggregator's send: a submission goes to its parent, with the aggregator's name where it has one.
fn round_message(plan: &Plan, aggregator: u32, second: u64, send: ksi_aggregator::Send) -> Message
    requires there { aggregator < length plan.now.parents }
    ensures { result ≡ round_message plan.now aggregator second send }
{
    let sender = Actor::Aggregator(aggregator);
    match send {
        ksi_aggregator::Send::Submission(item) => Message {
            sender,
            addressee: plan.parent(aggregator),
            second,
            content: Content::Submission(item.with_name(plan.name(aggregator))),
        },
        ksi_aggregator::Send::Response(to, above) => Message {
            sender,
            addressee: Actor::Aggregator(to),
            second,
            content: Content::Response(above),
        },
    }
}
