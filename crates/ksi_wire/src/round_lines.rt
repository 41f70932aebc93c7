// The lines to an aggregator.
ghost use Rattle.std.specs.Prelude.{◌≡◌, ◌<◌, ◌^◌, List, Ok, IfOk};
ghost use Rattle.ksi_schedule.specs.Pieces.{Text};
ghost use Rattle.ksi_schedule.specs.Plans.{PlanState, InRange};
ghost use Rattle.ksi_schedule.specs.Printed.{line_of};
ghost use Rattle.ksi_schedule.specs.Reading.{words_left};
ghost use Rattle.ksi_wire.specs.RoundLines.{asked_words, short, FitsRound, IsToldIn, MayBeTaken};
ghost use Rattle.ksi_wire.specs.Asked.{short_in, if_spelled, Answers, Reads};
ghost use Rattle.ksi_wire.specs.AskedRounds.{aggregator_line_of, event_in, response_in, response_of, sign_in};

use crate::above::{above_said, above_text};
use crate::cursor::{Words, is};
use crate::event::{AggregatorLine, ShortEvent};
use crate::fault::WireFault;
use crate::parts::{item, lower, name, second};
use crate::printing::{put_of_second, put_short, put_sign, put_word};
use ksi_aggregator::RoundEvent;
use ksi_imprint::Refused;
use ksi_schedule::{Actor, Plan};
use std::alloc::Global;

/// What a line asks of an aggregator of the plan. Each printed line of an event that may come to it is taken
/// ([`printed_lines_are_taken`](crate::laws::printed_lines_are_taken)).
///
/// # Errors
/// The first fault of the words from the left, or `Spelling` where the line is not just as what it asks is printed.
/// `NoMemory`.
#[tactic(auto, unfolding(crate::specs::AskedRounds::aggregator_line_of))]
pub fn aggregator_line(
    alloc: Global,
    plan: &Plan,
    me: u32,
    line: &[u8],
) -> Result<AggregatorLine, Refused<WireFault>>
    ensures exact { Answers (aggregator_line_of plan.now me line.now) result }
    ensures text { IfOk result (λ told. line.now ≡ line_of (asked_words told)) }
    ensures may { IfOk result MayBeTaken }
    ensures told { IfOk result (IsToldIn plan.now) }
{
    let mut words = Words::new(line);
    let kind = match words.next_word() {
        Ok(kind) => kind,
        Err(fault) => return Err(Refused::Fault(fault)),
    };
    if is(kind, b"sign") {
        sign(alloc, line, words)
    } else if is(kind, b"response") {
        response(alloc, plan, line, words)
    } else {
        event(alloc, plan, me, line, kind, words)
    }
}

/// The signature of a request is asked for.
fn sign(alloc: Global, line: &[u8], words: Words<'_>) -> Result<AggregatorLine, Refused<WireFault>>
    ensures exact { Answers (if_spelled asked_words line.now (sign_in (words_left words.entry.left))) result }
    ensures text { IfOk result (λ told. line.now ≡ line_of (asked_words told)) }
    ensures may { IfOk result MayBeTaken }
    ensures told { (plan : PlanState) → IfOk result (IsToldIn plan) }
{
    let mut words = words;
    let number = match words.number() {
        Ok(number) => number,
        Err(fault) => return Err(Refused::Fault(fault)),
    };
    let mut again = Vec::new(alloc);
    put_sign(&mut again, number)?;
    if is(again.as_slice(), line) {
        Ok(AggregatorLine::Sign(number))
    } else {
        Err(Refused::Fault(WireFault::Spelling))
    }
}

/// An event without a response, behind its first word.
fn event(
    alloc: Global,
    plan: &Plan,
    me: u32,
    line: &[u8],
    kind: &[u8],
    words: Words<'_>,
) -> Result<AggregatorLine, Refused<WireFault>>
    ensures exact { Answers (if_spelled asked_words line.now (event_in plan.now me kind.now (words_left words.entry.left))) result }
    ensures text { IfOk result (λ told. line.now ≡ line_of (asked_words told)) }
    ensures may { IfOk result MayBeTaken }
    ensures told { IfOk result (IsToldIn plan.now) }
{
    let mut words = words;
    let event = match short_event(plan, me, kind, &mut words) {
        Ok(event) => event,
        Err(fault) => return Err(Refused::Fault(fault)),
    };
    let mut again = Vec::new(alloc);
    put_short(&mut again, &event)?;
    if is(again.as_slice(), line) {
        Ok(AggregatorLine::Event(short(event)))
    } else {
        Err(Refused::Fault(WireFault::Spelling))
    }
}

/// An event without a response, whose words may be followed by others.
fn short_event(
    plan: &Plan,
    me: u32,
    kind: &[u8],
    words: &mut Words<'_>,
) -> Result<ShortEvent, WireFault>
    ensures read { Reads (short_in plan.now me kind.now (words_left words.old.left)) result (words_left words.new.left) }
    ensures fits { IfOk result (λ event. FitsRound (short event)) }
{
    if is(kind, b"request") {
        let number = words.number()?;
        let second = second(plan, words)?;
        let imprint = words.imprint()?;
        Ok(ShortEvent::Request(number, second, imprint, name(words)?))
    } else if is(kind, b"submission") {
        let from = lower(plan, Actor::Aggregator(me), words)?;
        let second = second(plan, words)?;
        let item = item(plan, from, words)?;
        Ok(ShortEvent::Submission(from, second, item))
    } else if is(kind, b"close") {
        Ok(ShortEvent::Close(second(plan, words)?))
    } else {
        Err(WireFault::Word)
    }
}

/// The event.
fn short(event: ShortEvent) -> RoundEvent
    ensures { result ≡ short event }
{
    match event {
        ShortEvent::Request(number, second, imprint, name) => {
            RoundEvent::Request(number, second, imprint, name)
        }
        ShortEvent::Submission(from, second, item) => RoundEvent::Submission(from, second, item),
        ShortEvent::Close(second) => RoundEvent::Close(second),
    }
}

/// The path above the round of a second, behind the first word.
fn response(
    alloc: Global,
    plan: &Plan,
    line: &[u8],
    words: Words<'_>,
) -> Result<AggregatorLine, Refused<WireFault>>
    ensures exact { Answers (if_spelled asked_words line.now (response_in plan.now (words_left words.entry.left))) result }
    ensures text { IfOk result (λ told. line.now ≡ line_of (asked_words told)) }
    ensures may { IfOk result MayBeTaken }
    ensures told { IfOk result (IsToldIn plan.now) }
{
    let mut words = words;
    let second = match second(plan, &mut words) {
        Ok(second) => second,
        Err(fault) => return Err(Refused::Fault(fault)),
    };
    let word = match words.next_word() {
        Ok(word) => word,
        Err(fault) => return Err(Refused::Fault(fault)),
    };
    spelled(alloc, line, second, word)
}

/// The response that a word makes, where the line is just as it is printed.
fn spelled(
    alloc: Global,
    line: &[u8],
    second: u64,
    word: &[u8],
) -> Result<AggregatorLine, Refused<WireFault>>
    requires { second < 2 ^ 63 }
    ensures exact { (rest : List Text) → Answers (if_spelled asked_words line.now (response_of second word.now rest)) result }
    ensures text { IfOk result (λ told. line.now ≡ line_of (asked_words told)) }
    ensures may { IfOk result MayBeTaken }
    ensures told { (plan : PlanState) → InRange plan second → IfOk result (IsToldIn plan) }
{
    let above = match above_said(alloc, word) {
        Ok(above) => above,
        Err(refused) => return Err(refused),
    };
    let text = above_text(alloc, second, &above)?;
    let mut again = Vec::new(alloc);
    put_of_second(&mut again, b"response", second)?;
    put_word(&mut again, text.as_slice())?;
    if is(again.as_slice(), line) {
        Ok(AggregatorLine::Event(RoundEvent::Response(second, above)))
    } else {
        Err(Refused::Fault(WireFault::Spelling))
    }
}
