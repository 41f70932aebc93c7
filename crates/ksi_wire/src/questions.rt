// A question to a core, which changes nothing.
ghost use Rattle.std.specs.Prelude.{◌≡◌, ◌<◌, ◌≤◌, ◌^◌, ◌++◌, IfOk, OnOk};
ghost use Rattle.ksi_schedule.specs.Pieces.{words};
ghost use Rattle.ksi_schedule.specs.Printed.{line_of};
ghost use Rattle.ksi_schedule.specs.Reading.{words_left};
ghost use Rattle.ksi_wire.specs.Asked.{Answers, Reads};
ghost use Rattle.ksi_wire.specs.Questions.{asks, chain_of, chain_words, core_line_of, ends_in, held_of, held_words, span_in, AsksOwned, IsSpan, MayBeAsked};

use crate::core_lines::core_event;
use crate::cursor::{Words, is};
use crate::fault::WireFault;
use crate::parts::second;
use crate::printing::put_front;
use ksi_corenode::CoreEvent;
use ksi_imprint::{NoMemory, Refused};
use ksi_schedule::Plan;
use std::alloc::Global;

// Of how many seconds at most a core tells what it has.
const MOST_SECONDS: u64 = 1024;

/// A number of seconds, from one on.
#[derive(Clone, Copy, PartialEq, Eq, Debug)]
pub struct Span {
    pub from: u64,
    pub count: u64,
}

/// A second, and the last one of a calendar.
#[derive(Clone, Copy, PartialEq, Eq, Debug)]
pub struct ChainEnds {
    pub from: u64,
    pub to: u64,
}

/// A line to a core.
#[derive(Clone, Copy, PartialEq, Eq, Debug)]
pub enum CoreLine {
    Event(CoreEvent),
    /// The roots that are held and the items that were sealed for these seconds are asked for.
    Held(Span),
    /// The chain from a second to the root of a calendar is asked for.
    Chain(ChainEnds),
}

/// What a line asks of a core of the plan: an event, what it has, or a chain.
///
/// # Errors
/// As [`core_event`], and of a question the first fault of its words, or `Spelling`.
pub fn core_line(
    alloc: Global,
    plan: &Plan,
    me: u8,
    line: &[u8],
) -> Result<CoreLine, Refused<WireFault>>
    ensures exact { Answers (core_line_of plan.now me line.now) result }
    ensures may { IfOk result (MayBeAsked plan.now) }
    ensures owned { IfOk result (AsksOwned plan.now.cores) }
{
    if asks(b"held", line) {
        match held(alloc, plan, line) {
            Ok(span) => Ok(CoreLine::Held(span)),
            Err(refused) => Err(refused),
        }
    } else if asks(b"chain", line) {
        match chain(alloc, plan, line) {
            Ok(ends) => Ok(CoreLine::Chain(ends)),
            Err(refused) => Err(refused),
        }
    } else {
        match core_event(alloc, plan, me, line) {
            Ok(event) => Ok(CoreLine::Event(event)),
            Err(refused) => Err(refused),
        }
    }
}

/// Whether the first word of a line is this one.
fn asks(kind: &[u8], line: &[u8]) -> bool
    ensures { result ≡ asks kind.now (words line.now) }
{
    match Words::new(line).next_if_any() {
        Some(word) => is(word, kind),
        None => false,
    }
}

/// The seconds that a line asks for.
#[tactic(auto, unfolding(crate::specs::Questions::held_of))]
fn held(alloc: Global, plan: &Plan, line: &[u8]) -> Result<Span, Refused<WireFault>>
    ensures exact { Answers (held_of plan.now line.now) result }
    ensures may { IfOk result IsSpan }
{
    let mut words = Words::new(line);
    let span = match any_span(plan, &mut words) {
        Ok(span) => span,
        Err(fault) => return Err(Refused::Fault(fault)),
    };
    let mut again = Vec::new(alloc);
    put_held(&mut again, &span)?;
    if is(again.as_slice(), line) {
        Ok(span)
    } else {
        Err(Refused::Fault(WireFault::Spelling))
    }
}

/// The seconds of a line whose words may be followed by others.
fn any_span(plan: &Plan, words: &mut Words<'_>) -> Result<Span, WireFault>
    ensures read { Reads (span_in plan.now (words_left words.old.left)) result (words_left words.new.left) }
    ensures may { IfOk result IsSpan }
{
    let _kind = words.next_word()?;
    let from = second(plan, words)?;
    let count = words.number()?;
    if 1 <= count && count <= MOST_SECONDS {
        Ok(Span { from, count })
    } else {
        Err(WireFault::Number)
    }
}

/// The line of the question, with no line feed.
fn put_held(text: &mut Vec<u8>, span: &Span) -> Result<(), NoMemory>
    ensures { OnOk result (text.new.items ≡ text.old.items ++ line_of (held_words span.now)) }
{
    put_front(text, b"held", span.from, span.count)
}

/// The chain that a line asks for.
#[tactic(auto, unfolding(crate::specs::Questions::chain_of))]
fn chain(alloc: Global, plan: &Plan, line: &[u8]) -> Result<ChainEnds, Refused<WireFault>>
    ensures exact { Answers (chain_of plan.now line.now) result }
    ensures from { IfOk result (λ ends. plan.now.start ≤ ends.to) }
    ensures below { IfOk result (λ ends. ends.to < 2 ^ 63) }
{
    let mut words = Words::new(line);
    let ends = match any_ends(plan, &mut words) {
        Ok(ends) => ends,
        Err(fault) => return Err(Refused::Fault(fault)),
    };
    let mut again = Vec::new(alloc);
    put_chain(&mut again, &ends)?;
    if is(again.as_slice(), line) {
        Ok(ends)
    } else {
        Err(Refused::Fault(WireFault::Spelling))
    }
}

/// The ends of the chain of a line whose words may be followed by others.
fn any_ends(plan: &Plan, words: &mut Words<'_>) -> Result<ChainEnds, WireFault>
    ensures read { Reads (ends_in plan.now (words_left words.old.left)) result (words_left words.new.left) }
    ensures from { IfOk result (λ ends. plan.now.start ≤ ends.to) }
    ensures below { IfOk result (λ ends. ends.to < 2 ^ 63) }
{
    let _kind = words.next_word()?;
    let from = second(plan, words)?;
    let to = second(plan, words)?;
    Ok(ChainEnds { from, to })
}

/// The line of the question, with no line feed.
fn put_chain(text: &mut Vec<u8>, ends: &ChainEnds) -> Result<(), NoMemory>
    ensures { OnOk result (text.new.items ≡ text.old.items ++ line_of (chain_words ends.now)) }
{
    put_front(text, b"chain", ends.from, ends.to)
}
