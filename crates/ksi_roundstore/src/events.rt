// The events whose lines a text is.
ghost use Rattle.std.specs.Prelude.{◌≡◌, ◌∷◌, ◌++◌, IfNone, IfOk, IfSome};
ghost use Rattle.std.specs.List.{AllByRecursion};
ghost use Rattle.ksi_schedule.specs.Printed.{line_of};
ghost use Rattle.ksi_aggregator.specs.declared.event.RoundEvent.{RoundEvent};
ghost use Rattle.ksi_wire.specs.RoundLines.{round_words};
ghost use Rattle.ksi_roundstore.specs.Texts.{lines_of};
ghost use Rattle.ksi_roundstore.specs.Written.{AreLinesIn, IsLine, IsReadAs, IsWritten};

use ksi_aggregator::RoundEvent;
use ksi_imprint::{NoMemory, Refused};
use ksi_schedule::Plan;
use ksi_wire::{AggregatorLine, aggregator_line};
use memchr::memchr;
use std::alloc::Global;

/// The events to aggregator `me` of a plan whose lines a text is; none where it is no such text.
pub(crate) fn read_events(
    alloc: Global,
    plan: &Plan,
    me: u32,
    text: &[u8],
) -> Result<Option<Vec<RoundEvent>>, NoMemory>
    ensures lines { IfOk result (λ found. IfSome found (λ events. text.now ≡ lines_of events.items)) }
    ensures written { IfOk result (λ found. IfSome found (λ events. AllByRecursion (IsWritten plan.now me) events.items)) }
    ensures none { IfOk result (λ found. IfNone found (AreLinesIn plan.now me text.now → ⊥)) }
{
    let mut events = Vec::new(alloc);
    let mut rest = text;
    'reading: while let Some((line, behind)) = next_line(rest) {
        match read_line(alloc, plan, me, line)? {
            Some(event) => events.push(event)?,
            None => return Ok(None),
        }
        rest = behind;
    }
    if rest.is_empty() {
        Ok(Some(events))
    } else {
        Ok(None)
    }
}

/// The event whose line it is; none where it is no event's.
fn read_line(
    alloc: Global,
    plan: &Plan,
    me: u32,
    line: &[u8],
) -> Result<Option<RoundEvent>, NoMemory>
    ensures read { IfOk result (λ found. IfSome found (IsReadAs plan.now me line.now)) }
    ensures none { IfOk result (λ found. IfNone found ((event : RoundEvent) → IsWritten plan.now me event → line.now ≡ line_of (round_words event) → ⊥)) }
{
    match aggregator_line(alloc, plan, me, line) {
        Ok(AggregatorLine::Event(event)) => Ok(Some(event)),
        Ok(AggregatorLine::Sign(_)) => Ok(None),
        Err(Refused::Fault(_)) => Ok(None),
        Err(Refused::NoMemory) => Err(NoMemory),
    }
}

/// The first line of a text and what follows it; none if there is no line feed.
fn next_line(text: &[u8]) -> Option<(&[u8], &[u8])>
    ensures text { IfSome result (λ parts. text.now ≡ parts.0.now ++ 10 ∷ parts.1.now) }
    ensures line { IfSome result (λ parts. IsLine parts.0.now) }
    ensures none { IfNone result (IsLine text.now) }
{
    let place = memchr(b'\n', text)?;
    let (line, others) = text.split_at(place);
    let (_, behind) = others.split_at(1);
    Some((line, behind))
}
