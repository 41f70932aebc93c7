// Which fact a record has.
ghost use Rattle.std.specs.Prelude.{◌≡◌, IfOk, Ok};
ghost use Rattle.ksi_aggregator.specs.declared.fact.Fact.{Fact};
ghost use Rattle.ksi_wire.specs.declared.event.AggregatorLine.{AggregatorLine};
ghost use Rattle.ksi_wire.specs.AskedRounds.{aggregator_line_of};
ghost use Rattle.ksi_roundstore.specs.Written.{IsTextOf};
ghost use Rattle.ksi_roundstore.specs.Kinds.{kind_of, kind_of_event, kind_of_line};

use crate::kind::Kind;
use crate::last_line::{last_line, without_feed};
use ksi_aggregator::RoundEvent;
use ksi_imprint::{NoMemory, Refused};
use ksi_schedule::Plan;
use ksi_wire::{AggregatorLine, aggregator_line};
use std::alloc::Global;

/// Which fact the record of this content has.
pub(crate) fn kind_of(alloc: Global, plan: &Plan, me: u32, content: &[u8]) -> Result<Kind, NoMemory>
    ensures { IfOk result (λ kind. (fact : Fact) → IsTextOf plan.now me fact content.now → kind ≡ kind_of fact) }
{
    let tail = last_line(content);
    kind_of_line(alloc, plan, me, without_feed(tail))
}

/// Which one has this last line.
fn kind_of_line(alloc: Global, plan: &Plan, me: u32, line: &[u8]) -> Result<Kind, NoMemory>
    ensures { IfOk result (λ kind. (told : AggregatorLine) → aggregator_line_of plan.now me line.now ≡ Ok told → kind ≡ kind_of_line told) }
{
    match aggregator_line(alloc, plan, me, line) {
        Ok(AggregatorLine::Event(event)) => Ok(kind_of_event(&event)),
        Ok(AggregatorLine::Sign(_)) => Ok(Kind::Other),
        Err(Refused::Fault(_)) => Ok(Kind::Other),
        Err(Refused::NoMemory) => Err(NoMemory),
    }
}

fn kind_of_event(event: &RoundEvent) -> Kind
    ensures { result ≡ kind_of_event event.now }
{
    match event {
        RoundEvent::Request(_, _, _, _) => Kind::Other,
        RoundEvent::Submission(_, _, _) => Kind::Other,
        RoundEvent::Close(second) => Kind::Closed(*second),
        RoundEvent::Response(second, _) => Kind::Answered(*second),
    }
}
