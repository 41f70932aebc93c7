// The aggregator of the facts that records spell.
ghost use Rattle.std.specs.Prelude.{◌≡◌, ◌+◌, ◌↔◌, ℕ, List, length, IfOk, IsTrue, OnOk};
ghost use Rattle.std.specs.List.{AllByRecursion};
ghost use Rattle.ksi_disk.specs.Gates.{records_text};
ghost use Rattle.ksi_aggregator.specs.Events.{event_second, MayTake, round_row};
ghost use Rattle.ksi_aggregator.specs.Rounds.{rounds_of, IsTurn};
ghost use Rattle.ksi_roundstore.specs.Facts.{is_accepted, TakesAll, TakesAs};
ghost use Rattle.ksi_aggregator.specs.declared.fact.Fact.{Fact};
ghost use Rattle.ksi_aggregator.specs.Lawful.{AreLawful};
ghost use Rattle.ksi_aggregator.specs.Restored.{IsOfFacts};
ghost use Rattle.ksi_roundstore.specs.Folds.{FoldsAs, GoesOn};
ghost use Rattle.ksi_wire.specs.RoundLines.{FitsRound};

use crate::OpenRefusal;
use crate::events::read_events;
use crate::shape::is_fact;
use ksi_aggregator::laws::{facts_one_by_one, one_aggregator_of_facts};
use ksi_aggregator::{Aggregator, RoundEvent, Step};
use ksi_disk::Records;
use ksi_imprint::{Compress, NoMemory};
use ksi_schedule::Plan;
use ksi_signature::Answer;
use std::alloc::Global;

/// The aggregator of the facts that the records spell, which follow a header and end at this place.
pub(crate) fn fold_records<C: Compress>(
    alloc: Global,
    me: u32,
    plan: &Plan,
    records: &Records,
    end: u64,
) -> Result<Aggregator<C>, OpenRefusal>
    requires end { 20 + length (records_text records.now) ≡ end }
    ensures { FoldsAs plan.now me records.now result }
{
    one_aggregator_of_facts();
    facts_one_by_one();
    let mut aggregator = Aggregator::new(alloc, me);
    let mut place = 20;
    'folding: for k in 0..records.len() {
        let content = records.get(k);
        if !fold_record(alloc, plan, &mut aggregator, content)? {
            return Err(OpenRefusal::Malformed(place));
        }
        place += 5 + content.len() as u64;
    }
    Ok(aggregator)
}

/// Stores the fact of a record, where it spells one that is lawful after those before.
fn fold_record<C: Compress>(
    alloc: Global,
    plan: &Plan,
    aggregator: &mut Aggregator<C>,
    content: &[u8],
) -> Result<bool, NoMemory>
    ensures { IfOk result (λ stored. (me : ℕ) (facts : List Fact) → AreLawful facts → IsOfFacts me facts aggregator.old → GoesOn plan.now me facts content.now aggregator.new stored) }
{
    match read_events(alloc, plan, aggregator.me(), content)? {
        None => Ok(false),
        Some(events) => {
            if is_fact(&events) {
                take_all(aggregator, &events)
            } else {
                Ok(false)
            }
        }
    }
}

/// Takes events, and tells whether each of them was accepted.
fn take_all<C: Compress>(
    aggregator: &mut Aggregator<C>,
    events: &[RoundEvent],
) -> Result<bool, NoMemory>
    requires fit { AllByRecursion FitsRound events.now }
    ensures me { OnOk result (aggregator.new.me ≡ aggregator.old.me) }
    ensures taken { IfOk result (TakesAll C.image (rounds_of aggregator.old) (rounds_of aggregator.new) events.now) }
{
    'taking: for k in 0..events.len() {
        if !take_event(aggregator, &events[k])? {
            return Ok(false);
        }
    }
    Ok(true)
}

/// Takes an event, and tells whether it was accepted.
fn take_event<C: Compress>(
    aggregator: &mut Aggregator<C>,
    event: &RoundEvent,
) -> Result<bool, NoMemory>
    requires fits { FitsRound event.now }
    ensures me { OnOk result (aggregator.new.me ≡ aggregator.old.me) }
    ensures taken { IfOk result (TakesAs C.image (rounds_of aggregator.old) (rounds_of aggregator.new) event.now) }
{
    if !may_come(aggregator, event) {
        return Ok(false);
    }
    let step = step_of(aggregator, event)?;
    Ok(is_accepted(&step.answer))
}

/// Whether an event may come: the number of a request is new.
fn may_come<C: Compress>(aggregator: &Aggregator<C>, event: &RoundEvent) -> bool
    requires { FitsRound event.now }
    ensures { IsTrue result ↔ MayTake (rounds_of aggregator.now) event.now }
{
    match event {
        RoundEvent::Request(number, _, _, _) => aggregator.is_new(*number),
        RoundEvent::Submission(_, _, _) => true,
        RoundEvent::Close(_) => true,
        RoundEvent::Response(_, _) => true,
    }
}

/// The step of an event, by the call that it is.
fn step_of<C: Compress>(
    aggregator: &mut Aggregator<C>,
    event: &RoundEvent,
) -> Result<Step, NoMemory>
    requires fits { FitsRound event.now }
    requires may { MayTake (rounds_of aggregator.old) event.now }
    ensures me { aggregator.new.me ≡ aggregator.old.me }
    ensures turn { IfOk result (IsTurn (rounds_of aggregator.old) (rounds_of aggregator.new) (event_second event.now) (round_row C.image event.now (rounds_of aggregator.old (event_second event.now)))) }
{
    match event {
        RoundEvent::Request(number, second, imprint, name) => {
            aggregator.request(*number, *second, *imprint, *name)
        }
        RoundEvent::Submission(from, second, item) => aggregator.submission(*from, *second, *item),
        RoundEvent::Close(second) => aggregator.close(*second),
        RoundEvent::Response(second, above) => aggregator.response(*second, above),
    }
}

fn is_accepted(answer: &Answer) -> bool
    ensures { result ≡ is_accepted answer.now }
{
    matches!(answer, Answer::Done | Answer::Number(_))
}
