// The lines to a core.
ghost use Rattle.std.specs.Prelude.{◌≡◌, IfOk};
ghost use Rattle.ksi_corenode.specs.Events.{event_second, IsAsked, MayTake};
ghost use Rattle.ksi_corenode.specs.Owners.{BringsOwned};
ghost use Rattle.ksi_corenode.specs.CoreState.{CoreState};
ghost use Rattle.ksi_schedule.specs.Printed.{line_of};
ghost use Rattle.ksi_schedule.specs.Reading.{words_left};
ghost use Rattle.ksi_wire.specs.Lines.{core_words};
ghost use Rattle.ksi_wire.specs.Asked.{core_event_in, core_event_of, receive_in, submission_in, Answers, Reads};

use crate::cursor::{Words, is};
use crate::fault::WireFault;
use crate::parts::{core, item, lower, second};
use crate::printing::put_core_event;
use crate::votes::vote;
use ksi_corenode::CoreEvent;
use ksi_imprint::Refused;
use ksi_schedule::{Actor, Plan};
use std::alloc::Global;

/// The event that a line asks of a core of the plan. Each printed line of an event that may come to this core is taken
/// ([`printed_lines_are_taken`](crate::laws::printed_lines_are_taken)).
///
/// # Errors
/// The first fault of the words from the left, or `Spelling` where the line is not just as its event is printed. `NoMemory`.
#[tactic(auto, unfolding(crate::specs::Asked::core_event_of))]
pub fn core_event(
    alloc: Global,
    plan: &Plan,
    me: u8,
    line: &[u8],
) -> Result<CoreEvent, Refused<WireFault>>
    ensures exact { Answers (core_event_of plan.now me line.now) result }
    ensures text { IfOk result (λ event. line.now ≡ line_of (core_words event)) }
    ensures may { IfOk result (λ event. (it : CoreState) → it.start ≡ plan.now.start → MayTake it event × IsAsked it (event_second event)) }
    ensures owned { IfOk result (BringsOwned plan.now.cores) }
{
    let mut words = Words::new(line);
    let event = match any_event(plan, me, &mut words) {
        Ok(event) => event,
        Err(fault) => return Err(Refused::Fault(fault)),
    };
    let mut again = Vec::new(alloc);
    put_core_event(&mut again, &event)?;
    if is(again.as_slice(), line) {
        Ok(event)
    } else {
        Err(Refused::Fault(WireFault::Spelling))
    }
}

/// The event of a line whose words may be followed by others.
fn any_event(plan: &Plan, me: u8, words: &mut Words<'_>) -> Result<CoreEvent, WireFault>
    ensures read { Reads (core_event_in plan.now me (words_left words.old.left)) result (words_left words.new.left) }
    ensures may { IfOk result (λ event. (it : CoreState) → it.start ≡ plan.now.start → MayTake it event × IsAsked it (event_second event)) }
    ensures owned { IfOk result (BringsOwned plan.now.cores) }
{
    let kind = words.next_word()?;
    if is(kind, b"submission") {
        submission(plan, me, words)
    } else if is(kind, b"seal") {
        Ok(CoreEvent::Seal(second(plan, words)?))
    } else if is(kind, b"ballot") {
        Ok(CoreEvent::Ballot(second(plan, words)?))
    } else if is(kind, b"synod") {
        message(plan, words)
    } else if is(kind, b"tell") {
        Ok(CoreEvent::Tell(second(plan, words)?))
    } else if is(kind, b"respond") {
        Ok(CoreEvent::Respond(second(plan, words)?))
    } else if is(kind, b"publish") {
        Ok(CoreEvent::Publish(second(plan, words)?))
    } else {
        Err(WireFault::Word)
    }
}

fn submission(plan: &Plan, me: u8, words: &mut Words<'_>) -> Result<CoreEvent, WireFault>
    ensures read { Reads (submission_in plan.now me (words_left words.old.left)) result (words_left words.new.left) }
    ensures may { IfOk result (λ event. (it : CoreState) → it.start ≡ plan.now.start → MayTake it event × IsAsked it (event_second event)) }
    ensures owned { IfOk result (BringsOwned plan.now.cores) }
{
    let from = lower(plan, Actor::Core(me), words)?;
    let second = second(plan, words)?;
    let item = item(plan, from, words)?;
    Ok(CoreEvent::Submission(from, second, item))
}

fn message(plan: &Plan, words: &mut Words<'_>) -> Result<CoreEvent, WireFault>
    ensures read { Reads (receive_in plan.now (words_left words.old.left)) result (words_left words.new.left) }
    ensures may { IfOk result (λ event. (it : CoreState) → it.start ≡ plan.now.start → MayTake it event × IsAsked it (event_second event)) }
    ensures owned { IfOk result (BringsOwned plan.now.cores) }
{
    let from = core(plan, words)?;
    let second = second(plan, words)?;
    let message = vote(plan, words)?;
    Ok(CoreEvent::Receive(from, second, message))
}
