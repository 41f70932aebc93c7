//! The text of what a node says to an event.
ghost use Rattle.std.specs.Prelude.{◌≡◌, ◌<◌, ◌^◌, length, true, false, is_some, IfOk};
ghost use Rattle.ksi_corenode.specs.Events as of_core;
ghost use Rattle.ksi_corenode.specs.CoreState as core_state;
ghost use Rattle.ksi_corenode.specs.declared.step.Step as core_step;
ghost use Rattle.ksi_aggregator.specs.Events as of_round;
ghost use Rattle.ksi_aggregator.specs.Rounds as rounds;
ghost use Rattle.ksi_aggregator.specs.declared.step.Step as round_step;
ghost use Rattle.ksi_wire.specs.RoundLines.{FitsRound};
ghost use Rattle.ksi_wire.specs.Steps.{core_step_text, round_step_text};

use ksi_aggregator::{Aggregator, RoundEvent};
use ksi_corenode::{Core, CoreEvent};
use ksi_imprint::{Compress, NoMemory};
use ksi_schedule::Plan;
use ksi_wire::{core_step_text, round_step_text};
use std::alloc::Global;

/// The block of the one step of an event at a core.
pub(crate) fn core_block<C: Compress>(
    alloc: Global,
    me: u8,
    core: &mut Core<C>,
    event: CoreEvent,
) -> Result<Vec<u8>, NoMemory>
    requires may { of_core.MayTake core.old event }
    requires asked { of_core.IsAsked core.old (of_core.event_second event) }
    ensures { IfOk result (λ text. (step : core_step.Step) × core_state.IsTurn core.old core.new (of_core.event_second event) (of_core.core_row C.image core.old event) step
        × (text.items ≡ core_step_text me (of_core.event_second event) step)) }
{
    let second = core_second(&event);
    let step = core.take(event)?;
    let text = core_step_text(alloc, me, second, &step)?;
    Ok(text)
}

/// The same at an aggregator of the plan.
pub(crate) fn round_block<C: Compress>(
    alloc: Global,
    plan: &Plan,
    me: u32,
    aggregator: &mut Aggregator<C>,
    event: RoundEvent,
) -> Result<Vec<u8>, NoMemory>
    requires there { me < length plan.now.parents }
    requires may { of_round.MayTake (rounds.rounds_of aggregator.old) event }
    requires fits { FitsRound event }
    ensures me { aggregator.new.me ≡ aggregator.old.me }
    ensures turn { IfOk result (λ text. (step : round_step.Step)
        × rounds.IsTurn (rounds.rounds_of aggregator.old) (rounds.rounds_of aggregator.new) (of_round.event_second event) (of_round.round_row C.image event (rounds.rounds_of aggregator.old (of_round.event_second event))) step
        × (text.items ≡ round_step_text plan.now me (of_round.event_second event) step.answer (is_some step.fact) step.sends)) }
{
    let second = round_second(&event);
    let step = aggregator.take(event)?;
    let sends = step.sends.as_slice();
    let text = round_step_text(
        alloc,
        plan,
        me,
        second,
        &step.answer,
        step.fact.is_some(),
        sends,
    )?;
    Ok(text)
}

/// Whether an event may be taken: the number of a request is new.
pub(crate) fn is_due<C: Compress>(aggregator: &Aggregator<C>, event: &RoundEvent) -> bool
    requires { FitsRound event.now }
    ensures may { result ≡ true → of_round.MayTake (rounds.rounds_of aggregator.now) event.now }
    ensures taken { result ≡ false → of_round.MayTake (rounds.rounds_of aggregator.now) event.now → ⊥ }
{
    match event {
        RoundEvent::Request(number, _, _, _) => aggregator.is_new(*number),
        RoundEvent::Submission(_, _, _) => true,
        RoundEvent::Close(_) => true,
        RoundEvent::Response(_, _) => true,
    }
}

/// The second of an event.
fn core_second(event: &CoreEvent) -> u64
    ensures { result ≡ of_core.event_second event.now }
{
    match event {
        CoreEvent::Submission(_, second, _) => *second,
        CoreEvent::Seal(second) => *second,
        CoreEvent::Ballot(second) => *second,
        CoreEvent::Receive(_, second, _) => *second,
        CoreEvent::Tell(second) => *second,
        CoreEvent::Respond(second) => *second,
        CoreEvent::Publish(second) => *second,
    }
}

fn round_second(event: &RoundEvent) -> u64
    requires { FitsRound event.now }
    ensures second { result ≡ of_round.event_second event.now }
    ensures early { result < 2 ^ 63 }
{
    match event {
        RoundEvent::Request(_, second, _, _) => *second,
        RoundEvent::Submission(_, second, _) => *second,
        RoundEvent::Close(second) => *second,
        RoundEvent::Response(second, _) => *second,
    }
}
