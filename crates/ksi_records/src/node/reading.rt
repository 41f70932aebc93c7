//! What the first line of an entry says.
ghost use Rattle.std.specs.Prelude.{◌≡◌, codes, IfOk};
ghost use Rattle.ksi_schedule.specs.Plans.{PlanState};
ghost use Rattle.ksi_schedule.specs.Printed.{actor_word};
ghost use Rattle.ksi_schedule.specs.declared.actor.Actor.TheVariants as actors;
ghost use Rattle.ksi_wire.specs.Asked.{core_event_of, Answers};
ghost use Rattle.ksi_wire.specs.AskedRounds.{aggregator_line_of};
ghost use Rattle.ksi_records.specs.Node.Heads.{behind, given_at, head_at, line_to, restart_at, step_at, to_aggregator, to_core};
ghost use Rattle.ksi_records.specs.Node.Steps.{Fits, FitsHead, IsBehind, IsThere};

use crate::node::head::{Given, Head};
use crate::reading::is;
use ksi_imprint::Refused;
use ksi_schedule::{Actor, Plan};
use ksi_wire::{AggregatorLine, WireFault, aggregator_line, core_event};
use std::alloc::Global;

/// What the first line of an entry says in the log of a node, whose word is `word`.
///
/// # Errors
/// `Actor`: the line is of another node. Else the fault of the line, as the node itself reports it. `NoMemory`.
pub(crate) fn read_head(
    alloc: Global,
    plan: &Plan,
    me: Actor,
    word: &[u8],
    line: &[u8],
) -> Result<Head, Refused<WireFault>>
    requires word { word.now ≡ actor_word me }
    requires there { IsThere plan.now me }
    ensures exact { Answers (head_at plan.now me line.now) result }
    ensures fits { IfOk result (FitsHead plan.now me) }
{
    match behind(b"restart ", line) {
        Some(rest) => restart(word, rest),
        None => step(alloc, plan, me, word, line),
    }
}

/// The node was started again.
fn restart(word: &[u8], rest: &[u8]) -> Result<Head, Refused<WireFault>>
    ensures exact { (me : Actor) → word.now ≡ actor_word me → Answers (restart_at me rest.now) result }
    ensures fits { (plan : PlanState) (me : Actor) → IfOk result (FitsHead plan me) }
{
    if is(rest, word) {
        Ok(Head::Restarted)
    } else {
        Err(Refused::Fault(WireFault::Actor))
    }
}

/// A line that is no restart.
fn step(
    alloc: Global,
    plan: &Plan,
    me: Actor,
    word: &[u8],
    line: &[u8],
) -> Result<Head, Refused<WireFault>>
    requires word { word.now ≡ actor_word me }
    requires there { IsThere plan.now me }
    ensures exact { Answers (step_at plan.now me line.now (behind (codes "unsaid ") line.now)) result }
    ensures fits { IfOk result (FitsHead plan.now me) }
{
    match behind(b"unsaid ", line) {
        Some(rest) => match given(alloc, plan, me, word, rest) {
            Ok(it) => Ok(Head::Unsaid(it)),
            Err(refused) => Err(refused),
        },
        None => match given(alloc, plan, me, word, line) {
            Ok(it) => Ok(Head::Said(it)),
            Err(refused) => Err(refused),
        },
    }
}

/// What the node took, after its word and a space.
fn given(
    alloc: Global,
    plan: &Plan,
    me: Actor,
    word: &[u8],
    line: &[u8],
) -> Result<Given, Refused<WireFault>>
    requires word { word.now ≡ actor_word me }
    requires there { IsThere plan.now me }
    ensures exact { Answers (given_at plan.now me line.now) result }
    ensures fits { IfOk result (Fits plan.now me) }
{
    match behind(word, line) {
        Some(rest) => match behind(b" ", rest) {
            Some(rest) => line_to(alloc, plan, me, rest),
            None => Err(Refused::Fault(WireFault::Actor)),
        },
        None => Err(Refused::Fault(WireFault::Actor)),
    }
}

/// What a line asks of the node.
fn line_to(alloc: Global, plan: &Plan, me: Actor, line: &[u8]) -> Result<Given, Refused<WireFault>>
    requires { IsThere plan.now me }
    ensures exact { Answers (line_to plan.now me line.now) result }
    ensures fits { IfOk result (Fits plan.now me) }
{
    match me {
        Actor::Core(core) => to_core(alloc, plan, core, line),
        Actor::Aggregator(aggregator) => to_aggregator(alloc, plan, aggregator, line),
    }
}

fn to_core(alloc: Global, plan: &Plan, core: u8, line: &[u8]) -> Result<Given, Refused<WireFault>>
    ensures exact { Answers (to_core core (core_event_of plan.now core line.now)) result }
    ensures fits { IfOk result (Fits plan.now (actors.Core core)) }
{
    match core_event(alloc, plan, core, line) {
        Ok(event) => Ok(Given::ToCore(core, event)),
        Err(refused) => Err(refused),
    }
}

fn to_aggregator(
    alloc: Global,
    plan: &Plan,
    aggregator: u32,
    line: &[u8],
) -> Result<Given, Refused<WireFault>>
    ensures exact { Answers (to_aggregator aggregator (aggregator_line_of plan.now aggregator line.now)) result }
    ensures fits { IfOk result (Fits plan.now (actors.Aggregator aggregator)) }
{
    match aggregator_line(alloc, plan, aggregator, line) {
        Ok(AggregatorLine::Event(event)) => Ok(Given::ToAggregator(aggregator, event)),
        Ok(AggregatorLine::Sign(_)) => Err(Refused::Fault(WireFault::Word)),
        Err(refused) => Err(refused),
    }
}

/// What follows a beginning of a line, if it begins so.
fn behind<'a>(front: &[u8], line: &'a [u8]) -> Option<&'a [u8]>
    ensures { IsBehind (behind front.now line.now) result }
{
    if line.starts_with(front) {
        let (_, rest) = line.split_at(front.len());
        Some(rest)
    } else {
        None
    }
}
