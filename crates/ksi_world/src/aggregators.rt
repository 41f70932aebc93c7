//! The turns of aggregators.
ghost use Rattle.std.specs.Prelude.{◌≡◌, ◌≤◌, ◌<◌, ◌^◌, length, option_map, slice_get, Some, IfOk, OnErr};
ghost use Rattle.ksi_aggregator.specs.Rows.{fresh_round, round_request, round_submission, round_close, round_restarted};
ghost use Rattle.ksi_aggregator.specs.Rounds.{rounds_of, IsNew};
ghost use Rattle.ksi_aggtree.specs.Rounds.{highest_item, leaf_level};
ghost use Rattle.ksi_world.specs.declared.message.Message.{Message};
ghost use Rattle.ksi_schedule.specs.Plans.{PlanState};
ghost use Rattle.ksi_world.specs.Messages.{content_of};
ghost use Rattle.ksi_world.specs.Nodes.{AreAggregators, EachAggregator, CanTake, response_row, RoundMove, RoundStep, RoundRestart, AggregatorsStay};

use crate::message::Content;
use crate::outcome::Outcome;
use crate::posted::Posted;
use crate::posting::post_round;
use crate::wire::Wire;
use ksi_aggregator::{Aggregator, NoMemory, Step};
use ksi_aggtree::{Item, Name};
use ksi_imprint::{Compress, Imprint};
use ksi_schedule::Plan;
use std::alloc::Global;

/// The aggregators of a plan before anything came.
pub(crate) fn new<C: Compress>(alloc: Global, plan: &Plan) -> Result<Vec<Aggregator<C>>, NoMemory>
    ensures { IfOk result (λ aggregators. AreAggregators plan.now (λ k t. fresh_round) aggregators.items) }
{
    let mut aggregators = Vec::new(alloc);
    'adding: for me in 0..plan.aggregators() as u32 {
        aggregators.push(Aggregator::new(alloc, me))?;
    }
    Ok(aggregators)
}

/// An aggregator takes the request of a number for a second, under a name or under none.
pub(crate) fn request<C: Compress>(
    plan: &Plan,
    aggregators: &mut Vec<Aggregator<C>>,
    wire: &mut Wire,
    aggregator: u32,
    number: u64,
    second: u64,
    imprint: Imprint,
    name: Option<Name>,
) -> Result<Outcome, NoMemory>
    requires there { aggregator < length aggregators.old.items }
    requires planned { aggregator < length plan.now.parents }
    requires new { EachAggregator (λ a. IsNew number (rounds_of a)) aggregators.old.items }
    requires early { second < 2 ^ 63 }
    ensures ok { IfOk result (RoundStep (round_request number imprint name) plan.now aggregator second aggregators.old.items aggregators.new.items wire.old wire.new) }
    ensures aggregators { OnErr result (AggregatorsStay aggregators.old.items aggregators.new.items) }
    ensures wire { OnErr result (wire.new ≡ wire.old) }
{
    let step = aggregators[aggregator as usize].request(number, second, imprint, name)?;
    Ok(post_round(plan, &mut wire.posted, aggregator, second, step))
}

/// An aggregator takes an item of another for a second.
pub(crate) fn submission<C: Compress>(
    plan: &Plan,
    aggregators: &mut Vec<Aggregator<C>>,
    wire: &mut Wire,
    from: u32,
    aggregator: u32,
    second: u64,
    item: Item,
) -> Result<Outcome, NoMemory>
    requires there { aggregator < length aggregators.old.items }
    requires planned { aggregator < length plan.now.parents }
    requires early { second < 2 ^ 63 }
    requires level { leaf_level item ≤ highest_item }
    ensures ok { IfOk result (RoundStep (round_submission from item) plan.now aggregator second aggregators.old.items aggregators.new.items wire.old wire.new) }
    ensures aggregators { OnErr result (AggregatorsStay aggregators.old.items aggregators.new.items) }
    ensures wire { OnErr result (wire.new ≡ wire.old) }
{
    let step = aggregators[aggregator as usize].submission(from, second, item)?;
    Ok(post_round(plan, &mut wire.posted, aggregator, second, step))
}

/// An aggregator closes its round of a second.
pub(crate) fn close<C: Compress>(
    plan: &Plan,
    aggregators: &mut Vec<Aggregator<C>>,
    wire: &mut Wire,
    aggregator: u32,
    second: u64,
) -> Result<Outcome, NoMemory>
    requires there { aggregator < length aggregators.old.items }
    requires planned { aggregator < length plan.now.parents }
    requires early { second < 2 ^ 63 }
    ensures ok { IfOk result (RoundStep (round_close C.image) plan.now aggregator second aggregators.old.items aggregators.new.items wire.old wire.new) }
    ensures aggregators { OnErr result (AggregatorsStay aggregators.old.items aggregators.new.items) }
    ensures wire { OnErr result (wire.new ≡ wire.old) }
{
    wire.posted.reserve(1)?;
    let step = aggregators[aggregator as usize].close(second)?;
    Ok(post_round(plan, &mut wire.posted, aggregator, second, step))
}

/// An aggregator takes a response of the wire to its round of a second, and sends it on to at most each aggregator of the
/// plan.
pub(crate) fn response<C: Compress>(
    plan: &Plan,
    aggregators: &mut Vec<Aggregator<C>>,
    wire: &mut Wire,
    aggregator: u32,
    second: u64,
    number: usize,
) -> Result<Outcome, NoMemory>
    requires there { aggregator < length aggregators.old.items }
    requires planned { aggregator < length plan.now.parents }
    requires early { second < 2 ^ 63 }
    requires response { (message : Message) × (slice_get wire.old number ≡ Some message) × CanTake C.image plan.now aggregator second aggregators.old.items message.content }
    ensures ok { IfOk result (λ outcome. (message : Message) → slice_get wire.old number ≡ Some message →
        RoundStep (response_row C.image message.content) plan.now aggregator second aggregators.old.items aggregators.new.items wire.old wire.new outcome) }
    ensures aggregators { OnErr result (AggregatorsStay aggregators.old.items aggregators.new.items) }
    ensures wire { OnErr result (wire.new ≡ wire.old) }
{
    wire.posted.reserve(plan.aggregators())?;
    let content = content_of(&wire.posted, number);
    let step = answer(aggregators, aggregator, second, content)?;
    Ok(post_round(plan, &mut wire.posted, aggregator, second, step))
}

/// What the message of a number says.
fn content_of(posted: &Posted, number: usize) -> &Content
    requires { number < length posted.now.messages }
    ensures { option_map content_of (slice_get posted.now.messages number) ≡ Some result.now }
{
    match posted.get(number) {
        Some(message) => message.content,
        None => unreachable!(),
    }
}

/// An aggregator takes a response to its round of a second.
fn answer<C: Compress>(
    aggregators: &mut Vec<Aggregator<C>>,
    aggregator: u32,
    second: u64,
    content: &Content,
) -> Result<Step, NoMemory>
    requires there { aggregator < length aggregators.old.items }
    requires early { second < 2 ^ 63 }
    requires response { (plan : PlanState) × CanTake C.image plan aggregator second aggregators.old.items content.now }
    ensures ok { IfOk result (RoundMove (response_row C.image content.now) aggregator second aggregators.old.items aggregators.new.items) }
    ensures err { OnErr result (AggregatorsStay aggregators.old.items aggregators.new.items) }
{
    match content {
        Content::Response(above) => aggregators[aggregator as usize].response(second, above),
        Content::Synod(_) | Content::Submission(_) => unreachable!(),
    }
}

/// An aggregator restarts.
pub(crate) fn restart<C: Compress>(aggregators: &mut Vec<Aggregator<C>>, aggregator: u32)
    requires there { aggregator < length aggregators.old.items }
    ensures { RoundRestart round_restarted aggregator aggregators.old.items aggregators.new.items }
{
    aggregators[aggregator as usize].restart();
}
