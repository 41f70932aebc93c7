// The lines of aggregators and events, word by word.
ghost use Rattle.std.specs.Prelude.{◌≡◌, ◌<◌, IfOk, IfSome};
ghost use Rattle.std.specs.Str.{bytes_eq};
ghost use Rattle.ksi_schedule.specs.Plans.{PlanState, IsParent, InRange};
ghost use Rattle.ksi_schedule.specs.Events.{IsEvent};
ghost use Rattle.ksi_schedule.specs.Words.{form_at, kind_at};
ghost use Rattle.ksi_schedule.specs.Forms.{aggregator_line, bare_parents, named_parents, request_line, bare_requests, named_requests, close_line, deliver_line, restart_line, core_and_second, event_kinds};
ghost use Rattle.ksi_schedule.specs.Reading.{words_left};
ghost use Rattle.ksi_aggtree.specs.Names.{IsName};
ghost use Rattle.std.specs.Prelude.{length, ◌∷◌, []};

use crate::actor::Actor;
use crate::cut::{Words, five, four, one, three, two};
use crate::event::Event;
use crate::fault::LineFault;
use crate::parent::Parent;
use crate::plan::Plan;
use crate::version::Version;
use crate::word::{aggregator, core, digest, name, number, second};

pub(crate) fn is(name: &[u8], text: &[u8]) -> bool
    ensures { result ≡ bytes_eq name.now text.now }
{
    name == text
}

// An aggregator's number, its parent and its name, or the first fault of its line.
pub(crate) fn parent(
    version: Version,
    plan: &Plan,
    words: Words<'_>,
) -> Result<(u64, Parent), LineFault>
    ensures value { result ≡ form_at plan.now (aggregator_line version).forms (words_left words.entry) }
    ensures there { IfOk result (λ said. IsParent plan.now.cores (length plan.now.parents) said.1.actor) }
    ensures named { IfOk result (λ said. IfSome said.1.name IsName) }
{
    match three(words) {
        Some((k, word, actor)) => bare_parent(plan, k, word, actor),
        None => match version {
            Version::One => Err(LineFault::Word),
            Version::Two => named_parent(plan, words),
        },
    }
}

#[tactic(auto, unfolding(crate::specs::Words::form_at))]
fn bare_parent(plan: &Plan, k: &[u8], word: &[u8], actor: &[u8]) -> Result<(u64, Parent), LineFault>
    ensures value { result ≡ form_at plan.now bare_parents (k.now ∷ word.now ∷ actor.now ∷ []) }
    ensures there { IfOk result (λ said. IsParent plan.now.cores (length plan.now.parents) said.1.actor) }
    ensures named { IfOk result (λ said. IfSome said.1.name IsName) }
{
    if !is(word, b"parent") {
        return Err(LineFault::Word);
    }
    match actor {
        [b'c', j @ ..] => {
            let k = number(k)?;
            Ok((
                k,
                Parent {
                    actor: Actor::Core(core(plan, j)?),
                    name: None,
                },
            ))
        }
        [b'a', i @ ..] => {
            let k = number(k)?;
            Ok((
                k,
                Parent {
                    actor: Actor::Aggregator(aggregator(plan, i)?),
                    name: None,
                },
            ))
        }
        _ => Err(LineFault::Word),
    }
}

// Under a name: what stands before it is a bare parent.
fn named_parent(plan: &Plan, words: Words<'_>) -> Result<(u64, Parent), LineFault>
    ensures value { result ≡ form_at plan.now named_parents (words_left words.entry) }
    ensures there { IfOk result (λ said. IsParent plan.now.cores (length plan.now.parents) said.1.actor) }
    ensures named { IfOk result (λ said. IfSome said.1.name IsName) }
{
    let Some((k, word, actor, under, named)) = five(words) else {
        return Err(LineFault::Word)
    };
    if !is(under, b"name") {
        return Err(LineFault::Word);
    }
    let (k, bare) = bare_parent(plan, k, word, actor)?;
    Ok((
        k,
        Parent {
            actor: bare.actor,
            name: Some(name(named)?),
        },
    ))
}

// What an event's line stands for, or its first fault.
#[tactic(auto, unfolding(crate::specs::Words::form_at))]
pub(crate) fn event(
    version: Version,
    plan: &Plan,
    name: &[u8],
    words: Words<'_>,
) -> Result<Event, LineFault>
    ensures value { result ≡ kind_at plan.now (event_kinds version) name.now (words_left words.entry) }
    ensures there { IfOk result (λ event. IsEvent plan.now event) }
{
    if is(name, b"request") {
        request(version, plan, words)
    } else if is(name, b"close") {
        close(plan, words)
    } else if is(name, b"seal") {
        let (j, t) = core_and_second(plan, words)?;
        Ok(Event::Seal(j, t))
    } else if is(name, b"ballot") {
        let (j, t) = core_and_second(plan, words)?;
        Ok(Event::Ballot(j, t))
    } else if is(name, b"deliver") {
        deliver(words)
    } else if is(name, b"tell") {
        let (j, t) = core_and_second(plan, words)?;
        Ok(Event::Tell(j, t))
    } else if is(name, b"respond") {
        let (j, t) = core_and_second(plan, words)?;
        Ok(Event::Respond(j, t))
    } else if is(name, b"publish") {
        let (j, t) = core_and_second(plan, words)?;
        Ok(Event::Publish(j, t))
    } else if is(name, b"restart") {
        restart(plan, words)
    } else {
        Err(LineFault::Word)
    }
}

fn request(version: Version, plan: &Plan, words: Words<'_>) -> Result<Event, LineFault>
    ensures value { result ≡ form_at plan.now (request_line version).forms (words_left words.entry) }
    ensures there { IfOk result (λ event. IsEvent plan.now event) }
{
    match three(words) {
        Some((k, t, hash)) => bare_request(plan, k, t, hash),
        None => match version {
            Version::One => Err(LineFault::Word),
            Version::Two => named_request(plan, words),
        },
    }
}

#[tactic(auto, unfolding(crate::specs::Words::form_at))]
fn bare_request(plan: &Plan, k: &[u8], t: &[u8], hash: &[u8]) -> Result<Event, LineFault>
    ensures value { result ≡ form_at plan.now bare_requests (k.now ∷ t.now ∷ hash.now ∷ []) }
    ensures there { IfOk result (λ event. IsEvent plan.now event) }
{
    Ok(Event::Request(aggregator(plan, k)?, second(plan, t)?, digest(hash)?, None))
}

#[tactic(auto, unfolding(crate::specs::Words::form_at))]
fn named_request(plan: &Plan, words: Words<'_>) -> Result<Event, LineFault>
    ensures value { result ≡ form_at plan.now named_requests (words_left words.entry) }
    ensures there { IfOk result (λ event. IsEvent plan.now event) }
{
    let Some((k, t, hash, word)) = four(words) else {
        return Err(LineFault::Word)
    };
    Ok(Event::Request(
        aggregator(plan, k)?,
        second(plan, t)?,
        digest(hash)?,
        Some(name(word)?),
    ))
}

#[tactic(auto, unfolding(crate::specs::Words::form_at))]
fn close(plan: &Plan, words: Words<'_>) -> Result<Event, LineFault>
    ensures value { result ≡ form_at plan.now close_line.forms (words_left words.entry) }
    ensures there { IfOk result (λ event. IsEvent plan.now event) }
{
    let Some((k, t)) = two(words) else {
        return Err(LineFault::Word)
    };
    Ok(Event::Close(aggregator(plan, k)?, second(plan, t)?))
}

#[tactic(auto, unfolding(crate::specs::Words::form_at))]
fn deliver(words: Words<'_>) -> Result<Event, LineFault>
    ensures value { (plan : PlanState) → result ≡ form_at plan deliver_line.forms (words_left words.entry) }
    ensures there { (plan : PlanState) → IfOk result (λ event. IsEvent plan event) }
{
    let Some(m) = one(words) else {
        return Err(LineFault::Word)
    };
    Ok(Event::Deliver(number(m)?))
}

#[tactic(auto, unfolding(crate::specs::Words::form_at))]
fn restart(plan: &Plan, words: Words<'_>) -> Result<Event, LineFault>
    ensures value { result ≡ form_at plan.now restart_line.forms (words_left words.entry) }
    ensures there { IfOk result (λ event. IsEvent plan.now event) }
{
    let Some(actor) = one(words) else {
        return Err(LineFault::Word)
    };
    match actor {
        [b'c', j @ ..] => Ok(Event::RestartCore(core(plan, j)?)),
        [b'a', k @ ..] => Ok(Event::RestartAggregator(aggregator(plan, k)?)),
        _ => Err(LineFault::Word),
    }
}

#[tactic(auto, unfolding(crate::specs::Words::form_at))]
fn core_and_second(plan: &Plan, words: Words<'_>) -> Result<(u8, u64), LineFault>
    ensures value { result ≡ form_at plan.now core_and_second (words_left words.entry) }
    ensures core { IfOk result (λ said. said.0 < plan.now.cores) }
    ensures second { IfOk result (λ said. InRange plan.now said.1) }
{
    let Some((j, t)) = two(words) else {
        return Err(LineFault::Word)
    };
    Ok((core(plan, j)?, second(plan, t)?))
}
