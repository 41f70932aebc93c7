// Reads the first line of an entry.
ghost use Rattle.std.specs.Prelude.{◌≡◌, ◌<◌, ◌^◌, ◌↔◌, IfOk, IfSome, IsTrue, length};
ghost use Rattle.std.specs.Str.{bytes_eq};
ghost use Rattle.ksi_aggtree.specs.Names.{IsName};
ghost use Rattle.ksi_schedule.specs.Plans.{PlanState, InRange};
ghost use Rattle.ksi_schedule.specs.Events.{IsEvent};
ghost use Rattle.ksi_wire.specs.Asked.{Answers};
ghost use Rattle.ksi_records.specs.Entries.{first_line, restart_of, IsGiven, IsHead, IsEarly, IsEarlyGiven, IsEarlyHead};
ghost use Rattle.ksi_records.specs.Node.Steps.{IsThere};
ghost use Rattle.ksi_records.specs.Heads.{aggregator_at, aggregator_line_at, any_head_at, asked_at, came_in, core_at, core_event, core_line_at, delivered_in, given_at, head_at, imprint_at, is_core_word, line_to, message_at, name_at, node_at, number_at, place_word, request_at, rest_of, second_at, word_of};

use crate::head::{Given, Head};
use crate::printing::{put_came, put_head};
use crate::version::Version;
use ksi_aggtree::Name;
use ksi_imprint::{Imprint, Refused};
use ksi_schedule::{Actor, Event, Plan, read_number};
use ksi_synod::PLAN_SECONDS;
use ksi_wire::WireFault;
use memchr::memchr;
use std::alloc::Global;

/// What the first line of an entry says, where it is just as that is printed.
///
/// # Errors
/// The first fault of the words from the left, or `Spelling`. `NoMemory`.
#[tactic(auto, unfolding(crate::specs::Heads::head_at))]
pub(crate) fn read_head(
    alloc: Global,
    plan: &Plan,
    version: Version,
    line: &[u8],
) -> Result<Head, Refused<WireFault>>
    ensures exact { Answers (head_at plan.now version line.now) result }
    ensures text { IfOk result (λ head. line.now ≡ first_line version head (came_in version line.now)) }
    ensures there { IfOk result (IsHead plan.now) }
{
    let head = match any_head(plan, version, line) {
        Ok(head) => head,
        Err(fault) => return Err(Refused::Fault(fault)),
    };
    let mut again = Vec::new(alloc);
    put_head(alloc, &mut again, &head)?;
    put_came(&mut again, version, &head, came_in(version, line))?;
    if is(again.as_slice(), line) {
        Ok(head)
    } else {
        Err(Refused::Fault(WireFault::Spelling))
    }
}

/// What a line says whose words may be spelled otherwise.
fn any_head(plan: &Plan, version: Version, line: &[u8]) -> Result<Head, WireFault>
    ensures exact { result ≡ any_head_at plan.now version line.now }
    ensures there { IfOk result (IsHead plan.now) }
    ensures early { IfOk result IsEarlyHead }
{
    let (first, rest) = cut(line);
    if is(first, b"unsaid") {
        Ok(Head::Unsaid(given(plan, version, rest)?))
    } else if is(first, b"restart") {
        Ok(Head::Restarted(node_of(plan, rest)?))
    } else if is(first, b"sign") {
        Ok(Head::Sign(number(rest)?))
    } else {
        Ok(Head::Said(given(plan, version, line)?))
    }
}

fn given(plan: &Plan, version: Version, line: &[u8]) -> Result<Given, WireFault>
    ensures exact { result ≡ given_at plan.now version line.now }
    ensures there { IfOk result (IsGiven plan.now) }
    ensures early { IfOk result IsEarlyGiven }
{
    let (first, rest) = cut(line);
    if is(first, b"deliver") {
        return message(version, rest);
    }
    match node_of(plan, first)? {
        Actor::Core(core) => to_core(plan, core, rest),
        Actor::Aggregator(aggregator) => to_aggregator(plan, aggregator, rest),
    }
}

/// The step that sent a message, and the message's place.
fn message(version: Version, line: &[u8]) -> Result<Given, WireFault>
    ensures exact { result ≡ message_at version line.now }
    ensures early { IfOk result IsEarlyGiven }
{
    let (step, rest) = cut(line);
    let step = number(step)?;
    let place = number(place_word(version, rest))?;
    Ok(Given::Message(step, place))
}

/// The word of a message's place.
fn place_word(version: Version, rest: &[u8]) -> &[u8]
    ensures { result.now ≡ place_word version rest.now }
{
    match version {
        Version::One => rest,
        Version::Two => {
            let (word, _) = cut(rest);
            word
        }
    }
}

/// The line that came: of a delivery in version 2 what follows its three words.
pub(crate) fn came_in(version: Version, line: &[u8]) -> &[u8]
    ensures { result.now ≡ came_in version line.now }
{
    match version {
        Version::One => &[],
        Version::Two => {
            let (first, rest) = cut(line);
            if is(first, b"unsaid") {
                delivered_in(rest)
            } else {
                delivered_in(line)
            }
        }
    }
}

fn delivered_in(line: &[u8]) -> &[u8]
    ensures { result.now ≡ delivered_in line.now }
{
    let (first, rest) = cut(line);
    if !is(first, b"deliver") {
        return &[];
    }
    let (_, rest) = cut(rest);
    let (_, came) = cut(rest);
    came
}

/// A line to a core of the plan that no node sends: a word and a second.
fn to_core(plan: &Plan, core: u8, line: &[u8]) -> Result<Given, WireFault>
    requires { core < plan.now.cores }
    ensures exact { result ≡ core_line_at plan.now core line.now }
    ensures there { IfOk result (IsGiven plan.now) }
    ensures early { IfOk result IsEarlyGiven }
{
    let (kind, rest) = cut(line);
    if !is_core_word(kind) {
        return Err(WireFault::Word);
    }
    let t = second(plan, rest)?;
    Ok(Given::Line(0, core_event(kind, core, t)))
}

fn is_core_word(word: &[u8]) -> bool
    ensures { result ≡ is_core_word word.now }
{
    is(word, b"seal")
        || is(word, b"ballot")
        || is(word, b"tell")
        || is(word, b"respond")
        || is(word, b"publish")
}

/// The event of a core of a plan, in a second of it.
fn core_event(kind: &[u8], core: u8, t: u64) -> Event
    ensures event { result ≡ core_event kind.now core t }
    ensures there { (plan : PlanState) → core < plan.cores → InRange plan t → IsEvent plan result }
    ensures early { IsEarly result }
{
    if is(kind, b"seal") {
        Event::Seal(core, t)
    } else if is(kind, b"ballot") {
        Event::Ballot(core, t)
    } else if is(kind, b"tell") {
        Event::Tell(core, t)
    } else if is(kind, b"respond") {
        Event::Respond(core, t)
    } else {
        Event::Publish(core, t)
    }
}

/// A line to an aggregator of the plan that no node sends.
fn to_aggregator(plan: &Plan, aggregator: u32, line: &[u8]) -> Result<Given, WireFault>
    requires { aggregator < length plan.now.parents }
    ensures exact { result ≡ aggregator_line_at plan.now aggregator line.now }
    ensures there { IfOk result (IsGiven plan.now) }
    ensures early { IfOk result IsEarlyGiven }
{
    let (kind, rest) = cut(line);
    if is(kind, b"request") {
        request(plan, aggregator, rest)
    } else if is(kind, b"close") {
        let t = second(plan, rest)?;
        Ok(Given::Line(0, Event::Close(aggregator, t)))
    } else {
        Err(WireFault::Word)
    }
}

/// A request of an aggregator of the plan.
fn request(plan: &Plan, aggregator: u32, line: &[u8]) -> Result<Given, WireFault>
    requires { aggregator < length plan.now.parents }
    ensures exact { result ≡ request_at plan.now aggregator line.now }
    ensures there { IfOk result (IsGiven plan.now) }
    ensures early { IfOk result IsEarlyGiven }
{
    let (first, rest) = cut(line);
    let n = number(first)?;
    let (first, rest) = cut(rest);
    let t = second(plan, first)?;
    let (first, rest) = cut(rest);
    let imprint = imprint(first)?;
    let name = name(rest)?;
    Ok(Given::Line(n, Event::Request(aggregator, t, imprint, name)))
}

fn imprint(word: &[u8]) -> Result<Imprint, WireFault>
    ensures { result ≡ imprint_at word.now }
{
    let Ok(text) = str::from_utf8(word) else {
        return Err(WireFault::Hash);
    };
    match Imprint::from_hex(text) {
        Ok(imprint) => Ok(imprint),
        Err(_) => Err(WireFault::Hash),
    }
}

/// The name that is left, if one is.
fn name(word: &[u8]) -> Result<Option<Name>, WireFault>
    ensures exact { result ≡ name_at word.now }
    ensures name { IfOk result (λ name. IfSome name IsName) }
{
    if word.is_empty() {
        return Ok(None);
    }
    match Name::read(word) {
        Some(name) => Ok(Some(name)),
        None => Err(WireFault::Name),
    }
}

/// The second of the plan that a word is.
fn second(plan: &Plan, word: &[u8]) -> Result<u64, WireFault>
    ensures exact { result ≡ second_at plan.now word.now }
    ensures there { IfOk result (InRange plan.now) }
    ensures early { IfOk result (λ t. t < 2 ^ 63) }
{
    let n = number(word)?;
    let start = plan.core_plan().start();
    if start <= n && n - start < PLAN_SECONDS {
        Ok(n)
    } else {
        Err(WireFault::Second)
    }
}

/// The node of the plan that a word names.
pub fn node_of(plan: &Plan, word: &[u8]) -> Result<Actor, WireFault>
    ensures exact { result ≡ node_at plan.now word.now }
    ensures there { IfOk result (λ actor. IsEvent plan.now (restart_of actor)) }
    ensures member { IfOk result (IsThere plan.now) }
{
    match word {
        [b'c', digits @ ..] => core(plan, digits),
        [b'a', digits @ ..] => aggregator(plan, digits),
        _ => Err(WireFault::Word),
    }
}

fn core(plan: &Plan, digits: &[u8]) -> Result<Actor, WireFault>
    ensures exact { result ≡ core_at plan.now digits.now }
    ensures there { IfOk result (λ actor. IsEvent plan.now (restart_of actor)) }
    ensures member { IfOk result (IsThere plan.now) }
{
    let n = number(digits)?;
    if n < u64::from(plan.cores()) {
        Ok(Actor::Core(n as u8))
    } else {
        Err(WireFault::Actor)
    }
}

fn aggregator(plan: &Plan, digits: &[u8]) -> Result<Actor, WireFault>
    ensures exact { result ≡ aggregator_at plan.now digits.now }
    ensures there { IfOk result (λ actor. IsEvent plan.now (restart_of actor)) }
    ensures member { IfOk result (IsThere plan.now) }
{
    let n = number(digits)?;
    if n < plan.aggregators() as u64 {
        Ok(Actor::Aggregator(n as u32))
    } else {
        Err(WireFault::Actor)
    }
}

fn number(word: &[u8]) -> Result<u64, WireFault>
    ensures { result ≡ number_at word.now }
{
    match read_number(word) {
        Some(n) => Ok(n),
        None => Err(WireFault::Number),
    }
}

/// What is before the first space, and what follows it.
fn cut(line: &[u8]) -> (&[u8], &[u8])
    ensures word { result.0.now ≡ word_of line.now }
    ensures rest { result.1.now ≡ rest_of line.now }
{
    match memchr(b' ', line) {
        Some(place) => {
            let (word, rest) = line.split_at(place);
            let (_, behind) = rest.split_at(1);
            (word, behind)
        }
        None => (line, &[]),
    }
}

/// Whether a word is this one.
pub(crate) fn is(word: &[u8], text: &[u8]) -> bool
    ensures value { result ≡ bytes_eq word.now text.now }
    ensures same { IsTrue result ↔ (text.now ≡ word.now) }
{
    word == text
}
