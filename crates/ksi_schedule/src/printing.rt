// The text of a schedule.
ghost use Rattle.std.specs.Prelude.{◌≡◌, ◌<◌, ◌^◌, ◌++◌, ◌∷◌, [], OnOk, IfOk, map, codes};
ghost use Rattle.std.specs.List.{AllByRecursion, list_any};
ghost use Rattle.ksi_schedule.specs.Spelled.{IsScheduleText};
ghost use Rattle.ksi_schedule.specs.Printed.{IsTyped, piece_text, line_of, core_word, actor_word, under_words, header_words, members_words, is_named_parent, is_named_request, version_of, version_word, event_words, parent_words, spaced, text_of_lines, schedule_text};
ghost use Rattle.ksi_synod.specs.CorePlans.{AreVoters};
ghost use Rattle.std.specs.Fmt.{decimal};
ghost use Rattle.ksi_schedule.specs.declared.printing.Piece.TheVariants as pieces;
ghost use Rattle.ksi_schedule.specs.declared.event.Event.TheVariants as events;

use crate::actor::Actor;
use crate::event::Event;
use crate::parent::Parent;
use crate::plan::Plan;
use crate::schedule::Schedule;
use crate::version::Version;
use itoa::Buffer;
use ksi_aggtree::Name;
use ksi_imprint::{Bytes, Imprint, NoMemory};
use ksi_synod::laws::voters_are_cores;
use ksi_synod::{CorePlan, Voters, VotersFrom};
use std::alloc::Global;

// A word of a line.
#[derive(Clone, Copy)]
enum Piece<'a> {
    Text(&'a [u8]),
    Number(u64),
    Named(Actor),
}

/// The text of a schedule: numbers without leading zeros, digests in lower case, a line feed after each line.
///
/// # Errors
/// `NoMemory`: nothing is made.
pub fn print(alloc: Global, schedule: &Schedule) -> Result<Bytes, NoMemory>
    ensures text { IfOk result (λ text. text ≡ schedule_text schedule.now) }
    ensures read_again { IfOk result (λ text. IsScheduleText text schedule.now) }
{
    let mut text = Vec::new(alloc);
    put_header(&mut text, version_of(schedule), schedule.plan())?;
    put_voters(&mut text, schedule.plan().core_plan())?;
    put_parents(&mut text, schedule.plan().parents.as_slice())?;
    put_events(&mut text, schedule.events())?;
    Ok(Bytes::from_vec(text))
}

fn put_header(text: &mut Vec<u8>, version: Version, plan: &Plan) -> Result<(), NoMemory>
    ensures { OnOk result (text.new.items ≡ text.old.items ++ text_of_lines (header_words version plan.now)) }
{
    put_word(text, b"ksi-schedule", version_word(version))?;
    put_count(text, b"cores", u64::from(plan.cores()))?;
    put_count(text, b"start", plan.start())?;
    Ok(())
}

fn put_word(text: &mut Vec<u8>, name: &[u8], word: &[u8]) -> Result<(), NoMemory>
    ensures { OnOk result (text.new.items ≡ text.old.items ++ (line_of (name.now ∷ word.now ∷ []) ++ 10 ∷ [])) }
{
    put_line(text, &[Piece::Text(name), Piece::Text(word)])
}

fn put_count(text: &mut Vec<u8>, name: &[u8], count: u64) -> Result<(), NoMemory>
    ensures { OnOk result (text.new.items ≡ text.old.items ++ (line_of (name.now ∷ decimal count ∷ []) ++ 10 ∷ [])) }
{
    put_line(text, &[Piece::Text(name), number(count)])
}

// Version 2 where a line says who votes, or a name.
fn version_of(schedule: &Schedule) -> Version
    ensures { result ≡ version_of schedule.now }
{
    let plan = schedule.plan();
    if !plan.core_plan().voters().is_empty()
        || have_named(plan.parents.as_slice())
        || ask_named(schedule.events())
    {
        Version::Two
    } else {
        Version::One
    }
}

// Whether an aggregator submits under a name.
fn have_named(parents: &[Parent]) -> bool
    ensures { result ≡ list_any is_named_parent parents.now }
{
    parents.iter().any(|parent| parent.name.is_some())
}

// Whether a request is made under a name.
fn ask_named(events: &[Event]) -> bool
    ensures { result ≡ list_any is_named_request events.now }
{
    events.iter().any(is_named_request)
}

fn is_named_request(event: &Event) -> bool
    ensures { result ≡ is_named_request event.now }
{
    match event {
        Event::Request(_, _, _, name) => name.is_some(),
        _ => false,
    }
}

fn version_word(version: Version) -> &'static [u8]
    ensures { result.now ≡ version_word version }
{
    match version {
        Version::One => b"1",
        Version::Two => b"2",
    }
}

fn put_voters(text: &mut Vec<u8>, plan: &CorePlan) -> Result<(), NoMemory>
    ensures { OnOk result (text.new.items ≡ text.old.items ++ text_of_lines (map members_words plan.now.voters)) }
{
    let cores = plan.cores();
    for pair in plan.voters() {
        put_members(text, cores, pair)?;
    }
    Ok(())
}

fn put_members(text: &mut Vec<u8>, cores: u8, pair: &VotersFrom) -> Result<(), NoMemory>
    requires { AreVoters cores pair.now.voters }
    ensures { OnOk result (text.new.items ≡ text.old.items ++ (line_of (members_words pair.now) ++ 10 ∷ [])) }
{
    put_piece(text, Piece::Text(b"members"))?;
    text.push(b' ')?;
    put_piece(text, number(pair.second))?;
    put_cores(text, cores, &pair.voters)?;
    text.push(b'\n')?;
    Ok(())
}

// A space and the core's word for each of the cores that votes.
fn put_cores(text: &mut Vec<u8>, cores: u8, voters: &Voters) -> Result<(), NoMemory>
    requires { AreVoters cores voters.now }
    ensures { OnOk result (text.new.items ≡ text.old.items ++ spaced (map core_word voters.now)) }
{
    voters_are_cores();
    for core in 0..cores {
        if voters.contains(core) {
            text.push(b' ')?;
            put_piece(text, Piece::Named(Actor::Core(core)))?;
        }
    }
    Ok(())
}

fn put_parents(text: &mut Vec<u8>, parents: &[Parent]) -> Result<(), NoMemory>
    ensures { OnOk result (text.new.items ≡ text.old.items ++ text_of_lines (parent_words 0 parents.now)) }
{
    for (k, parent) in parents.iter().enumerate() {
        put_parent(text, k as u64, parent)?;
    }
    Ok(())
}

fn put_parent(text: &mut Vec<u8>, aggregator: u64, parent: &Parent) -> Result<(), NoMemory>
    ensures { OnOk result (text.new.items ≡ text.old.items ++ (line_of (codes "aggregator" ∷ decimal aggregator ∷ codes "parent" ∷ actor_word parent.now.actor ∷ under_words parent.now.name) ++ 10 ∷ [])) }
{
    match &parent.name {
        None => put_line(
            text,
            &[
                Piece::Text(b"aggregator"),
                number(aggregator),
                Piece::Text(b"parent"),
                Piece::Named(parent.actor),
            ],
        ),
        Some(name) => put_line(
            text,
            &[
                Piece::Text(b"aggregator"),
                number(aggregator),
                Piece::Text(b"parent"),
                Piece::Named(parent.actor),
                Piece::Text(b"name"),
                Piece::Text(name.as_bytes()),
            ],
        ),
    }
}

fn put_events(text: &mut Vec<u8>, events: &[Event]) -> Result<(), NoMemory>
    ensures text { OnOk result (text.new.items ≡ text.old.items ++ text_of_lines (map event_words events.now)) }
    ensures typed { OnOk result (AllByRecursion IsTyped events.now) }
{
    for event in events {
        put_event(text, event)?;
    }
    Ok(())
}

fn put_event(text: &mut Vec<u8>, event: &Event) -> Result<(), NoMemory>
    ensures text { OnOk result (text.new.items ≡ text.old.items ++ (line_of (event_words event.now) ++ 10 ∷ [])) }
    ensures typed { OnOk result (IsTyped event.now) }
{
    match event {
        Event::Request(k, t, imprint, name) => put_request(text, *k, *t, imprint, name),
        Event::Close(k, t) => put_of_second(text, b"close", u64::from(*k), *t),
        Event::Seal(j, t) => put_of_second(text, b"seal", u64::from(*j), *t),
        Event::Ballot(j, t) => put_of_second(text, b"ballot", u64::from(*j), *t),
        Event::Deliver(n) => put_line(text, &[Piece::Text(b"deliver"), number(*n)]),
        Event::Tell(j, t) => put_of_second(text, b"tell", u64::from(*j), *t),
        Event::Respond(j, t) => put_of_second(text, b"respond", u64::from(*j), *t),
        Event::Publish(j, p) => put_of_second(text, b"publish", u64::from(*j), *p),
        Event::RestartCore(j) => put_line(
            text,
            &[Piece::Text(b"restart"), Piece::Named(Actor::Core(*j))],
        ),
        Event::RestartAggregator(k) => put_line(
            text,
            &[Piece::Text(b"restart"), Piece::Named(Actor::Aggregator(*k))],
        ),
    }
}

fn put_request(
    text: &mut Vec<u8>,
    aggregator: u32,
    second: u64,
    imprint: &Imprint,
    name: &Option<Name>,
) -> Result<(), NoMemory>
    ensures text { OnOk result (text.new.items ≡ text.old.items ++ (line_of (event_words (events.Request aggregator second imprint.now name.now)) ++ 10 ∷ [])) }
    ensures typed { OnOk result (IsTyped (events.Request aggregator second imprint.now name.now)) }
{
    let mut digits = [0; 64];
    imprint.write_hex(&mut digits);
    match name {
        None => put_line(
            text,
            &[
                Piece::Text(b"request"),
                number(u64::from(aggregator)),
                number(second),
                Piece::Text(&digits),
            ],
        ),
        Some(name) => put_named(
            text,
            u64::from(aggregator),
            second,
            &digits,
            name.as_bytes(),
        ),
    }
}

fn put_named<'a>(
    text: &mut Vec<u8>,
    aggregator: u64,
    second: u64,
    digits: &'a [u8],
    name: &'a [u8],
) -> Result<(), NoMemory>
    ensures { OnOk result (text.new.items ≡ text.old.items ++ (line_of (codes "request" ∷ decimal aggregator ∷ decimal second ∷ digits.now ∷ name.now ∷ []) ++ 10 ∷ [])) }
{
    put_line(
        text,
        &[
            Piece::Text(b"request"),
            number(aggregator),
            number(second),
            Piece::Text(digits),
            Piece::Text(name),
        ],
    )
}

// A name, an actor's number and a second.
fn put_of_second(text: &mut Vec<u8>, name: &[u8], actor: u64, second: u64) -> Result<(), NoMemory>
    ensures { OnOk result (text.new.items ≡ text.old.items ++ (line_of (name.now ∷ decimal actor ∷ decimal second ∷ []) ++ 10 ∷ [])) }
{
    put_line(text, &[Piece::Text(name), number(actor), number(second)])
}

fn number(n: u64) -> Piece<'static>
    ensures value { result ≡ pieces.Number n }
    ensures fits { n < 2 ^ 64 }
{
    Piece::Number(n)
}

// The pieces, parted by spaces, and a line feed.
fn put_line(text: &mut Vec<u8>, pieces: &[Piece<'_>]) -> Result<(), NoMemory>
    ensures { OnOk result (text.new.items ≡ text.old.items ++ (line_of (map piece_text pieces.now) ++ 10 ∷ [])) }
{
    if let [first, rest @ ..] = pieces {
        put_piece(text, *first)?;
        for piece in rest {
            text.push(b' ')?;
            put_piece(text, *piece)?;
        }
    }
    text.push(b'\n')?;
    Ok(())
}

fn put_piece(text: &mut Vec<u8>, piece: Piece<'_>) -> Result<(), NoMemory>
    ensures { OnOk result (text.new.items ≡ text.old.items ++ piece_text piece.entry) }
{
    match piece {
        Piece::Text(word) => text.extend_from_slice(word),
        Piece::Number(n) => put_number(text, n),
        Piece::Named(Actor::Core(j)) => {
            text.push(b'c')?;
            put_number(text, u64::from(j))
        }
        Piece::Named(Actor::Aggregator(k)) => {
            text.push(b'a')?;
            put_number(text, u64::from(k))
        }
    }
}

fn put_number(text: &mut Vec<u8>, n: u64) -> Result<(), NoMemory>
    ensures { OnOk result (text.new.items ≡ text.old.items ++ decimal n) }
{
    let mut buffer = Buffer::new();
    text.extend_from_slice(buffer.format(n).as_bytes())
}
