//! The events of a world as rows of text, and what comes of them.
ghost use Rattle.std.specs.Prelude.{◌≡◌, ◌<◌};
ghost use Rattle.ksi_schedule.specs.Events.{IsEvent};

use crate::printed::{put_above, put_answer, put_item, put_signature, put_some, put_synod};
use crate::same::same;
use crate::text::{Text, meant};
use ksi_corenode::Core;
use ksi_imprint::Sha;
use ksi_schedule::{Schedule, read_schedule};
use ksi_world::{Actor, Content, Event, LentMessage, NoMemory, World};
use std::alloc::Global;
use std::process::Abort;
use std::test::Fail;

/// A line of a schedule whose words are these and what they stand for.
fn put_line(schedule: &mut Text, line: &str) {
    for word in line.split_whitespace() {
        schedule.word(word);
    }
    schedule.end();
}

/// The lines of a plan and the left sides of rows.
fn put_schedule(text: &mut Text, plan: &str, rows: &str) {
    for line in plan.lines() {
        put_line(text, line);
    }
    for row in rows.lines() {
        put_line(text, side(row, false));
    }
}

/// The schedule of a plan and the left sides of rows.
fn schedule_of(alloc: Global, plan: &str, rows: &str) -> Result<Schedule, Fail> {
    let mut text = Text::new(alloc);
    put_schedule(&mut text, plan, rows);
    match read_schedule(alloc, text.as_str().as_bytes()) {
        Ok(schedule) => Ok(schedule),
        Err(_) => Err(Fail::from("no schedule")),
    }
}

/// What stands before the equals sign of a row, or behind it.
fn side(row: &str, behind: bool) -> &str {
    match row.split_once(" = ") {
        Some((event, told)) => { if behind { told } else { event } }
        None => row,
    }
}

fn put_actor(text: &mut Text, actor: Actor) {
    match actor {
        Actor::Core(core) => text.number("c", u64::from(core)),
        Actor::Aggregator(aggregator) => text.number("a", u64::from(aggregator)),
    }
}

/// A message: from whom it comes, to whom it goes, its second and what it says.
fn put_message(text: &mut Text, message: &LentMessage<'_>) {
    put_actor(text, message.sender);
    put_actor(text, message.addressee);
    text.number("", message.second);
    match message.content {
        Content::Synod(synod) => put_synod(text, synod),
        Content::Submission(item) => put_item(text, item),
        Content::Response(above) => put_above(text, above),
    }
}

/// Each message behind so many.
fn put_sent(text: &mut Text, world: &World<Sha>, before: usize) {
    for number in before..world.wire().len() {
        if let Some(message) = world.wire().get(number) {
            text.word("/");
            put_message(text, &message);
        }
    }
}

/// Takes the event, and tells the answer and each message that is sent.
fn tell(alloc: Global, world: &mut World<Sha>, event: Event) -> Result<Text, NoMemory>
    requires { IsEvent world.old.plan event }
    ensures { world.new.plan ≡ world.old.plan }
{
    let before = world.wire().len();
    let outcome = world.step(event)?;
    let mut text = Text::new(alloc);
    put_answer(&mut text, &outcome.answer);
    put_sent(&mut text, world, before);
    Ok(text)
}

/// The event tells what stands behind the equals sign of its row.
fn happens(
    rt: &impl Abort,
    alloc: Global,
    world: &mut World<Sha>,
    event: Event,
    row: &str,
) -> Result<(), Fail>
    requires { IsEvent world.old.plan event }
    ensures { world.new.plan ≡ world.old.plan }
{
    let told = tell(alloc, world, event)?;
    same(rt, row, told.as_str(), side(row, true));
    Ok(())
}

/// The world after the events of a schedule, each of which tells what stands behind the equals sign of its row.
fn happened(
    rt: &impl Abort,
    alloc: Global,
    schedule: &Schedule,
    rows: &str,
) -> Result<World<Sha>, Fail> {
    let mut world = World::new(alloc, schedule.plan())?;
    let mut rows = rows.lines();
    'events: for event in schedule.events() {
        let row = rows.next().unwrap_or("");
        happens(rt, alloc, &mut world, *event, row)?;
    }
    Ok(world)
}

/// What a core has of a second, where it has anything.
fn put_second(text: &mut Text, core: &Core<Sha>, t: u64) {
    if let Some(entries) = core.sealed(t) {
        text.number("sealed ", t);
        text.number("", entries.len() as u64);
        put_some(text, core.candidate(t));
    }
    if let Some(root) = core.held(t) {
        text.number("held ", t);
        text.imprint(&root);
    }
}

/// What a core has.
fn put_core(text: &mut Text, world: &World<Sha>, core: u8)
    requires { core < world.now.plan.cores }
{
    let start = world.plan().start();
    let core = world.core(core);
    text.number("settled ", core.settled());
    for t in start..start.saturating_add(3) {
        put_second(text, core, t);
    }
    text.end();
}

/// What is kept: of each second its root and its items.
fn put_kept(text: &mut Text, world: &World<Sha>) {
    if let Ok(kept) = world.kept() {
        for one in kept.seconds.as_slice() {
            text.number("kept ", one.second);
            text.imprint(&one.root);
            for item in one.items.as_slice() {
                put_item(text, item);
            }
            text.end();
        }
    }
}

/// The roots that are published.
fn put_published(text: &mut Text, world: &World<Sha>) {
    for (second, root) in world.published().iter() {
        text.number("published ", *second);
        text.imprint(root);
        text.end();
    }
}

/// The signature of a request.
fn put_request(text: &mut Text, alloc: Global, world: &World<Sha>, number: u64) {
    text.number("request ", number);
    if let Ok(Some(bytes)) = world.issued(number) {
        put_signature(text, alloc, bytes.as_slice());
    }
    text.end();
}

/// How many events, messages and requests there are, what each core has, and what is published, kept and issued.
fn put_state(text: &mut Text, alloc: Global, world: &World<Sha>) {
    text.number("events ", world.events().len() as u64);
    text.number("messages ", world.wire().len() as u64);
    text.end();
    for core in 0..world.plan().cores() {
        put_core(text, world, core);
    }
    put_published(text, world);
    put_kept(text, world);
    for number in 0..world.requests().len() {
        put_request(text, alloc, world, number as u64);
    }
}

/// The world is in this state.
fn is_so(rt: &impl Abort, alloc: Global, rows: &str, world: &World<Sha>, want: &str) {
    let mut text = Text::new(alloc);
    put_state(&mut text, alloc, world);
    same(rt, rows, text.as_str().trim_end(), want);
}

/// The world is in this state behind the events of a schedule.
fn end_so(
    rt: &impl Abort,
    alloc: Global,
    schedule: &Schedule,
    rows: &str,
    want: &str,
) -> Result<(), Fail> {
    let world = happened(rt, alloc, schedule, rows)?;
    is_so(rt, alloc, rows, &world, want);
    Ok(())
}

/// Each row has an event of the plan and what it tells, and the world is in this state behind them.
pub(crate) fn are_so(
    rt: &impl Abort,
    alloc: Global,
    plan: &str,
    rows: &str,
    want: &str,
) -> Result<(), Fail> {
    let schedule = schedule_of(alloc, plan, rows)?;
    end_so(rt, alloc, &schedule, rows, want)
}
