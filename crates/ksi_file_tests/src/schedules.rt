// Lines of schedules, what is printed of them, and their first faults.
use crate::same::{same, same_text};
use crate::schedule_texts::{are_read, schedule_of, spelled_behind};
use crate::text::{is_refused, push, sides};
use ksi_schedule::{
    Actor, Event, Events, Parent, Parents, Plan, Refused, Schedule, ScheduleFault, read_schedule,
};
use ksi_synod::CorePlan;
use std::alloc::Global;
use std::process::Abort;
use std::test::Fail;

/// One aggregator below one core, and a request on its way to a published root.
const WHOLE_PATH: &str =
    "ksi-schedule 1|cores 1|start 1700000000|aggregator 0 parent c0|request 0 1700000000 #|close 0 1700000000|deliver 0|seal 0 1700000000|ballot 0 1700000000|deliver 1|deliver 2|deliver 3|deliver 4|respond 0 1700000000|deliver 6|publish 0 1700000000|";

const EVENTS: &str =
    "Request(0, 1700000000, Imprint { bytes: [1, 227, 176, 196, 66, 152, 252, 28, 20, 154, 251, 244, 200, 153, 111, 185, 36, 39, 174, 65, 228, 100, 155, 147, 76, 164, 149, 153, 27, 120, 82, 184, 85] }, None)
Close(0, 1700000000)
Deliver(0)
Seal(0, 1700000000)
Ballot(0, 1700000000)
Deliver(1)
Deliver(2)
Deliver(3)
Deliver(4)
Respond(0, 1700000000)
Deliver(6)
Publish(0, 1700000000)
";

fn are_events(rt: &impl Abort, alloc: Global, events: &[Event], want: &str) -> Result<(), Fail> {
    let mut said = String::new(alloc);
    for event in events {
        push(alloc, &mut said, *event)?;
    }
    same_text(rt, "events", said.as_str(), want);
    Ok(())
}

fn is_one_below_one(rt: &impl Abort, plan: &Plan) {
    const PARENTS: [Parent; 1] = [Parent {
        actor: Actor::Core(0),
        name: None,
    }];
    same(rt, "cores", plan.cores(), 1);
    same(rt, "start", plan.start(), 1_700_000_000);
    same(rt, "voters", plan.core_plan().voters().len(), 0);
    same(rt, "parents", plan.parents.as_slice(), &PARENTS);
}

#[test]
fn twelve_events_are_read(rt: HostRuntime) -> Result<(), Fail> {
    let schedule = schedule_of(rt.alloc(), WHOLE_PATH)?;
    is_one_below_one(&rt, schedule.plan());
    are_events(&rt, rt.alloc(), schedule.events(), EVENTS)
}

/// Whole texts, and what is printed of them or their fault.
const WHOLE: &str = "ksi-schedule 2|cores 3|start 100| = ksi-schedule 1|cores 3|start 100|
ksi-schedule 2|cores 3|start 100|seal 0 100 = ksi-schedule 1|cores 3|start 100|seal 0 100|
ksi-schedule 1|cores 1|start 0 = ksi-schedule 1|cores 1|start 0|
ksi-schedule 2|cores 1|start 0 = ksi-schedule 1|cores 1|start 0|
ksi-schedule 2|cores 03|start 7|members 007 c00 c2|members 16777222 c1|aggregator 0 parent c1|seal 1 8 = ksi-schedule 2|cores 3|start 7|members 7 c0 c2|members 16777222 c1|aggregator 0 parent c1|seal 1 8|
ksi-schedule 1|cores 009|start 09223372036837998592|deliver 18446744073709551615 = ksi-schedule 1|cores 9|start 9223372036837998592|deliver 18446744073709551615|
ksi-schedule 1|cores 2|start 7|aggregator 0 parent c1|aggregator 01 parent a00|request 1 16777222 ^|tell 01 7|restart c01|restart a01 = ksi-schedule 1|cores 2|start 7|aggregator 0 parent c1|aggregator 1 parent a0|request 1 16777222 #|tell 1 7|restart c1|restart a1|
 = Line(Header, 1)
| = Line(Header, 1)
ksi-schedule 3|cores 1|start 0 = Line(Header, 1)
ksi-schedule 2 |cores 1|start 0 = Line(Header, 1)
ksi-schedule  1|cores 1|start 0 = Line(Header, 1)
ksi-schedule 01|cores 1|start 0 = Line(Header, 1)
cores 1|start 0 = Line(Header, 1)
ksi-schedule 1 = Line(Header, 2)
ksi-schedule 1| = Line(Header, 2)
ksi-schedule 1|cores 0|start 0 = Line(Header, 2)
ksi-schedule 1|cores 10|start 0 = Line(Header, 2)
ksi-schedule 1|cores x|start 0 = Line(Header, 2)
ksi-schedule 1|core 1|start 0 = Line(Header, 2)
ksi-schedule 1|cores 1 |start 0 = Line(Header, 2)
ksi-schedule 1|cores 1 = Line(Header, 3)
ksi-schedule 1|cores 1|start = Line(Header, 3)
ksi-schedule 1|cores 1|start  = Line(Header, 3)
ksi-schedule 1|cores 1|start 9223372036837998593 = Line(Header, 3)
ksi-schedule 1|cores 1|cores 1 = Line(Header, 3)
ksi-schedule 1|cores 1|start 9223372036837998592 = ksi-schedule 1|cores 1|start 9223372036837998592|
ksi-schedule 1|cores 1|start 0|aggregator 0 parent c0|request 0 0 ~ = Line(Hash, 5)";

/// Lines behind `ksi-schedule 1`, `cores 2`, `start 100` and two aggregators, of which the first is line 6.
const BEHIND_THE_HEADER: &str = "seal 0 100 = seal 0 100|
seal 0 100| = seal 0 100|
seal 1 16777315 = seal 1 16777315|
request 1 100 # = request 1 100 #|
|seal 0 100 = Line(Word, 6)
seal 0 = Line(Word, 6)
seal 0 100  = Line(Word, 6)
 seal 0 100 = Line(Word, 6)
Seal 0 100 = Line(Word, 6)
sealed 0 100 = Line(Word, 6)
request 1 100 = Line(Word, 6)
restart 0 = Line(Word, 6)
restart b0 = Line(Word, 6)
restart  = Line(Word, 6)
aggregator 2 child c0 = Line(Word, 6)
aggregator 2 parent 0 = Line(Word, 6)
seal 0 100|| = Line(Word, 7)
deliver 0|aggregator 2 parent c0 = Line(Word, 7)
seal  100 = Line(Number, 6)
seal 0  = Line(Number, 6)
seal x 100 = Line(Number, 6)
seal 1 x = Line(Number, 6)
deliver 18446744073709551616 = Line(Number, 6)
deliver 000000000000000000000 = Line(Number, 6)
deliver -1 = Line(Number, 6)
restart c = Line(Number, 6)
aggregator x parent c = Line(Number, 6)
seal 2 x = Line(NoSuchActor, 6)
seal 2 99 = Line(NoSuchActor, 6)
request 2 99 x = Line(NoSuchActor, 6)
close 2 100 = Line(NoSuchActor, 6)
ballot 2 100 = Line(NoSuchActor, 6)
tell 2 100 = Line(NoSuchActor, 6)
respond 2 100 = Line(NoSuchActor, 6)
publish 2 100 = Line(NoSuchActor, 6)
restart c2 = Line(NoSuchActor, 6)
restart a2 = Line(NoSuchActor, 6)
aggregator 2 parent a2 = Line(NoSuchActor, 6)
aggregator 2 parent c2 = Line(NoSuchActor, 6)
aggregator 3 parent c2 = Line(NoSuchActor, 6)
seal 0 100|seal 9 100|nothing = Line(NoSuchActor, 7)
seal 1 99 = Line(SecondOutOfRange, 6)
seal 1 16777316 = Line(SecondOutOfRange, 6)
request 1 99 x = Line(SecondOutOfRange, 6)
request 1 100 x = Line(Hash, 6)
request 1 100  = Line(Hash, 6)
request 1 100 #0 = Line(Hash, 6)
aggregator 3 parent c0 = Line(Header, 6)
aggregator 1 parent c0 = Line(Header, 6)";

/// Lines behind `ksi-schedule 2`, `cores 3` and `start 100`, of which the first is line 4.
const WHO_VOTES: &str = "members 100 c0 = members 100 c0|
members 100 c0 c1 c2|members 16777315 c1|aggregator 0 parent c0|seal 0 100 = members 100 c0 c1 c2|members 16777315 c1|aggregator 0 parent c0|seal 0 100|
members = Line(Word, 4)
members 100 = Line(Word, 4)
members 100 c0  = Line(Word, 4)
members  100 c0 = Line(Word, 4)
members 100 0 = Line(Word, 4)
members x c9 a1 = Line(Word, 4)
members 99 c1 C1 = Line(Word, 4)
Members 100 c0 = Line(Word, 4)
 members 100 c0 = Line(Word, 4)
aggregator 0 parent c0|members 100 c0 = Line(Word, 5)
deliver 0|members x = Line(Word, 5)
members 100 c0|member 101 c0 = Line(Word, 5)
members x c9 = Line(Number, 4)
members 18446744073709551616 c1 c0 = Line(Number, 4)
members 100 c = Line(Number, 4)
members 100 cx c9 = Line(Number, 4)
members 100 c1 c1 c-1 = Line(Number, 4)
members 99 cx = Line(SecondOutOfRange, 4)
members 16777316 c9 = Line(SecondOutOfRange, 4)
members 99 c1 c1 = Line(SecondOutOfRange, 4)
members 100 c3 = Line(NoSuchActor, 4)
members 100 c3 cx = Line(NoSuchActor, 4)
members 100 c1 c1 c3 = Line(NoSuchActor, 4)
members 101 c0|members 100 c3 = Line(NoSuchActor, 5)
members 100 c1 c1 = Line(Header, 4)
members 100 c1 c0 = Line(Header, 4)
members 100 c0 c2 c1 = Line(Header, 4)
members 100 c0|members 100 c1 = Line(Header, 5)
members 101 c0|members 100 c1 = Line(Header, 5)";

/// A ninth aggregator behind eight that stand above one another.
const NINTH: &str = " = 
aggregator 8 parent a7| = Line(Header, 12)
aggregator 8 parent a6| = aggregator 8 parent a6|";

/// Headers, and behind each rows of lines.
static TEXTS: [(&str, &str); 6] = [
    (WHOLE_PATH, " = "),
    ("", WHOLE),
    (
        "ksi-schedule 1|cores 2|start 100|aggregator 0 parent c0|aggregator 1 parent a0|",
        BEHIND_THE_HEADER,
    ),
    ("ksi-schedule 2|cores 3|start 100|", WHO_VOTES),
    (
        "ksi-schedule 1|cores 3|start 100|",
        "members 100 c0 = Line(Word, 4)",
    ),
    (
        "ksi-schedule 1|cores 1|start 0|aggregator 0 parent c0|aggregator 1 parent a0|aggregator 2 parent a1|aggregator 3 parent a2|aggregator 4 parent a3|aggregator 5 parent a4|aggregator 6 parent a5|aggregator 7 parent a6|",
        NINTH,
    ),
];

#[test]
fn each_text_is_printed_in_one_way_or_has_its_fault(rt: HostRuntime) -> Result<(), Fail> {
    for (header, rows) in &TEXTS {
        are_read(&rt, rt.alloc(), header, rows)?;
    }
    Ok(())
}

/// So many lines that say who votes, a second apart.
fn say_who_votes(alloc: Global, text: &mut Vec<u8>, lines: u64) -> Result<(), Fail> {
    for second in 0..lines {
        let line = format!(in alloc; "members {second} c0\n")?;
        text.extend_from_slice(line.as_bytes())?;
    }
    Ok(())
}

/// The fault of a schedule of so many such lines.
fn fault_of_voters(alloc: Global, lines: u64) -> Result<Option<Refused<ScheduleFault>>, Fail> {
    let mut text = spelled_behind(alloc, "ksi-schedule 2|cores 1|start 0|", "")?;
    say_who_votes(alloc, &mut text, lines)?;
    Ok(read_schedule(alloc, text.as_slice()).err())
}

fn may_vote(rt: &impl Abort, alloc: Global, row: &str) -> Result<(), Fail> {
    let fault = fault_of_voters(alloc, sides(row).0.parse()?)?;
    is_refused(rt, alloc, row, fault)
}

/// How many such lines stand behind `start`, and their fault.
const LINES: &str = "255 = None
256 = None
257 = Line(Header, 260)";

#[test]
fn two_hundred_and_fifty_six_lines_may_say_who_votes(rt: HostRuntime) -> Result<(), Fail> {
    for row in LINES.lines() {
        may_vote(&rt, rt.alloc(), row)?;
    }
    Ok(())
}

#[test]
fn the_event_behind_a_million_is_one_too_many(rt: HostRuntime) -> Result<(), Fail> {
    let mut text = spelled_behind(rt.alloc(), "ksi-schedule 1|cores 1|start 0|", "")?;
    for _ in 0..1_000_001usize {
        text.extend_from_slice(b"deliver 0\n")?;
    }
    let told = read_schedule(rt.alloc(), text.as_slice()).err();
    is_refused(
        &rt,
        rt.alloc(),
        "fault = Line(TooManyEvents, 1000004)",
        told,
    )
}

/// The start and the number of events of a schedule that is made and parted again.
fn parts(alloc: Global) -> (u64, usize) {
    let plan = Plan {
        core_plan: CorePlan::new(1, 5),
        parents: Parents::from_vec(Vec::new(alloc)),
    };
    let events = Events::from_vec(Vec::new(alloc));
    let (plan, events) = Schedule::new(plan, events).into_parts();
    (plan.start(), events.as_slice().len())
}

#[test]
fn a_schedule_is_made_of_its_parts(rt: HostRuntime) {
    let (start, events) = parts(rt.alloc());
    same(&rt, "start", start, 5);
    same(&rt, "events", events, 0);
}
