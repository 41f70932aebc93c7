// Names of aggregators and requests.
use crate::imprints::hash;
use crate::same::same;
use crate::schedule_texts::{are_read, schedule_of};
use ksi_schedule::{Actor, Event, Name, Parent, Plan};
use std::process::Abort;
use std::test::Fail;

/// Lines behind `ksi-schedule 2`, `cores 2`, `start 100` and one aggregator, of which the first is line 5.
const BEHIND_THE_HEADER: &str = "request 0 100 # al = request 0 100 # al|
request 0 100 # A.b_c-9 = request 0 100 # A.b_c-9|
request 0 100 # * = request 0 100 # *|
aggregator 1 parent a0 name bob|aggregator 2 parent c1 name *|request 2 100 # 7|request 1 100 # = aggregator 1 parent a0 name bob|aggregator 2 parent c1 name *|request 2 100 # 7|request 1 100 #|
request 0 100 # b/b = Line(Name, 5)
request 0 100 #  = Line(Name, 5)
request 0 100 # *x = Line(Name, 5)
request 0 100 # al+ = Line(Name, 5)
aggregator 1 parent c0 name b/b = Line(Name, 5)
aggregator 1 parent a0 name  = Line(Name, 5)
aggregator 1 parent a0 name *x = Line(Name, 5)
aggregator 2 parent c0 name b/b = Line(Name, 5)
request 0 100 # al|request 0 100 # b/b = Line(Name, 6)
aggregator 1 parent c0 name al|aggregator 2 parent c0 name b/b = Line(Name, 6)
request 0 100 # al bob = Line(Word, 5)
request 0 100 b/b al # al = Line(Word, 5)
aggregator 1 parent c0 name = Line(Word, 5)
aggregator 1 parent c0 al = Line(Word, 5)
aggregator 1 parent c0 nam al = Line(Word, 5)
aggregator 1 child c0 name b/b = Line(Word, 5)
aggregator 1 parent x0 name al = Line(Word, 5)
aggregator 1 parent c0 name al bob = Line(Word, 5)
close 0 100 al = Line(Word, 5)
request x 100 # b/b = Line(Number, 5)
aggregator x parent c0 name b/b = Line(Number, 5)
request 1 100 # b/b = Line(NoSuchActor, 5)
aggregator 1 parent c2 name b/b = Line(NoSuchActor, 5)
aggregator 2 parent a1 name al = Line(NoSuchActor, 5)
request 0 100 x b/b = Line(Hash, 5)
request 0 100 b/b al = Line(Hash, 5)
aggregator 2 parent c0 name al = Line(Header, 5)";

/// Lines behind the same header of version 1.
const OF_ONE: &str = "request 0 100 # al = Line(Word, 5)
request 0 100 # b/b = Line(Word, 5)
aggregator 1 parent c0 name al = Line(Word, 5)
aggregator 1 parent c0 name b/b = Line(Word, 5)";

/// Whole texts, and what is printed of them.
const WHOLE: &str =
    "ksi-schedule 2|cores 2|start 100|aggregator 0 parent c0|request 0 100 # = ksi-schedule 1|cores 2|start 100|aggregator 0 parent c0|request 0 100 #|
ksi-schedule 2|cores 1|start 7|aggregator 00 parent c0|request 00 007 ^ al = ksi-schedule 2|cores 1|start 7|aggregator 0 parent c0|request 0 7 # al|
ksi-schedule 2|cores 1|start 7|aggregator 00 parent c00 name bob = ksi-schedule 2|cores 1|start 7|aggregator 0 parent c0 name bob|
ksi-schedule 2|cores 1|start 7|aggregator 0 parent c0|request 0 7 # = ksi-schedule 1|cores 1|start 7|aggregator 0 parent c0|request 0 7 #|
ksi-schedule 2|cores 3|start 7|members 7 c1|aggregator 0 parent c1 name *|aggregator 1 parent a0|request 1 8 # * = ksi-schedule 2|cores 3|start 7|members 7 c1|aggregator 0 parent c1 name *|aggregator 1 parent a0|request 1 8 # *|
ksi-schedule 2|cores 1|start 7|aggregator 0 parent c0 name bob|aggregator 1 parent a0|request 1 7 # al|request 0 8 #| = ksi-schedule 2|cores 1|start 7|aggregator 0 parent c0 name bob|aggregator 1 parent a0|request 1 7 # al|request 0 8 #|";

/// Headers, and behind each rows of lines.
static TEXTS: [(&str, &str); 3] = [
    (
        "ksi-schedule 2|cores 2|start 100|aggregator 0 parent c0|",
        BEHIND_THE_HEADER,
    ),
    (
        "ksi-schedule 1|cores 2|start 100|aggregator 0 parent c0|",
        OF_ONE,
    ),
    ("", WHOLE),
];

#[test]
fn each_text_with_a_name_is_printed_in_one_way_or_has_its_fault(
    rt: HostRuntime,
) -> Result<(), Fail> {
    for (header, rows) in &TEXTS {
        are_read(&rt, rt.alloc(), header, rows)?;
    }
    Ok(())
}

fn has_parents(rt: &impl Abort, parents: &[Parent]) {
    let wanted = [
        Parent {
            actor: Actor::Core(0),
            name: Name::read(b"bob"),
        },
        Parent {
            actor: Actor::Aggregator(0),
            name: None,
        },
    ];
    same(rt, "parents", parents, wanted.as_slice());
}

fn are_named(rt: &impl Abort, events: &[Event]) {
    let wanted = [
        Event::Request(1, 7, hash(), Name::read(b"al")),
        Event::Request(0, 8, hash(), None),
    ];
    same(rt, "events", events, wanted.as_slice());
}

#[test]
fn names_are_read(rt: HostRuntime) -> Result<(), Fail> {
    let schedule = schedule_of(
        rt.alloc(),
        "ksi-schedule 2|cores 1|start 7|aggregator 0 parent c0 name bob|aggregator 1 parent a0|request 1 7 # al|request 0 8 #|",
    )?;
    has_parents(&rt, schedule.plan().parents.as_slice());
    are_named(&rt, schedule.events());
    Ok(())
}

static LONGEST: &[u8] = b"abcdefghijklmnopqrstuvwxyzABCDEFGHIJKLMNOPQRSTUVWXYZ0123456789._";

fn has_a_parent_and_a_name(rt: &impl Abort, plan: &Plan) {
    same(rt, "aggregators", plan.aggregators(), 2);
    if plan.aggregators() == 2 {
        same(rt, "parent", plan.parent(1), Actor::Aggregator(0));
        same(rt, "no name", plan.name(0), None);
        same(rt, "name", plan.name(1), Name::read(LONGEST));
    }
}

#[test]
fn an_aggregator_has_a_parent_and_a_name(rt: HostRuntime) -> Result<(), Fail> {
    let schedule = schedule_of(
        rt.alloc(),
        "ksi-schedule 2|cores 1|start 7|aggregator 0 parent c0|aggregator 1 parent a0 name *|",
    )?;
    has_a_parent_and_a_name(&rt, schedule.plan());
    Ok(())
}
