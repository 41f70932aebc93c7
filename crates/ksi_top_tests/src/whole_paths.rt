// From a schedule to an accepted signature.
use crate::script::each_plays;
use std::test::Fail;

// One request, which is issued and published: what is replayed, signed and published of it.
pub(crate) const REPLAYED: &str =
    "text f ksi-schedule 1|cores 1|start 1700000000|aggregator 0 parent c0|request 0 1700000000 e3b0c44298fc1c149afbf4c8996fb92427ae41e4649b934ca495991b7852b855|close 0 1700000000|deliver 0|seal 0 1700000000|ballot 0 1700000000|deliver 1|deliver 2|deliver 3|deliver 4|respond 0 1700000000|deliver 6|publish 0 1700000000|
replay f j = Done events 12 messages 7 seconds 1 issued 1 published 1
sign j 0 s = Done signed 0
publish j p = Done published 1";

const ACCEPTED: &str = "verify s A p = Done accepted T
audit j s A p = Done inside T -
verify s B p = Refused refused V1 A B
sign j 1 s = Refused not issued 1";

const KNOWN: &str =
    "holds j 766 4b53494a524e4c31 01046553f100 022c 01046553f100 022101 A 030101 032201 A 00
holds s 615 88000263 88010032 02046553f100 030101 030101 052101 A
holds p 68 4b53495055424c46 8701";

// The signature with a byte behind it, and without its last one.
const OTHERS: &str = "hold l s: 00
hold m s:0-614
verify l A p = Malformed malformed 1 S2 615
verify m A p = Malformed malformed 1 S1 0";

// A request of a lower aggregator, and one of the upper.
const BENEATH: &str =
    "text f ksi-schedule 1|cores 1|start 1700000000|aggregator 0 parent c0|aggregator 1 parent a0|request 1 1700000000 e3b0c44298fc1c149afbf4c8996fb92427ae41e4649b934ca495991b7852b855|close 1 1700000000|deliver 0|request 0 1700000000 ba7816bf8f01cfea414140de5dae2223b00361a396177a9cb410ff61f20015ad|close 0 1700000000|deliver 1|seal 0 1700000000|ballot 0 1700000000|deliver 2|deliver 3|deliver 4|deliver 5|respond 0 1700000000|deliver 7|deliver 8|publish 0 1700000000|
replay f j = Done events 16 messages 9 seconds 1 issued 2 published 1
sign j 0 s = Done signed 0
publish j p = Done published 1
verify s A p = Done accepted T
audit j s A p = Done beneath T 0 1
extend j s T t = Done extended T T
audit j t A p = Done beneath T 0 1
sign j 1 s = Done signed 1
audit j s B p = Done beneath T 0 1";

// A schedule without events.
pub(crate) const NOTHING: &str = "text f ksi-schedule 1|cores 1|start 1700000000|
replay f j = Done events 0 messages 0 seconds 0 issued 0 published 0
publish j p = Done published 0
holds j 16 4b53494a524e4c31 01046553f100 0600
holds p 17 4b53495055424c46 87010005 010101 0200";

// Core 1 alone votes, and decides for core 0.
pub(crate) const ONE_VOTES: &str =
    "text f ksi-schedule 2|cores 3|start 1700000000|members 1700000000 c1|seal 0 1700000000|ballot 0 1700000000|deliver 0|deliver 1|deliver 2|deliver 3|
replay f j = Done events 6 messages 7 seconds 1 issued 0 published 0
publish j p = Done published 0";

const SCHEDULES: &str = "text f x
replay f j = Malformed malformed 1 L7 1
text f ksi-schedule 2|cores 3|start 1700000000|members 1700000000 c1 c1|
replay f j = Malformed malformed 1 L7 4
text f ksi-schedule 1|cores 3|start 1700000000|members 1700000000 c1|
replay f j = Malformed malformed 1 L1 4
text f ksi-schedule 1|cores 1|start 1700000000|aggregator 0 parent c0|request 1 1700000000 e3b0c44298fc1c149afbf4c8996fb92427ae41e4649b934ca495991b7852b855
replay f j = Malformed malformed 1 L4 5
text f ksi-schedule 1|cores 1|start 1700000000|aggregator 0 parent c0|request 0 1 e3b0c44298fc1c149afbf4c8996fb92427ae41e4649b934ca495991b7852b855
replay f j = Malformed malformed 1 L5 5
text f ksi-schedule 2|cores 1|start 1700000000|aggregator 0 parent c0|request 0 1700000000 e3b0c44298fc1c149afbf4c8996fb92427ae41e4649b934ca495991b7852b855 b/b
replay f j = Malformed malformed 1 L8 5
text f ksi-schedule 1|cores 1|start 1700000000|aggregator 0 parent c0|request 0 1700000000 e3b0c44298fc1c149afbf4c8996fb92427ae41e4649b934ca495991b7852b855 bob
replay f j = Malformed malformed 1 L1 5";

const JOURNALS: &str = "hold short 4b53494a524e4c31
hold long 4b53494a524e4c31 01046553f100 0600 00
hold other 4b53494a524e4c31 01046553f100 022c 01046553f100 022101 A 030101 032201 B 00
hold name 4b53494a524e4c32 01046553f100 022c 01046553f100 022101 A 030101 072501 A 00622f62
hold voters 4b53494a524e4c32 01046553f100 0809 01046553f100 020100
sign short 0 s = Malformed malformed 1 J8 8
sign long 0 s = Malformed malformed 1 J8 16
sign other 0 s = Malformed malformed 1 J4 T A B
sign name 0 s = Malformed malformed 1 J9 60
sign voters 0 s = Malformed malformed 1 J10 22";

/// Each is played over files that hold nothing.
static SCRIPTS: [&[&str]; 8] = [
    // a schedule becomes an accepted signature
    &[REPLAYED, ACCEPTED],
    // its files are known
    &[REPLAYED, KNOWN],
    // no byte may be more or less
    &[REPLAYED, OTHERS],
    // a lower request is beneath a submission
    &[BENEATH],
    // without events nothing is kept
    &[NOTHING],
    // one core may vote for all
    &[ONE_VOTES],
    // faults of schedules are told
    &[SCHEDULES],
    // faults of journals are told
    &[JOURNALS],
];

#[test]
fn each_script_is_played(rt: HostRuntime) -> Result<(), Fail> {
    each_plays(&rt, rt.alloc(), &SCRIPTS)
}
