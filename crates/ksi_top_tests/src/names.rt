// Names in the tree, from a schedule to an audit.
use crate::script::each_plays;
use std::test::Fail;

// One request, of an aggregator with a name: what is replayed, signed and published of it.
const BOB: &str =
    "text f ksi-schedule 2|cores 1|start 1700000000|aggregator 0 parent c0 name bob|request 0 1700000000 e3b0c44298fc1c149afbf4c8996fb92427ae41e4649b934ca495991b7852b855|close 0 1700000000|deliver 0|seal 0 1700000000|ballot 0 1700000000|deliver 1|deliver 2|deliver 3|deliver 4|respond 0 1700000000|deliver 6|publish 0 1700000000|
replay f j = Done events 12 messages 7 seconds 1 issued 1 published 1
sign j 0 s = Done signed 0
publish j p = Done published 1
verify s A p = Done accepted T";

const INSIDE: &str = "audit j s A p = Done inside T L
extend j s T t = Done extended T T
verify t A p = Done accepted T
audit j t A p = Done inside T L";

const KNOWN: &str =
    "holds j 783 4b53494a524e4c32 01046553f100 022c 01046553f100 02210151494ba900a77a274cab9a9723619053037ba97c59c8d7d0c0ce7633e73d6b48 030101 072501 A 00626f62
holds s 629 88000271 88010032 02046553f100 030103 030101 052101 A 060101 8801003d 02046553f100 030103 052101 A 060101 070c 040a 7e0201010104626f6200";

const BENEATH: &str =
    "text f ksi-schedule 2|cores 1|start 1700000000|aggregator 0 parent c0 name bob|request 0 1700000000 e3b0c44298fc1c149afbf4c8996fb92427ae41e4649b934ca495991b7852b855 al|close 0 1700000000|deliver 0|seal 0 1700000000|ballot 0 1700000000|deliver 1|deliver 2|deliver 3|deliver 4|respond 0 1700000000|deliver 6|publish 0 1700000000|
replay f j = Done events 12 messages 7 seconds 1 issued 1 published 1
sign j 0 s = Done signed 0
publish j p = Done published 1
verify s A p = Done accepted T
audit j s A p = Done beneath T 0 1";

// A name of 30 letters: the last 33 bytes of its metadata are an imprint.
const LONG: &str =
    "text f ksi-schedule 2|cores 1|start 1700000000|aggregator 0 parent c0 name aaaaaaaaaaaaaaaaaaaaaaaaaaaaaa|request 0 1700000000 e3b0c44298fc1c149afbf4c8996fb92427ae41e4649b934ca495991b7852b855|close 0 1700000000|deliver 0|seal 0 1700000000|ballot 0 1700000000|deliver 1|deliver 2|deliver 3|deliver 4|respond 0 1700000000|deliver 6|publish 0 1700000000|
replay f j = Done events 12 messages 7 seconds 1 issued 1 published 1
sign j 0 s = Done signed 0
publish j p = Done published 1
verify s A p = Done accepted T";

// A signature of that imprint: one chain with a bare right link, which makes the string of the name's leaf, before the calendar
// chain, which stands behind two other chains.
const FORGED: &str =
    "hold x 88000255 88010057 02046553f100 030102 0521011f 30x61 00 060101 0826 0424 01 A 7e0101 s:149-655
verify x 1f61616161616161616161616161616161616161616161616161616161616100 p = Refused refused V15 0 0
extend j x T t = Refused refused V15 0 0
audit j x 1f61616161616161616161616161616161616161616161616161616161616100 p = Refused refused V15 0 0";

/// Each is played over files that hold nothing.
static SCRIPTS: [&[&str]; 4] = [
    // what is named stands below its leaf
    &[BOB, INSIDE],
    // the files of a name are known
    &[BOB, KNOWN],
    // a named request is beneath its submission
    &[BENEATH],
    // what is inside a name is refused
    &[LONG, FORGED],
];

#[test]
fn each_script_is_played(rt: HostRuntime) -> Result<(), Fail> {
    each_plays(&rt, rt.alloc(), &SCRIPTS)
}
