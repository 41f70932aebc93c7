// Journals of both versions, and what they are migrated to.
use crate::script::each_plays;
use crate::whole_paths::{NOTHING, ONE_VOTES, REPLAYED};
use std::test::Fail;

const EMPTY: &str = "migrate j k = Done migrated 0
holds k 16 4b53494a524e4c32 01046553f100 0600";

const TWICE: &str = "migrate j k = Done migrated 1
migrate k l = Done migrated 1
migrate l l = Done migrated 1
sign l 0 t = Done signed 0
publish l q = Done published 1
audit l t A q = Done inside T -
holds k 766 4b53494a524e4c32 j:8-766
same k l
same s t
same p q";

const VOTERS: &str = "migrate j k = Done migrated 1
holds j 72 4b53494a524e4c32 01046553f100 0809 01046553f100 020102 022b 01046553f100 022101 Z 0300 0600
same k j";

/// Each is played over files that hold nothing.
static SCRIPTS: [&[&str]; 3] = [
    // an empty journal differs in its eighth byte
    &[NOTHING, EMPTY],
    // a migrated journal gives what the old one gave
    &[REPLAYED, TWICE],
    // a journal of voters stays
    &[ONE_VOTES, VOTERS],
];

#[test]
fn each_script_is_played(rt: HostRuntime) -> Result<(), Fail> {
    each_plays(&rt, rt.alloc(), &SCRIPTS)
}
