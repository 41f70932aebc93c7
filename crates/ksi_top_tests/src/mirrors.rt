// Mirrors, merged and made journals.
use crate::script::each_plays;
use crate::whole_paths::REPLAYED;
use std::test::Fail;

// What the core of one request holds and has sealed.
pub(crate) const ONE: &str =
    "hold m 4b53494d49525231 01046553f100 0229 01046553f100 022101 A 090b 01046553f100 0200 030101 032201 A 00 0600";

// The same of another request; a list of another core, and another list of that one; a start that is later; a root without
// a list, and one of a second that was missed.
const OTHERS: &str =
    "hold n 4b53494d49525231 01046553f100 0229 01046553f100 022101 B 090b 01046553f100 0200 030101 032201 B 00 0600
hold core 4b53494d49525231 01046553f100 090c 01046553f100 020101 030101 032201 B 00 0600
hold list 4b53494d49525231 01046553f100 090b 01046553f100 0200 030101 032201 B 00 0600
hold later 4b53494d49525231 01046553f101 0600
hold root 4b53494d49525231 01046553f100 0229 01046553f100 022101 A 0600
hold missed 4b53494d49525231 01046553f100 0229 01046553f101 022101 Z 0600";

const MERGED: &str = "merge m m o = Done merged 1
merge m core q = Done merged 1
merge core m r = Done merged 1
merge q m q = Done merged 1
merge missed q u = Done merged 2
merge m missed v = Done merged 2
merge core v v = Done merged 2
merge later later w = Done merged 0
whole o j = Done whole 1
whole u k = Done whole 2
whole w l = Done whole 0
publish j p = Done published 0
migrate k k = Done migrated 2
merge m n x = Refused refused M2 T A B
merge n m x = Refused refused M2 T B A
merge m later x = Refused refused M1 T 1700000001
merge later m x = Refused refused M1 1700000001 T
merge m list x = Refused refused M3 T 0 0
merge u list x = Refused refused M3 T 0 0
whole root x = Refused refused M4 T
same m o
same q r
same u v
same later w
same x -
holds q 158 4b53494d49525231 01046553f100 0229 01046553f100 022101 A 090b 01046553f100 0200 030101 032201 A 00 090c 01046553f100 020101 030101 032201 B 00 0600
holds j 98 4b53494a524e4c31 01046553f100 022c 01046553f100 022101 A 030101 032201 A 00 0600";

const MIRRORED: &str = "mirror f 0 w = Done mirror 0 1
merge w w o = Done merged 1
whole o j = Done whole 1
mirror f 1 x = Refused no core 1
mirror f 18446744073709551615 x = Refused no core 18446744073709551615
same w m
same o m
same x -
holds j 98 4b53494a524e4c31";

const NO_MIRRORS: &str = "hold j 4b53494a524e4c31 010105 0600
hold short 4b53494d49525231 010105
hold cut 4b53494d49525231 010105 0205
hold start 4b53494d49525231 0600
hold imprint 4b53494d49525231 010105 0206 010105 020101 0600
hold core 4b53494d49525231 010105 0906 010105 020109
hold count 4b53494d49525231 010105 0907 010105 0200 0300
hold rest 4b53494d49525231 010105 0601 00
hold name 4b53494d49525231 010105 0908 010105 0200 030101 072301 A 00 20
merge j m x = Malformed malformed 1 J1
merge m j x = Malformed malformed 2 J1
whole cut x = Malformed malformed 1 J2 11
merge m start x = Malformed malformed 2 J3 8
whole core x = Malformed malformed 1 J5 16
whole imprint x = Malformed malformed 1 J6 16
whole count x = Malformed malformed 1 J7 5
whole short x = Malformed malformed 1 J8 11
whole rest x = Malformed malformed 1 J8 11
whole name x = Malformed malformed 1 J9 21
migrate m x = Malformed malformed 1 J1";

/// Each is played over files that hold nothing.
static SCRIPTS: [&[&str]; 3] = [
    // mirrors are merged
    &[ONE, OTHERS, MERGED],
    // the mirror of a core is saved
    &[REPLAYED, ONE, MIRRORED],
    // faults of mirrors are told
    &[ONE, NO_MIRRORS],
];

#[test]
fn each_script_is_played(rt: HostRuntime) -> Result<(), Fail> {
    each_plays(&rt, rt.alloc(), &SCRIPTS)
}
