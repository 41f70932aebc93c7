// Files that are cut short at each place, and signatures whose chains were exchanged.
use crate::script::each_plays;
use crate::whole_paths::REPLAYED;
use std::test::Fail;

// Each beginning of a file `w` is run by itself under the name `x`.
const SIGNATURE: &str = "hold w 8800005a G K
fronts 0-93 verify x A p = Malformed malformed 1 S1 0";

// The elements of the journal begin behind its magic of eight bytes, and its last one ends at 766.
const JOURNAL: &str = "hold w j:
fronts 0-7 publish x o = Malformed malformed 1 J1
fronts 8-8 publish x o = Malformed malformed 1 J8 8
fronts 9-13 publish x o = Malformed malformed 1 J2 8
fronts 14-14 publish x o = Malformed malformed 1 J8 14
fronts 15-59 publish x o = Malformed malformed 1 J2 14
fronts 60-60 publish x o = Malformed malformed 1 J8 60
fronts 61-95 publish x o = Malformed malformed 1 J2 60
fronts 96-96 publish x o = Malformed malformed 1 J8 96
fronts 97-720 publish x o = Malformed malformed 1 J2 96
fronts 721-721 publish x o = Malformed malformed 1 J8 721
fronts 722-763 publish x o = Malformed malformed 1 J2 721
fronts 764-764 publish x o = Malformed malformed 1 J8 764
fronts 765-765 publish x o = Malformed malformed 1 J2 764";

// The signature with its two aggregation chains exchanged.
const EXCHANGED: &str = "hold x s:0-4 s:58-109 s:4-58 s:109-615
verify x A p = Done accepted T
extend j x T y = Done extended T T
verify y A p = Done accepted T
holds y 662 88000292 8801002f 02046553f100 030101 052101 A 060101 88010032 02046553f100 030101 030101 052101 A 060101";

/// Each is played over files that hold nothing.
static SCRIPTS: [&[&str]; 3] = [
    // no beginning of a signature is one
    &[SIGNATURE],
    // no beginning of a journal is one
    &[REPLAYED, JOURNAL],
    // chains may stand in any order
    &[REPLAYED, EXCHANGED],
];

#[test]
fn each_script_is_played(rt: HostRuntime) -> Result<(), Fail> {
    each_plays(&rt, rt.alloc(), &SCRIPTS)
}
