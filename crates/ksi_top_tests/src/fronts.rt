// Fronts of calendars, made and compared.
use crate::script::each_plays;
use crate::whole_paths::REPLAYED;
use std::test::Fail;

// Fronts of second T in itself, of T in the second behind it, and of second 0 in itself, without imprints and with one.
const OF_ITSELF: &str = "hold later 4b534946524e5431 01046553f100 02046553f101
hold early 4b534946524e5431 0100 0200
hold more 4b534946524e5431 01046553f100 02046553f100 032101 A
hold whole 4b534946524e5431 01046553f100 02046553f100
front j T T q = Done front T T 0
compare j j q = Done equal T
migrate j k = Done migrated 1
compare j k q = Done equal T
compare k j whole = Done equal T
front k T T r = Done front T T 0
front j 1700000001 T q = Refused refused F4 1700000001 T
front j 1700000001 0 q = Refused refused F4 1700000001 0
front j 1 T q = Refused before start 1
front j 1 1700000001 q = Refused before start 1
front j T 1700000001 q = Refused undecided 1700000001
front j 1700000001 1700000002 q = Refused undecided 1700000001
compare j j early = Refused before start 0
compare j j later = Refused undecided 1700000001
compare j j more = Refused refused F1 0 1
front j x T q = Words bad word 2
front j T 9223372036854775808 q = Words bad word 3
front j T q = Words words refused
compare j j = Words words refused
holds q 20 4b534946524e5431 01046553f100 02046553f100
holds r 20 4b534946524e5431 01046553f100 02046553f100";

// A journal that begins with second 8, which was missed, and keeps A in 9; one that ends with 8; and one that keeps B in 9.
// The front of 8 in 9, the same with another first imprint, and with another last one.
const LONGER: &str =
    "hold nine 4b53494a524e4c31 010108 0229 010108 022101 Z 030100 0229 010109 022101 A 030101 032201 A 00 0600
hold eight 4b53494a524e4c31 010108 0229 010108 022101 Z 030100 0600
hold other 4b53494a524e4c31 010108 0229 010108 022101 Z 030100 0229 010109 022101 B 030101 032201 B 00 0600
hold first 4b534946524e5431 010108 020109 032101 A 032101 A 032101df77a42097b2796b471321927696b2e9ecb083bcb046058b34bb3ff70fc9e007
hold new 4b534946524e5431 010109 020109
front nine 8 9 q = Done front 8 9 3
compare eight nine q = Done equal 8
compare nine nine q = Done equal 8
compare other nine q = Done equal 8
front nine 9 9 r = Done front 9 9 0
compare nine nine new = Done equal 9
compare nine eight q = Refused undecided 9
compare eight nine r = Refused undecided 9
compare eight nine first = Refused refused F2 2a0697a49e108ad6be83502438989fb0fa0cc5585f7f0c0608a1919da93ffa2b 73f33398705fde9367191672369e4f8f5fd69914b36bd28cfbaf484f740018d0
compare nine other q = Refused refused F3 7dd6308dc4f1cf1c80ff4459dc24eb8541e38929096329c51893c5d6370fe7c4 91735aaadabf09f9ee60663aab99ec1b33f9e63a50cc2fcc42c5a45e40f986b0
holds q 119 4b534946524e5431 010108 020109 032101 Z 032101 A 0321";

const NO_FRONTS: &str = "hold short 4b534946524e5431
hold cut 4b534946524e5431 0101
hold late 4b534946524e5431 0100 0300
hold imprint 4b534946524e5431 0100 0200 030101
hold number 4b534946524e5431 010105 020104
compare j j p = Malformed malformed 3 C1
compare j j cut = Malformed malformed 3 C2 8
compare j j short = Malformed malformed 3 C3 8
compare j j late = Malformed malformed 3 C3 10
compare j j imprint = Malformed malformed 3 C4 12
compare j j number = Malformed malformed 3 C5 11
compare j p short = Malformed malformed 2 J1
compare s p short = Malformed malformed 1 J1
front p T T q = Malformed malformed 1 J1";

/// Each is played over files that hold nothing.
static SCRIPTS: [&[&str]; 3] = [
    // a calendar is a front of itself
    &[REPLAYED, OF_ITSELF],
    // a longer calendar begins with it
    &[LONGER],
    // faults of fronts are told
    &[REPLAYED, NO_FRONTS],
];

#[test]
fn each_script_is_played(rt: HostRuntime) -> Result<(), Fail> {
    each_plays(&rt, rt.alloc(), &SCRIPTS)
}
