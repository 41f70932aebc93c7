// Signatures extended to a later second, and audited.
use crate::script::each_plays;
use std::test::Fail;

// Journals that keep A, B or nothing in second T, which is their start, and signatures of A in T without a calendar chain:
// one with no further element, and those with one, whose header is 5e00 or 7e00.
const OF_T: &str =
    "hold keeps_a 4b53494a524e4c31 01046553f100 022c 01046553f100 022101 A 030101 032201 A 00 0600
hold keeps_b 4b53494a524e4c31 01046553f100 022c 01046553f100 022101 B 030101 032201 B 00 0600
hold keeps_none 4b53494a524e4c31 01046553f100 0600
hold of_t 88000069 88010032 02046553f100 030101 030101 052101 A 060101 8801002f 02046553f100 030101 052101 A 060101
hold dropped 8800006b 5e00 88010032 02046553f100 030101 030101 052101 A 060101 8801002f 02046553f100 030101 052101 A 060101
hold kept 8800006b 7e00 88010032 02046553f100 030101 030101 052101 A 060101 8801002f 02046553f100 030101 052101 A 060101";

// A journal that begins with second 8, which was missed, and keeps A in 9, signatures of both seconds, one whose index does
// not fit its links, one with a bare right link, and the publication of 9.
const OF_8_AND_9: &str =
    "hold from_8 4b53494a524e4c31 010108 0229 010108 022101 Z 030100 0229 010109 022101 A 030101 032201 A 00 0600
hold of_8 88000030 8801002c 020108 030101 052101 Z 060101
hold of_9 88000030 8801002c 020109 030101 052101 A 060101
hold unlike 88000030 8801002c 020109 030102 052101 A 060101
hold bare 88000058 88010054 020109 030102 052101 A 060101 0826 0424 01 A 7e0101
hold root_of_9 4b53495055424c46 87010005 010101 0200 87030028 1026 020109 0421017dd6308dc4f1cf1c80ff4459dc24eb8541e38929096329c51893c5d6370fe7c4";

// Journals of second 0 that keep A or B alone, both as items, the item that they are joined to, or nothing.
const JOURNALS_OF_0: &str = "hold a 4b53494a524e4c31 0100 0228 0100 022101 A 030101 032201 A 00 0600
hold b 4b53494a524e4c31 0100 0228 0100 022101 B 030101 032201 B 00 0600
hold both 4b53494a524e4c31 0100 0228 0100 022101ebc92d76a3c945906620f4b6283e127d65881c8a9584e1b6fcd65e55a52332ca 030102 032201 A 00 032201 B 00 0600
hold joined 4b53494a524e4c31 0100 0228 0100 022101ebc92d76a3c945906620f4b6283e127d65881c8a9584e1b6fcd65e55a52332ca 030101 032201ebc92d76a3c945906620f4b6283e127d65881c8a9584e1b6fcd65e55a52332ca01 0600
hold none 4b53494a524e4c31 0100 0600";

// Signatures of A in second 0, alone and beside B, and the publications that accept them.
const OF_0: &str = "hold alone 8800005a G K
hold beside_b 8800007f 88010050 0200 030103 052101 A 060101 0723022101 B 88020027 0100 0200 052101ebc92d76a3c945906620f4b6283e127d65881c8a9584e1b6fcd65e55a52332ca
hold root_a 4b53495055424c46 87010005 010101 0200 87030027 1025 0200 042101 A
hold root_joined 4b53495055424c46 87010005 010101 0200 87030027 1025 0200 042101ebc92d76a3c945906620f4b6283e127d65881c8a9584e1b6fcd65e55a52332ca";

// One of the first signatures has the header e01e and 64,920 zero bytes.
const NOT_EXTENDED: &str =
    "hold large 8800fe05 88010032 02046553f100 030101 030101 052101 A 060101 8801002f 02046553f100 030101 052101 A 060101 e01efd98 64920x00
extend keeps_a of_t 1699999999 t = Refused refused E3 T 1699999999
extend keeps_a of_t 1700000001 t = Refused refused E2 1700000001
extend keeps_a of_t 9223372036854775807 t = Refused refused E2 1700000001
extend keeps_none of_t T t = Refused refused E2 T
extend keeps_b of_t T t = Refused refused E1 T B A
extend keeps_a alone 5 t = Refused refused E4 0
extend keeps_a large T t = Refused refused E5 65582
extend from_8 of_8 9 t = Refused refused V9
extend from_8 of_9 8 t = Refused refused E3 9 8
extend from_8 unlike 9 t = Refused refused V3 0 2 1
extend from_8 bare 8 t = Refused refused V15 0 0
same t -";

const COUNTED: &str = "calls 0 extend a alone 9223372036854775808 t = Words bad word 3
calls 0 extend a alone x t = Words bad word 3
calls 0 extend a alone 0 = Words words refused
calls 0 audit a alone 12 root_a = Words bad word 3
calls 0 audit a alone A = Words words refused
calls 1 extend alone alone 0 t = Malformed malformed 1 J1
calls 1 audit root_a alone A root_a = Malformed malformed 1 J1
calls 2 extend a a 0 t = Malformed malformed 2 S3 11
calls 2 audit a root_a A root_a = Malformed malformed 2 S1 0
calls 3 audit a alone A alone = Malformed malformed 4 Q1
calls 3 audit a alone A root_a = Done inside 0 -";

const EXTENDED: &str = "extend from_8 of_9 9 t = Done extended 9 9
verify t A root_of_9 = Done accepted 9
audit from_8 t A root_of_9 = Done inside 9 -
extend from_8 t 9 u = Done extended 9 9
verify u A root_of_9 = Done accepted 9
same u t";

const KEPT: &str = "extend keeps_a of_t T t = Done extended T T
extend keeps_a dropped T u = Done extended T T
extend keeps_a kept T v = Done extended T T
holds t 662
holds u 662
holds v 664";

const AUDITED: &str = "audit a alone A root_a = Done inside 0 -
audit both beside_b A root_joined = Done inside 0 L
audit joined beside_b A root_joined = Done beneath 0 0 1
audit keeps_a alone A root_a = Refused before start 0
audit none alone A root_a = Refused undecided 0
audit b alone A root_a = Refused not decided 0 A B
audit a beside_b A root_a = Refused refused V14 0 A ebc92d76a3c945906620f4b6283e127d65881c8a9584e1b6fcd65e55a52332ca
audit a of_t A root_a = Refused refused V7
audit a alone B root_a = Refused refused V1 A B
audit both beside_b B root_joined = Refused refused V1 A B
audit joined beside_b B root_joined = Refused refused V1 A B
audit keeps_a alone B root_a = Refused refused V1 A B
audit none alone B root_a = Refused refused V1 A B
audit b alone B root_a = Refused refused V1 A B
audit a beside_b B root_a = Refused refused V1 A B
audit a of_t B root_a = Refused refused V1 A B";

/// Each is played over files that hold nothing.
static SCRIPTS: [&[&str]; 5] = [
    // each refusal of an extension has its line
    &[OF_T, OF_8_AND_9, OF_0, NOT_EXTENDED],
    // files of both commands are read from left to right
    &[JOURNALS_OF_0, OF_0, COUNTED],
    // an extended signature is accepted
    &[OF_8_AND_9, EXTENDED],
    // an extension keeps what is to be passed on
    &[OF_T, KEPT],
    // each answer of an audit has its line
    &[OF_T, JOURNALS_OF_0, OF_0, AUDITED],
];

#[test]
fn each_script_is_played(rt: HostRuntime) -> Result<(), Fail> {
    each_plays(&rt, rt.alloc(), &SCRIPTS)
}
