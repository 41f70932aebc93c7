// Verifications: the line of each check and of each fault, and how often files are loaded.
use crate::same::same;
use crate::script::each_plays;
use ksi_top::Status;
use std::test::Fail;

// The publications file of A at second 0.
const P0: &str = "hold p 4b53495055424c46 87010005 010101 0200 87030027 1025 0200 042101 A";

// A signature of A at second 0.
const S0: &str = "hold s 8800005a G K";

// A zero imprint was missed.
const CHECKS: &str = "hold s 8800005a G K
calls 2 verify s A p = Done accepted 0
hold s 8800005a K G
calls 2 verify s A p = Done accepted 0
hold s 8800005e G K 5e02ffff
calls 2 verify s A p = Done accepted 0
hold s 8800008c 8801002e 0200 030101 030101 052101 A 060101 G K
calls 2 verify s A p = Done accepted 0
hold s 8800005a 8801002b 0200 030101 052101 B 060101 88020027 0100 0200 052101 B
calls 2 verify s A p = Refused refused V1 B A
hold s 8800031b 16xG K
calls 2 verify s A p = Refused refused V2 0 0 - 1
hold s 8800008c 8801002e 0200 030107 030101 052101 A 060101 8801002b 0200 030103 052101 A 060101 K
calls 2 verify s A p = Refused refused V2 0 0 7 3
hold s 8800008f 88010031 0200 030107 030108 030101 052101 A 060101 8801002b 0200 030107 052101 A 060101 K
calls 2 verify s A p = Refused refused V2 0 1 8 -
hold s 88000975 88010946 0200 030101 052101 A 060101 63xlink K
calls 2 verify s A p = Refused refused V3 0 1 18446744073709551615
hold s 8800008c 8801002e 0200 030101 030102 052101 A 060101 G K
calls 2 verify s A p = Refused refused V3 0 2 1
hold s 880000a7 88010078 0200 030107 052101 A 060101 07260101fe022101 A 0723022101 A K
calls 2 verify s A p = Refused refused V4 0 1 256
hold s 8800008c 8801002e 0200 030101 030101 052101 A 060101 8801002b 0200 030101 052101 B 060101 K
calls 2 verify s A p = Refused refused V5 1 A B
hold s 8800008d 8801002e 0200 030101 030101 052101 A 060101 8801002c 020105 030101 052101 A 060101 K
calls 2 verify s A p = Refused refused V6 1 0 5
hold s 88000057 88010053 0200 030102 052101 A 060101 0826 0424 01 A 7e0101
calls 2 verify s A p = Refused refused V15 0 0
hold s 8800008a 88010056 0200 030101 030102 052101 A 060101 0826 0424 01 A 7e0101 8801002c 020105 030101 052101223ae0dedaa7a1738280c2e4453adeec007421a3d5b65d0c3ef25602654ecf13 060101
calls 2 verify s A p = Refused refused V6 1 0 5
hold s 88000089 88010056 0200 030101 030102 052101 A 060101 0826 0424 01 A 7e0101 8801002b 0200 030101 052101223ae0dedaa7a1738280c2e4453adeec007421a3d5b65d0c3ef25602654ecf13 060101
calls 2 verify s A p = Refused refused V15 0 0
hold s 8800007c 88010078 0200 030105 052101 A 060101 0723022101 A 0826 0324 01 A 7e0101
calls 2 verify s A p = Refused refused V15 0 1
hold s 88000057 88010053 0200 030103 052101 A 060101 0726 0424 01 A 7e0101
calls 2 verify s A p = Refused refused V7
hold s 88000057 88010053 0200 030102 052101 A 060101 0826 0424 02 A 7e0101
calls 2 verify s A p = Refused refused V7
hold s 8800002f G
calls 2 verify s A p = Refused refused V7
hold s 8800005a G 88020027 0100 0200 052101 B
calls 2 verify s A p = Refused refused V8 A B
hold s 880000c4 G 88020091 010105 0200 052101 A 082101 A 082101 A 082101 A
calls 2 verify s A p = Refused refused V10 many 2
hold s 8800007e G 8802004b 010105 0200 052101 A 072101 A
calls 2 verify s A p = Refused refused V10 few 3
hold s 8800005b G 88020028 0100 020105 052101 A
calls 2 verify s A p = Refused refused V11 5 0
hold s 8800005b 8801002c 020105 030101 052101 A 060101 K
calls 2 verify s A p = Refused refused V11 5 0
hold s 88000086 G K 88030028 1026 020105042101 A
calls 2 verify s A p = Refused refused V12 time 5 0
hold s 88000085 G K 88030027 1025 0200042101 B
calls 2 verify s A p = Refused refused V12 hash B A
hold s 880000a3 8801002c 020105 030101 052101 A 060101 8802006f 010105 020105 052101 A 082101 A 082101 A
calls 2 verify s A p = Refused refused V13 5
hold s 8800005a 8801002b 0200 030101 052101 Z 060101 88020027 0100 0200 052101 Z
calls 2 verify s Z p = Refused refused V9";

// A file of 65,540 bytes passes its limit.
const SIGNATURES: &str = "hold s
calls 1 verify s A p = Malformed malformed 1 S1 0
hold s 8800005a G K 00
calls 1 verify s A p = Malformed malformed 1 S2 94
hold s 8801005a G K
calls 1 verify s A p = Malformed malformed 1 S3 2049
hold s 8800005e G K 88050000
calls 1 verify s A p = Malformed malformed 1 S4 2053 94
hold s 8800005c G K 1e00
calls 1 verify s A p = Malformed malformed 1 S5 30 94
hold s 88000000
calls 1 verify s A p = Malformed malformed 1 S6 2049 0
hold s 8800002b K
calls 1 verify s A p = Malformed malformed 1 S6 2049 0
hold s 88000085 G K K
calls 1 verify s A p = Malformed malformed 1 S7 2050 94
hold s 8800005a 880100ff 0200 030101 052101 A 060101 K
calls 1 verify s A p = Malformed malformed 1 S1 4
hold s 8800005a 8801002b 022a 030101 052101 A 060101 K
calls 1 verify s A p = Malformed malformed 1 S1 8
hold s 8800005a 8801002b 0200 030101 052102 A 060101 K
calls 1 verify s A p = Malformed malformed 1 S8 13
hold s 8800005a 8801002b 0200 030101 052201 A 060101 K
calls 1 verify s A p = Malformed malformed 1 S8 13
hold s 8800005a 8801002b 0229 030101 052101 A 060101 K
calls 1 verify s A p = Malformed malformed 1 S9 8
hold s 88000063 88010034 0209000000000000000001 030101 052101 A 060101 K
calls 1 verify s A p = Malformed malformed 1 S9 8
hold s 8800005a 8801002b 0200 030101 052101 A 060102 K
calls 1 verify s A p = Malformed malformed 1 S10 2
hold s 8800099a 8801096b 0200 030101 052101 A 060101 64xlink K
calls 1 verify s A p = Malformed malformed 1 S11 2382
hold s 8800031f 17xG
calls 1 verify s A p = Malformed malformed 1 S12 756
hold s 8800005c 8801002d 0200 030101 052101 A 060101 0700 K
calls 1 verify s A p = Malformed malformed 1 S13 51
hold s 88000062 G 8802002f 01088000000000000000 0200 052101 A
calls 1 verify s A p = Malformed malformed 1 S14 55
hold s 65539x00
calls 1 verify s A p = Malformed malformed 1 S3 0
hold s 65540x00
calls 1 verify s A p = TooLong too long 1";

const PUBLICATIONS: &str = "hold p 4b53495055424c
calls 2 verify s A p = Malformed malformed 3 Q1
hold p 4b53495055424c46
calls 2 verify s A p = Malformed malformed 3 Q5 1793 0
hold p 4b53495055424c46 87010005 010101 0200 8703
calls 2 verify s A p = Malformed malformed 3 Q2 17
hold p 4b53495055424c46 87010005 010101 0200 87020000
calls 2 verify s A p = Malformed malformed 3 Q3 1794 17
hold p 4b53495055424c46 87010005 010101 0200 1e00
calls 2 verify s A p = Malformed malformed 3 Q4 30 17
hold p 4b53495055424c46 87010005 010101 0200 87010005 010101 0200
calls 2 verify s A p = Malformed malformed 3 Q6 1793 17
hold p 4b53495055424c46 87010005 010101 0200 87030027 1025 0200 042102 A
calls 2 verify s A p = Malformed malformed 3 Q7 25
hold p 4b53495055424c46 8701000d 0109000000000000000001 0200
calls 2 verify s A p = Malformed malformed 3 Q8 12
hold p 4b53495055424c46 87010005 010101 0200 8703002f 102d 02088000000000000000 042101 A
calls 2 verify s A p = Malformed malformed 3 Q9 23";

// The last signature has links; its hashes are those of another implementation of SHA-256.
const COMPARED: &str = "hold p 4b53495055424c46 87010005 010101 0200 87030028 1026 020105 042101 A
calls 2 verify s A p = Refused refused V13 0
hold p 4b53495055424c46 87010005 010101 0200 87030027 1025 0200 042101 B
calls 2 verify s A p = Refused refused V14 0 B A
hold p 4b53495055424c46 87010005 010101 0200 87030028 1026 020105 042101 B 87030027 1025 0200 042101 A 87030027 1025 0200 042101 B
calls 2 verify s A p = Done accepted 0
hold s 880000c8 88010051 020105 030103 052101 A 060101 0723022101 B 8802006f 010105 020105 052101ebc92d76a3c945906620f4b6283e127d65881c8a9584e1b6fcd65e55a52332ca 082101 B 082101 Z
hold p 4b53495055424c46 87010005 010101 0200 87030028 1026 020105 042101697c0cfb23e449352c7d9da7297a948f391d538e8cc14b4efed20c99e9b6dd24
calls 2 verify s A p = Done accepted 5";

const WORDS: &str =
    "calls 2 verify s E3b0C44298fC1C149afbf4c8996Fb92427ae41e4649b934ca495991b7852b855 p = Done accepted 0
calls 0 verify s 12 p = Words bad word 2
calls 0 verify s A = Words words refused
calls 0 verify s A - = Words words refused
calls 0 audit s A p = Words words refused
calls 0 migrate s = Words words refused
calls 0 migrate s p A = Words words refused
calls 0  = Words words refused";

#[test]
fn each_status_has_its_number(rt: HostRuntime) {
    static STATUSES: [Status; 8] = [
        Status::Done,
        Status::Refused,
        Status::Words,
        Status::Malformed,
        Status::Fault,
        Status::NoMemory,
        Status::Clash,
        Status::TooLong,
    ];
    for (number, status) in STATUSES.iter().enumerate() {
        same(&rt, "number", status.code() as usize, number);
    }
}

/// Each is played over files that hold nothing.
static SCRIPTS: [&[&str]; 5] = [
    // each check has its line
    &[P0, CHECKS],
    // each fault of a signature has its code
    &[P0, SIGNATURES],
    // each fault of publications has its code
    &[S0, PUBLICATIONS],
    // publications are compared
    &[S0, COMPARED],
    // words are a command or refused
    &[S0, P0, WORDS],
];

#[test]
fn each_script_is_played(rt: HostRuntime) -> Result<(), Fail> {
    each_plays(&rt, rt.alloc(), &SCRIPTS)
}
