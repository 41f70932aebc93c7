// Masked blocks of logs: their roots, the proofs of lines, and where these stand. The values are those of a plain program in
// another language.
use crate::script::each_plays;
use std::test::Fail;

// Logs: of two lines, the same without the last line feed, of two empty lines before another, of an empty line, of none, and
// with a second line of 8,000 and of 8,001 bytes; then lines.
const LOGS: &str = "hold two 61 0a 62 0a
hold cut 61 0a 62
hold feeds 0a 0a 61
hold feed 0a
hold none 0x61
hold most 61 0a 8000x62 0a
hold long 61 0a 8001x62 0a
hold a 61
hold b 62
hold empty 0x61
hold past 8001x61";

// One request, for the root of the log of two lines and the seed Z: its signature, its publications, and the proofs of both
// lines.
const SIGNED: &str =
    "text f ksi-schedule 1|cores 1|start 1700000000|aggregator 0 parent c0|request 0 1700000000 33f8618e92833bd86af245309403ec818b9072c2b0594c7e78599c8a9d0970d2|close 0 1700000000|deliver 0|seal 0 1700000000|ballot 0 1700000000|deliver 1|deliver 2|deliver 3|deliver 4|respond 0 1700000000|deliver 6|publish 0 1700000000|
replay f j = Done events 12 messages 7 seconds 1 issued 1 published 1
sign j 0 s = Done signed 0
publish j p = Done published 1
line two Z 0 q = Done line 0
line two Z 1 r = Done line 1";

// Files that are no proof of a line: with the first level past 255, without their end, in another order.
const PROOFS: &str = "hold high 4b53494c494e4531 012101 Z 07260101ff022101 A
hold magic 4b53494c494e4532 012101 Z
hold tlv 4b53494c494e4531 012101 Z 0726
hold order 4b53494c494e4531
hold imprint 4b53494c494e4531 012102 Z
hold number 4b53494c494e4531 012101 Z 072701020100022101 A
hold links 4b53494c494e4531 012101 Z 64xlink";

const TOLD: &str =
    "block two Z = Done block 2 33f8618e92833bd86af245309403ec818b9072c2b0594c7e78599c8a9d0970d2
block cut Z = Done block 2 33f8618e92833bd86af245309403ec818b9072c2b0594c7e78599c8a9d0970d2
block two A = Done block 2 8416f13f5a50a9c4174066f545c34b289fd98a375dab3589087eba791db84442
block feeds Z = Done block 3 e9d266b8e59811dd2baf6dc33842d1702a455455cd416d76ba7f7c075e13e970
block feed Z = Done block 1 dd895c7cead94c67199c238e1f32e6c2aac79f8b5a32d2c1aae118fe37dc052a
block most Z = Done block 2 8f760af9246b060075e6e6bb8a821f1809c7cf1d26320ef2879cbdcd093a8453
line feeds Z 2 t = Done line 2
locate two Z a q = Done in 0
locate cut Z b r = Done in 1
locate feeds Z a t = Done in 2
checkline s p a q = Done line accepted T
checkline s p b r = Done line accepted T
verify s 33f8618e92833bd86af245309403ec818b9072c2b0594c7e78599c8a9d0970d2 p = Done accepted T
holds q 80 4b53494c494e4531012101ae0798d0ecaed2b778eddebf18f071a561c53658c05e76cedecc27cafbdbc577072302210136cbeb9242d4d0fe251132adf02698ba5e46c42d754670f9ec8c3ae508e118f6
holds r 80 4b53494c494e4531012101175ff4dc38c2dc17213ef30e0d13acf0f921758a39d6884257e532133d2b2c4d08230221019f11846cb14a92f6bce39e6d885d69bc922230c45686549316bfd85097e69639
holds t 83 4b53494c494e4531012101fbfaaba07a9da5d2667513b1558071805316e8c4156cf6836fe4f6e8daeaf848082601010102210128f29766ef26a5d0f74fdc3ed2a12b4c257d5ab5a459de67676d5a35b878cd6d";

const NOT_TOLD: &str = "block none Z = Refused refused B3
block long Z = Refused refused B6 1 8001
line none Z 0 x = Refused refused B3
line long Z 7 x = Refused refused B6 1 8001
line two Z 2 x = Refused refused B4 2 2
line two Z 18446744073709551615 x = Refused refused B4 18446744073709551615 2
locate none Z a q = Refused refused B3
locate long Z a q = Refused refused B6 1 8001
locate two Z a high = Refused refused B1 0 257
locate two Z b q = Refused refused B2 f2cb5d7cc07a4fb176573f131b73a8a01554574ddee386f7c29f476ee9dfc5cf 33f8618e92833bd86af245309403ec818b9072c2b0594c7e78599c8a9d0970d2
locate two Z empty q = Refused refused B2 00feefa3283cf52c1e56d21877f7bce679941c9e137787cf114af02b58987f5b 33f8618e92833bd86af245309403ec818b9072c2b0594c7e78599c8a9d0970d2
locate two A a q = Refused refused B2 33f8618e92833bd86af245309403ec818b9072c2b0594c7e78599c8a9d0970d2 8416f13f5a50a9c4174066f545c34b289fd98a375dab3589087eba791db84442
checkline s p a high = Refused refused B1 0 257
checkline s p b q = Refused refused V1 33f8618e92833bd86af245309403ec818b9072c2b0594c7e78599c8a9d0970d2 f2cb5d7cc07a4fb176573f131b73a8a01554574ddee386f7c29f476ee9dfc5cf
locate two Z a magic = Malformed malformed 4 G1
locate two Z a tlv = Malformed malformed 4 G2 43
locate none Z a order = Malformed malformed 4 G3 8
checkline s p a imprint = Malformed malformed 4 G4 8
checkline s p a number = Malformed malformed 4 G5 45
checkline s p a links = Malformed malformed 4 G6 2374
checkline p s past order = Malformed malformed 1 S1 0
checkline s s past order = Malformed malformed 2 Q1
locate none Z past order = TooLong too long 3
checkline s p past order = TooLong too long 3
block two 12 = Words bad word 2
line two 12 x q = Words bad word 2
line two Z x q = Words bad word 3
locate two Z a = Words words refused
same x -";

/// Each is played over files that hold nothing.
static SCRIPTS: [&[&str]; 2] = [
    // both lines of a signed block are accepted
    &[LOGS, SIGNED, TOLD],
    // each other answer has its line
    &[LOGS, SIGNED, PROOFS, NOT_TOLD],
];

#[test]
fn each_script_is_played(rt: HostRuntime) -> Result<(), Fail> {
    each_plays(&rt, rt.alloc(), &SCRIPTS)
}
