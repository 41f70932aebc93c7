use crate::imprints::imprint;
use crate::journals::journal_of;
use crate::publications::listed;
use crate::rows::are_so;
use crate::text::{bytes, shown};
use ksi_auditor::{Audit, audit_view};
use ksi_imprint::{Compress, Tiny};
use ksi_journal::Journal;
use ksi_signature::view;
use std::alloc::Global;
use std::test::Fail;

/// The answer over a journal and a signature, for a hash and publications.
pub(crate) fn audited<C: Compress>(alloc: Global, files: &str) -> Result<String, Fail> {
    let (kept, rest) = files.split_once(';').unwrap_or((files, ""));
    let journal = journal_of::<C>(alloc, kept)?;
    answered(alloc, &journal, rest)
}

fn answered<C: Compress>(alloc: Global, journal: &Journal<C>, files: &str) -> Result<String, Fail> {
    let (text, rest) = files.split_once(';').unwrap_or((files, ""));
    let (hash, published) = rest.split_once(';').unwrap_or((rest, ""));
    let bytes = bytes(alloc, text)?;
    let publications = listed(alloc, published)?;
    let answer = audit_view(
        alloc,
        journal,
        &view(&bytes)?,
        &imprint(hash)?,
        &publications,
    )?;
    told(alloc, &answer)
}

fn told(alloc: Global, answer: &Audit) -> Result<String, Fail> {
    match answer {
        Audit::Inside(second, way) => shown(alloc, &("inside", *second, way.as_slice())),
        Audit::Beneath(second, item, links) => shown(alloc, &("beneath", *second, *item, *links)),
        Audit::Clash(clash) => two_strings(alloc, clash.one.as_slice(), clash.two.as_slice()),
        Audit::NotAccepted(refusal) => shown(alloc, refusal),
        Audit::BeforeStart(second) => shown(alloc, &("before start", *second)),
        Audit::Undecided(second) => shown(alloc, &("undecided", *second)),
        Audit::NotDecided(second, led, kept) => {
            shown(alloc, &("not decided", *second, *led, *kept))
        }
    }
}

/// The length and the sum of a string.
fn measured(text: &[u8]) -> (usize, u8) {
    (text.len(), Tiny::of(text).bytes()[1])
}

/// Whether two strings differ, and the measures of each.
fn two_strings(alloc: Global, one: &[u8], two: &[u8]) -> Result<String, Fail> {
    shown(alloc, &("clash", one != two, measured(one), measured(two)))
}

// An inner node, in files whose headers are all long; a named item from below its leaf, its leaf, and the item beside it;
// the only item of its second.
const INSIDE: &str =
    "audit 4b53494a524e4c32 80010000 8002002e 80010000 80020021011c O 8003000103 80030022 0105 O 00 80030022 0107 O 00 80030022 0109 O 00 80060000;88000096 88010061 80020000 8003000103 80050021010f O 8006000101 8007002a 8001000101 800200210109 O 8802002d 80010000 80020000 80050021011c O;0f;0:1c = (\"inside\", 0, [Left])
audit 4b53494a524e4c32 0100 0228 0100 02210163 O 030102 0724 0105 O 00 616c 0322 0107 O 00 0600;8800008b 8801005c 0200 030107 05210105 O 060101 070a 0408 7e01010103616c00 072302210107 O 88020027 0100 0200 05210163 O;05;0:63 = (\"inside\", 0, [Left, Left])
audit 4b53494a524e4c32 0100 0228 0100 02210163 O 030102 0724 0105 O 00 616c 0322 0107 O 00 0600;88000082 88010053 0200 030103 05210158 O 060101 0726 010101 02210107 O 88020027 0100 0200 05210163 O;58;0:63 = (\"inside\", 0, [Left])
audit 4b53494a524e4c32 0100 0228 0100 02210163 O 030102 0724 0105 O 00 616c 0322 0107 O 00 0600;88000082 88010053 0200 030102 05210107 O 060101 0826 010101 02210158 O 88020027 0100 0200 05210163 O;07;0:63 = (\"inside\", 0, [Right])
sha-audit 4b53494a524e4c31 01046553f100 022c 01046553f100 022101 D 030101 032201 D 00 0600;88000263 88010032 02046553f100 030101 030101 052101 D 060101 8801002f 02046553f100 030101 052101 D 060101 880201f6 01046553f100 02046553f100 052101 D 08210145470adcfb1fd2672fd1eed61be90547130e76c1fd50fa980bf645fc75fb5d34 082101d1b916f8242c1c46b2e2d931d54c53295c5809d16b011b50b4e1e98e9cf344b4 082101177849736674c1409ad806c2b3895966555afd4d8dcb98281ed1afa00f0beff5 0821016c159ee9e1886d5aa9c468069a946cc159a62ed13d84e6a13dedec692ca8af42 08210108cdfefa631c5e2f5ca30667ff5abbc2dc09c69e258b00c4be68b122b2af859d 08210117e38264532474ef72812e1ba1170ff282f95998f159dd251d4abfdad9b7e517 0821015a6a0731ad751fd676ecb6e20b56c6ef0d5227cdb4cecc707591e86cef8bb337 0821015a9575e4f28f49791b75ceef627c8e280095f8b443c3bcb400fcc12e23f7848d 08210105422bb6fbd2f7fac333d7f1bf02a26caa4477b27700605573e88c62dc61cc75 082101729ed6dd9e7c24f1b77dfc5dabd5dd761c7bb1bd80e1aa942caf32e645dfc259 082101fc2fa611450e69beb144999b67c93c091be5454b5daaad0b4733de61b8f9559d 0821017597f70101c8e7d0ffb7d9d503c1533a8aeb1515caa6b2d958d59d5e08e025eb 082101a96ce76baacdcfdda647c4d70ce36d5dd0625c7e58a11da0fb64f07fcef3bfc7;A;1700000000:570737a592f024019e838977a595140c41a115724cadca09b01a769fde3a85d3 = (\"inside\", 1700000000, [])";

#[test]
fn a_node_of_the_tree_is_inside(rt: HostRuntime) -> Result<(), Fail> {
    are_so(&rt, rt.alloc(), INSIDE)
}

// A lower request beneath an item, and beneath one with a name.
const BENEATH: &str =
    "audit 4b53494a524e4c32 0100 0228 0100 0221010f O 030101 0322 010f O 01 0600;880000e6 88010031 0200 030101 030103 030101 05210105 O 060101 88010053 0200 030101 030103 05210105 O 060101 072302210107 O 8801002b 0200 030101 0521010f O 060101 88020027 0100 0200 0521010f O;05;0:0f = (\"beneath\", 0, 0, 1)
audit 4b53494a524e4c32 0100 0228 0100 02210163 O 030101 0724 010f O 01 616c 0600;880000bd 88010053 0200 030103 030103 05210105 O 060101 072302210107 O 88010037 0200 030103 0521010f O 060101 070a 0408 7e01010103616c00 88020027 0100 0200 05210163 O;05;0:63 = (\"beneath\", 0, 0, 1)";

#[test]
fn a_lower_request_is_beneath_an_item(rt: HostRuntime) -> Result<(), Fail> {
    are_so(&rt, rt.alloc(), BENEATH)
}

// Strings of one length, and a string that stands in place of a name's.
const CLASHES: &str =
    "audit 4b53494a524e4c32 0100 0228 0100 0221010f O 030102 0322 0105 O 00 0322 0107 O 00 0600;8800007f 88010050 0200 030103 05210106 O 060101 072302210106 O 88020027 0100 0200 0521010f O;06;0:0f = (\"clash\", true, (67, 15), (67, 15))
audit 4b53494a524e4c32 0100 0228 0100 02210158 O 030101 0724 0105 O 00 616c 0600;8800007f 88010050 0200 030103 05210105 O 060101 072302210150 O 88020027 0100 0200 05210158 O;05;0:58 = (\"clash\", true, (67, 88), (42, 88))";

#[test]
fn two_strings_of_one_sum_clash(rt: HostRuntime) -> Result<(), Fail> {
    are_so(&rt, rt.alloc(), CLASHES)
}

const REFUSED: &str =
    "audit 4b53494a524e4c32 010105 0600;8800005a 8801002b 0200 030101 05210106 O 060101 88020027 0100 0200 05210106 O;07;0:06 = WrongHash { in_signature: Imprint { bytes: [1, 6, 0, 0, 0, 0, 0, 0, 0, 0, 0, 0, 0, 0, 0, 0, 0, 0, 0, 0, 0, 0, 0, 0, 0, 0, 0, 0, 0, 0, 0, 0, 0] }, given: Imprint { bytes: [1, 7, 0, 0, 0, 0, 0, 0, 0, 0, 0, 0, 0, 0, 0, 0, 0, 0, 0, 0, 0, 0, 0, 0, 0, 0, 0, 0, 0, 0, 0, 0, 0] } }
audit 4b53494a524e4c32 010105 0600;8800005a 8801002b 0200 030101 05210106 O 060101 88020027 0100 0200 05210106 O;06;0:06 = (\"before start\", 0)
audit 4b53494a524e4c32 0100 0600;8800005a 8801002b 0200 030101 05210106 O 060101 88020027 0100 0200 05210106 O;06;0:06 = (\"undecided\", 0)
audit 4b53494a524e4c32 0100 0228 0100 02210109 O 030101 0322 0109 O 00 0600;8800005a 8801002b 0200 030101 05210106 O 060101 88020027 0100 0200 05210106 O;06;0:06 = (\"not decided\", 0, Imprint { bytes: [1, 6, 0, 0, 0, 0, 0, 0, 0, 0, 0, 0, 0, 0, 0, 0, 0, 0, 0, 0, 0, 0, 0, 0, 0, 0, 0, 0, 0, 0, 0, 0, 0] }, Imprint { bytes: [1, 9, 0, 0, 0, 0, 0, 0, 0, 0, 0, 0, 0, 0, 0, 0, 0, 0, 0, 0, 0, 0, 0, 0, 0, 0, 0, 0, 0, 0, 0, 0, 0] })";

#[test]
fn refuses_in_order(rt: HostRuntime) -> Result<(), Fail> {
    are_so(&rt, rt.alloc(), REFUSED)
}
