ghost use Rattle.std.specs.Prelude.{◌≡◌, ◌<◌, ◌^◌};

use crate::imprints::hash;
use crate::journals::journal_of;
use crate::rows::are_so;
use crate::text::{bytes, shown};
use ksi_calendar::Steps;
use ksi_extender::{ExtendRefusal, extend, extend_counted};
use ksi_imprint::{Bytes, Refused, Sha};
use ksi_journal::Journal;
use ksi_publications::Publications;
use ksi_verifier::{BytesVerdict, verify_bytes};
use std::alloc::Global;
use std::marker::Brand;
use std::sync::ledger::{Blank, Ledger};
use std::test::Fail;

/// What comes of a journal and a signature that is extended to a second.
pub(crate) fn extended(alloc: Global, verb: &str, files: &str) -> Result<String, Fail> {
    let (kept, rest) = files.split_once(';').unwrap_or((files, ""));
    let journal = journal_of::<Sha>(alloc, kept)?;
    let (text, second) = rest.split_once(';').unwrap_or((rest, ""));
    told(alloc, verb, &journal, &bytes(alloc, text)?, second.parse()?)
}

fn told(
    alloc: Global,
    verb: &str,
    journal: &Journal<Sha>,
    bytes: &[u8],
    second: u64,
) -> Result<String, Fail> {
    match extended_to(alloc, journal, bytes, second) {
        Ok(taken) => what_is(alloc, verb, journal, taken.as_slice(), second),
        Err(refused) => shown(alloc, &refused),
    }
}

fn extended_to(
    alloc: Global,
    journal: &Journal<Sha>,
    bytes: &[u8],
    second: u64,
) -> Result<Bytes, Refused<ExtendRefusal>> {
    if second < 1 << 63 {
        extend(alloc, journal, bytes, second)
    } else {
        Err(Refused::Fault(ExtendRefusal::Undecided(second)))
    }
}

/// All bytes that are written; whether they are extended again as they are, with the steps counted; or how many they are,
/// the two behind the chains of `SIGNATURE`, and the verdict on them.
fn what_is(
    alloc: Global,
    verb: &str,
    journal: &Journal<Sha>,
    bytes: &[u8],
    second: u64,
) -> Result<String, Fail> {
    match verb {
        "written" => Ok(hex::encode(alloc, bytes)?),
        "again" => shown(alloc, &is_again(alloc, journal, bytes, second)?),
        _ => {
            let verdict = verdict(alloc, journal, bytes, second)?;
            shown(alloc, &(bytes.len(), bytes.get(109..111), verdict))
        }
    }
}

fn is_again(
    alloc: Global,
    journal: &Journal<Sha>,
    bytes: &[u8],
    second: u64,
) -> Result<bool, Refused<ExtendRefusal>> {
    if second >= 1 << 63 {
        return Ok(false);
    }
    let again = counted::<Brand>(alloc, journal, bytes, second, Blank::new(1))?;
    Ok(again.as_slice() == bytes)
}

fn counted<L: Ledger>(
    alloc: Global,
    journal: &Journal<Sha>,
    bytes: &[u8],
    second: u64,
    blank: Blank,
) -> Result<Bytes, Refused<ExtendRefusal>>
    requires name { blank.name ≡ L.name }
    requires parts { blank.parts ≡ L.parts }
    requires one { blank.parts ≡ 1 }
    requires within { second < 2 ^ 63 }
{
    let mut steps = Steps::<L>::open(blank);
    extend_counted(alloc, journal, bytes, second, &mut steps)
}

/// The verdict for the hash of no bytes, where the journal's root of the second, if it has one, is published.
fn verdict(
    alloc: Global,
    journal: &Journal<Sha>,
    bytes: &[u8],
    second: u64,
) -> Result<BytesVerdict, Fail> {
    let mut pairs = Vec::new(alloc);
    if let Some(root) = journal.calendar().root_to(second) {
        pairs.push((second, root))?;
    }
    let publications = Publications::from_vec(pairs);
    Ok(verify_bytes::<Sha>(bytes, &hash(), &publications))
}

// A journal that keeps the hash of no bytes in second 1,700,000,000, which is its start, and signatures of it there without
// a calendar chain: one with no further element, and those with one, whose header is 5e00 or 7e00.
const PASSED_ON: &str =
    "extend 4b53494a524e4c31 01046553f100 022c 01046553f100 022101 D 030101 032201 D 00 0600;88000069 88010032 02046553f100 030101 030101 052101 D 060101 8801002f 02046553f100 030101 052101 D 060101;1700000000 = (662, Some([136, 2]), Accepted(1700000000))
extend 4b53494a524e4c31 01046553f100 022c 01046553f100 022101 D 030101 032201 D 00 0600;8800006b 88010032 02046553f100 030101 030101 052101 D 060101 8801002f 02046553f100 030101 052101 D 060101 5e00;1700000000 = (662, Some([136, 2]), Accepted(1700000000))
extend 4b53494a524e4c31 01046553f100 022c 01046553f100 022101 D 030101 032201 D 00 0600;8800006b 88010032 02046553f100 030101 030101 052101 D 060101 8801002f 02046553f100 030101 052101 D 060101 7e00;1700000000 = (664, Some([126, 0]), Accepted(1700000000))";

#[test]
fn what_is_to_be_passed_on_stays(rt: HostRuntime) -> Result<(), Fail> {
    are_so(&rt, rt.alloc(), PASSED_ON)
}

const AGAIN: &str =
    "again 4b53494a524e4c31 01046553f100 022c 01046553f100 022101 D 030101 032201 D 00 0600;88000069 88010032 02046553f100 030101 030101 052101 D 060101 8801002f 02046553f100 030101 052101 D 060101;1700000000 = true";

#[test]
fn what_was_extended_is_extended_again(rt: HostRuntime) -> Result<(), Fail> {
    are_so(&rt, rt.alloc(), AGAIN)
}

// A journal that begins with second 8, which was missed, and keeps that hash in 9. The bytes are those of another
// implementation of SHA-256: the links are, from the bottom, the zero imprint on the right side and then a part of the
// calendar of eight seconds that are not covered.
const MISSED: &str =
    "extend 4b53494a524e4c31 010108 0229 010108 02210100 O 030100 0229 010109 022101 D 030101 032201 D 00 0600;88000030 8801002c 020109 030101 052101 D 060101;9 = (211, Some([0, 0]), Accepted(9))
written 4b53494a524e4c31 010108 0229 010108 02210100 O 030100 0229 010109 022101 D 030101 032201 D 00 0600;88000030 8801002c 020109 030101 052101 D 060101;9 = 880000cf8801002c020109030101052101e3b0c44298fc1c149afbf4c8996fb92427ae41e4649b934ca495991b7852b8550601018802006f010109020109052101e3b0c44298fc1c149afbf4c8996fb92427ae41e4649b934ca495991b7852b8550821010000000000000000000000000000000000000000000000000000000000000000082101df77a42097b2796b471321927696b2e9ecb083bcb046058b34bb3ff70fc9e0078803002810260201090421017dd6308dc4f1cf1c80ff4459dc24eb8541e38929096329c51893c5d6370fe7c4";

#[test]
fn a_missed_second_has_the_zero_imprint(rt: HostRuntime) -> Result<(), Fail> {
    are_so(&rt, rt.alloc(), MISSED)
}

const REFUSED: &str =
    "extend 4b53494a524e4c31 01046553f100 022c 01046553f100 022101 D 030101 032201 D 00 0600;88000069 88010032 02046553f100 030101 030101 052101 D 060101 8801002f 02046553f100 030101 052101 D 060101;1699999999 = Fault(TooEarly { second: 1700000000, publication: 1699999999 })
extend 4b53494a524e4c31 01046553f100 022c 01046553f100 022101 D 030101 032201 D 00 0600;88000069 88010032 02046553f100 030101 030101 052101 D 060101 8801002f 02046553f100 030101 052101 D 060101;1700000001 = Fault(Undecided(1700000001))";

#[test]
fn the_second_has_to_be_covered(rt: HostRuntime) -> Result<(), Fail> {
    are_so(&rt, rt.alloc(), REFUSED)
}
