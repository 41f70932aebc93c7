// Behind the beginning of a generated schedule a core tries ballots on a second, of which two cores answer the last. All three
// cores hold one root for it then, whatever was lost, repeated or late before.
use crate::moments::front;
use crate::rows::are_so;
use ksi_imprint::{Bytes, Imprint, Sha};
use ksi_replay::{generate, replay};
use ksi_schedule::{print, read_schedule};
use std::alloc::Global;
use std::test::Fail;

/// Which messages are delivered in a ballot that these two of three voters answer, counted from its first message. These are
/// `ballot_numbers` of `ksi_laws_progress/specs/Numbers`.
fn delivered(pair: [u64; 2]) -> [u64; 11] {
    let begun = [pair[0].wrapping_add(5), pair[1].wrapping_add(5)];
    [pair[0], pair[1], 3, 4, begun[0], begun[1], 8, 9, 10, 11, 12]
}

/// The lines of a ballot whose first message has this number: `ballot_events` of `ksi_laws_progress/specs/Deciding`.
fn ballot(alloc: Global, at: &str, first: u64, pair: [u64; 2]) -> Option<String> {
    let mut lines = format!(in alloc; "seal {at}\nballot {at}\n").ok()?;
    for offset in delivered(pair) {
        let number = first.wrapping_add(offset);
        lines = format!(in alloc; "{lines}deliver {number}\n").ok()?;
    }
    Some(lines)
}

/// The lines of a seal and nine tries, of which nothing is delivered: `tries` of the same file. They send 27 messages.
fn tries(alloc: Global, at: &str) -> Option<String> {
    let mut lines = format!(in alloc; "seal {at}\n").ok()?;
    for _ in 0..9usize {
        lines = format!(in alloc; "{lines}ballot {at}\n").ok()?;
    }
    Some(lines)
}

/// How many messages the events of a text send.
fn sent(alloc: Global, text: &[u8]) -> Option<u64> {
    let schedule = read_schedule(alloc, text).ok()?;
    Some(replay::<Sha>(alloc, schedule).ok()?.wire().len() as u64)
}

/// A text with the tries and the ballot behind it.
fn continued(alloc: Global, text: &[u8], at: &str, pair: [u64; 2]) -> Option<Vec<u8>> {
    let first = sent(alloc, text)?.wrapping_add(27);
    let mut all = text.to_vec(alloc).ok()?;
    all.extend_from_slice(tries(alloc, at)?.as_bytes()).ok()?;
    all.extend_from_slice(ballot(alloc, at, first, pair)?.as_bytes())
        .ok()?;
    Some(all)
}

/// What cores 0, 1 and 2 hold for a second after the events of a text.
fn held(alloc: Global, text: &[u8], second: u64) -> Option<[Option<Imprint>; 3]> {
    let schedule = read_schedule(alloc, text).ok()?;
    let world = replay::<Sha>(alloc, schedule).ok()?;
    Some([
        world.held(0, second),
        world.held(1, second),
        world.held(2, second),
    ])
}

/// Whether all three cores hold one root for a second after the events of a text.
fn is_decided(alloc: Global, text: &[u8], second: u64) -> Option<bool> {
    let all = held(alloc, text, second)?;
    Some(all[0].is_some() && all[0] == all[1] && all[1] == all[2])
}

/// The text of the schedule of a number.
fn made(alloc: Global, number: u64) -> Option<Bytes> {
    print(alloc, &generate(alloc, number).ok()?).ok()
}

/// Two of the three voters.
fn pair_of(number: u64) -> [u64; 2] {
    match number % 3 {
        0 => [0, 1],
        1 => [0, 2],
        _ => [1, 2],
    }
}

/// Whether the second of a number is decided behind the beginning of its schedule, and whether it is behind the ballots.
fn run(alloc: Global, number: u64) -> Option<(bool, bool)> {
    let made = made(alloc, number)?;
    let text = front(made.as_slice(), (number % 9 + 1) as usize);
    let second = number % 7 * 37 + 1_700_000_000;
    let core = number / 3 % 3;
    let at = format!(in alloc; "{core} {second}").ok()?;
    let all = continued(alloc, text, at.as_str(), pair_of(number))?;
    Some((
        is_decided(alloc, text, second)?,
        is_decided(alloc, all.as_slice(), second)?,
    ))
}

/// Of the numbers below this one how many seconds are decided after the ballots, and whether some were not before.
pub(crate) fn counted(alloc: Global, numbers: u64) -> Option<(u64, bool)> {
    let mut decided = 0u64;
    let mut fresh = false;
    for number in 0..numbers {
        let (before, after) = run(alloc, number)?;
        fresh = fresh || !before;
        if after {
            decided = decided.wrapping_add(1);
        }
    }
    Some((decided, fresh))
}

#[test]
fn no_beginning_is_stuck(rt: HostRuntime) -> Result<(), Fail> {
    are_so(&rt, rt.alloc(), "decided 18 = Some((18, true))")
}
