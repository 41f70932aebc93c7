//! Calendars: seconds that are appended, roots and chains of a calendar of 2^20 seconds.
ghost use Rattle.std.specs.Prelude.{◌≡◌, ◌≤◌, ◌+◌, ◌^◌, length, IfOk};

use crate::clock::{Timed, now, since};
use crate::joins::last_byte;
use crate::trees::imprints;
use ksi_calendar::Calendar;
use ksi_imprint::{Imprint, NoMemory, Sha};
use std::alloc::Global;

/// The first second.
pub(crate) const START: u64 = 1_700_000_000;

/// How many seconds the calendar has whose roots and chains are asked for.
pub(crate) const SECONDS: u64 = 1_048_576;

/// Appends so many seconds.
pub(crate) fn append(rt: &HostRuntime, count: u64) -> Option<Timed> {
    let roots = imprints(rt.alloc(), count).ok()?;
    let begun = now(rt);
    let calendar = calendar_of(rt.alloc(), &roots).ok()?;
    since(rt, begun, Some((calendar.count() % 256) as u8))
}

/// So many roots, to seconds anywhere.
pub(crate) fn root(rt: &HostRuntime, count: u64) -> Option<Timed> {
    let calendar = calendar(rt.alloc()).ok()?;
    let begun = now(rt);
    since(rt, begun, Some(roots(&calendar, count)))
}

/// So many chains, from seconds anywhere to later ones.
pub(crate) fn chain(rt: &HostRuntime, count: u64) -> Option<Timed> {
    let calendar = calendar(rt.alloc()).ok()?;
    let begun = now(rt);
    since(rt, begun, chains(&calendar, count).ok())
}

pub(crate) fn calendar(alloc: Global) -> Result<Calendar<Sha>, NoMemory>
    ensures { IfOk result (λ calendar. calendar.start ≡ 1700000000) }
{
    let roots = imprints(alloc, SECONDS)?;
    calendar_of(alloc, &roots)
}

fn calendar_of(alloc: Global, roots: &[Imprint]) -> Result<Calendar<Sha>, NoMemory>
    requires { length roots.now ≤ 2 ^ 62 }
    ensures { IfOk result (λ calendar. calendar ≡ record { start = 1700000000; roots = roots.now }) }
{
    let mut calendar = Calendar::new(alloc, START)?;
    for root in roots {
        calendar.append(*root)?;
    }
    Ok(calendar)
}

fn roots(calendar: &Calendar<Sha>, count: u64) -> u8 {
    let mut byte = 0;
    let mut place = 1;
    for _ in 0..count {
        place = next(place);
        if let Some(root) = calendar.root_to(START + place % SECONDS) {
            byte ^= last_byte(&root);
        }
    }
    byte
}

fn chains(calendar: &Calendar<Sha>, count: u64) -> Result<u8, NoMemory>
    requires { calendar.now.start ≡ 1700000000 }
{
    let mut byte = 0;
    let mut place = 1;
    for _ in 0..count {
        place = next(place);
        byte ^= chain_byte(calendar, place)?;
    }
    Ok(byte)
}

/// How many links a chain has whose seconds are anywhere.
fn chain_byte(calendar: &Calendar<Sha>, place: u64) -> Result<u8, NoMemory>
    requires { calendar.now.start ≡ 1700000000 }
{
    let last = place % SECONDS;
    if last >= calendar.count() {
        return Ok(0);
    }
    let first = place / SECONDS % (last + 1);
    let links = calendar.chain_to(START + first, START + last)?;
    Ok((links.as_slice().len() % 256) as u8)
}

/// The next of numbers that come in no order (Marsaglia's xorshift).
pub(crate) fn next(place: u64) -> u64 {
    let one = place ^ (place << 13);
    let two = one ^ (one >> 7);
    two ^ (two << 17)
}
