//! Fronts of a calendar of 2^20 seconds: made, and checked.
ghost use Rattle.std.specs.Prelude.{◌≡◌};

use crate::calendars::{SECONDS, START, calendar, next};
use crate::clock::{Timed, now, since};
use ksi_calendar::Calendar;
use ksi_consistency::{check, prove};
use ksi_imprint::{Imprint, NoMemory, Sha};
use std::alloc::Global;

/// So many fronts, from seconds anywhere to later ones.
pub(crate) fn proved(rt: &HostRuntime, count: u64) -> Option<Timed> {
    let calendar = calendar(rt.alloc()).ok()?;
    let begun = now(rt);
    since(rt, begun, fronts(rt.alloc(), &calendar, count).ok())
}

fn fronts(alloc: Global, calendar: &Calendar<Sha>, count: u64) -> Result<u8, NoMemory>
    requires { calendar.now.start ≡ 1700000000 }
{
    let mut byte = 0;
    let mut place = 1;
    for _ in 0..count {
        place = next(place);
        let last = place % SECONDS;
        let front = front(alloc, calendar, place / SECONDS % (last + 1), last)?;
        byte ^= (front.len() % 256) as u8;
    }
    Ok(byte)
}

/// The front of the calendar to a second in that to a later one, both counted from the start; none where that is not there.
fn front(
    alloc: Global,
    calendar: &Calendar<Sha>,
    first: u64,
    last: u64,
) -> Result<Vec<Imprint>, NoMemory>
    requires start { calendar.now.start ≡ 1700000000 }
{
    if first > last || last >= SECONDS || last >= calendar.count() {
        return Ok(Vec::new(alloc));
    }
    Ok(prove(alloc, calendar, START + first, START + last)?.into_vec())
}

/// The front from a third of the calendar to its end, checked so many times.
pub(crate) fn checked(rt: &HostRuntime, count: u64) -> Option<Timed> {
    let calendar = calendar(rt.alloc()).ok()?;
    let (first, last) = (SECONDS / 3, SECONDS - 1);
    let front = front(rt.alloc(), &calendar, first, last).ok()?;
    let roots = (
        calendar.root_to(START + first)?,
        calendar.root_to(START + last)?,
    );
    let begun = now(rt);
    since(rt, begun, Some(accepted(count, roots, &front)))
}

/// How often the front is accepted between both roots, modulo 256.
fn accepted(count: u64, roots: (Imprint, Imprint), front: &[Imprint]) -> u8 {
    let (first, last) = (START + SECONDS / 3, START + SECONDS - 1);
    let mut times: u8 = 0;
    for _ in 0..count {
        let is_front = check::<Sha>(first, last, roots.0, roots.1, front).is_ok();
        times = times.wrapping_add(u8::from(is_front));
    }
    times
}
