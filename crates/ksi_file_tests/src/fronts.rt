ghost use Rattle.std.specs.Prelude.{◌≡◌, ◌≤◌, ◌<◌, ◌+◌, ◌^◌, length, IfOk, IsTrue};
ghost use Rattle.ksi_calendar.specs.Calendar.{is_covered};

use crate::imprints::named;
use crate::same::same;
use ksi_calendar::Calendar;
use ksi_consistency::{Compared, FrontRefusal, check, compare, prove};
use ksi_imprint::{Compress, Imprint, NoMemory, Sha, Tiny};
use std::alloc::Global;
use std::process::Abort;
use std::test::Fail;

/// The calendar from second 0 on with these roots.
fn calendar_of<C: Compress>(alloc: Global, firsts: &[u8]) -> Result<Calendar<C>, NoMemory>
    requires { length firsts.now ≤ 2 ^ 62 }
    ensures start { IfOk result (λ calendar. calendar.start ≡ 0) }
    ensures count { IfOk result (λ calendar. length calendar.roots ≡ length firsts.now) }
{
    let mut calendar = Calendar::new(alloc, 0)?;
    for first in firsts {
        calendar.append(named(*first))?;
    }
    Ok(calendar)
}

/// Both seconds of a front, the first bytes of both roots, and those of its imprints.
type Made = (u64, u64, u8, u8, &'static [u8]);

static FRONTS: [Made; 4] = [
    (0, 2, 0x0a, 0x3e, &[0x14, 0x1e]),
    (1, 2, 0x1f, 0x3e, &[0x1e]),
    (2, 3, 0x3e, 0x67, &[0x1e, 0x28, 0x1f]),
    (2, 2, 0x3e, 0x3e, &[]),
];

/// Whether a front has the imprints of a row.
fn has_imprints(front: &[Imprint], row: &Made) -> bool {
    let mut same = front.len() == row.4.len();
    for (imprint, first) in front.iter().zip(row.4) {
        same = same && *imprint == named(*first);
    }
    same
}

/// Whether a front is accepted between the roots of a row.
fn is_accepted(front: &[Imprint], row: &Made) -> bool
    requires { row.now.0 ≤ row.now.1 }
{
    check::<Tiny>(row.0, row.1, named(row.2), named(row.3), front).is_ok()
}

/// Whether the front that is made of a calendar is that of a row.
fn is_made(alloc: Global, calendar: &Calendar<Tiny>, row: &Made) -> Result<bool, NoMemory>
    requires within { row.now.0 ≤ row.now.1 }
    requires covered { IsTrue (is_covered calendar.now row.now.1) }
{
    let front = prove(alloc, calendar, row.0, row.1)?;
    Ok(has_imprints(front.as_slice(), row) && is_accepted(front.as_slice(), row))
}

#[test]
fn fronts_of_four_seconds(rt: HostRuntime) -> Result<(), Fail> {
    let calendar = calendar_of::<Tiny>(rt.alloc(), &[0x0a, 0x14, 0x1e, 0x28])?;
    for row in &FRONTS {
        assert!(rt; row.0 <= row.1 && row.1 < 4);
        assert!(rt; is_made(rt.alloc(), &calendar, row)?);
    }
    Ok(())
}

#[test]
fn refusals_in_their_order(rt: HostRuntime) {
    let short = [named(0x14)];
    let other = [named(0x1e), named(0x28), named(0x20)];
    let length = FrontRefusal::Length {
        needed: 2,
        given: 1,
    };
    let old = FrontRefusal::OldDiffers {
        computed: named(0x3f),
        given: named(0x3e),
    };
    let new = FrontRefusal::NewDiffers {
        computed: named(0x68),
        given: named(0x67),
    };
    same(
        &rt,
        "F1",
        check::<Tiny>(0, 2, named(0x0a), named(0x3e), &short),
        Err(length),
    );
    same(
        &rt,
        "F2",
        check::<Tiny>(2, 3, named(0x3e), named(0x67), &other),
        Err(old),
    );
    same(
        &rt,
        "F3",
        check::<Tiny>(2, 3, named(0x3f), named(0x67), &other),
        Err(new),
    );
}

/// Each front of one calendar is accepted.
fn all_fronts(
    rt: &impl Abort,
    alloc: Global,
    calendar: &Calendar<Sha>,
    p2: u64,
) -> Result<(), NoMemory>
    requires { IsTrue (is_covered calendar.now p2) }
{
    let new = calendar.root_to(p2).unwrap_or(Imprint::ZERO);
    for p1 in 0..p2 {
        let front = prove(alloc, calendar, p1, p2)?;
        let old = calendar.root_to(p1).unwrap_or(Imprint::ZERO);
        same(
            rt,
            "front",
            check::<Sha>(p1, p2, old, new, front.as_slice()),
            Ok(()),
        );
    }
    Ok(())
}

#[test]
fn fronts_of_forty_seconds(rt: HostRuntime) -> Result<(), Fail> {
    let calendar = calendar_of::<Sha>(rt.alloc(), &[7; 40])?;
    for p2 in 0..40 {
        all_fronts(&rt, rt.alloc(), &calendar, p2)?;
    }
    Ok(())
}

/// What a front shows of two calendars, and the lengths of both strings of a clash.
#[derive(Clone, Copy, PartialEq, Eq)]
enum Shown {
    NotAccepted,
    Equal,
    Clash(usize, usize),
}

fn told(compared: &Compared) -> Shown {
    match compared {
        Compared::NotAccepted(_) => Shown::NotAccepted,
        Compared::Equal => Shown::Equal,
        Compared::Clash(clash) => {
            Shown::Clash(clash.one.as_slice().len(), clash.two.as_slice().len())
        }
    }
}

/// What the front of so many imprints shows of a calendar of three seconds and an older one, for seconds 1 and 2.
fn shown_by(
    alloc: Global,
    old: &Calendar<Tiny>,
    new: &[u8],
    imprints: usize,
) -> Result<Shown, NoMemory>
    requires old { (old.now.start ≡ 0) × (length old.now.roots ≡ 2) }
    requires new { length new.now ≡ 3 }
{
    let new = calendar_of::<Tiny>(alloc, new)?;
    let front = [named(0x1e)];
    let front = front.get(..imprints).unwrap_or(&[]);
    Ok(told(&compare(alloc, old, &new, 1, 2, front)?))
}

/// The roots of the newer calendar, how many imprints the front has, and what it shows.
static ROWS: [([u8; 3], usize, Shown); 3] = [
    ([0x14, 0x0a, 0x1e], 1, Shown::Clash(67, 67)),
    ([0x0a, 0x14, 0x1e], 1, Shown::Equal),
    ([0x0a, 0x14, 0x1e], 0, Shown::NotAccepted),
];

#[test]
fn two_calendars_of_one_root(rt: HostRuntime) -> Result<(), Fail> {
    let old = calendar_of::<Tiny>(rt.alloc(), &[0x0a, 0x14])?;
    for (new, imprints, want) in &ROWS {
        assert!(rt; shown_by(rt.alloc(), &old, new, *imprints)? == *want);
    }
    Ok(())
}
