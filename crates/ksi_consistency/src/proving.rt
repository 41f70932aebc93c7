ghost use Rattle.std.specs.Prelude.{◌≡◌, ◌≤◌, ◌+◌, ◌++◌, true, IsTrue, Ok, IfOk, OnOk, reverse};
ghost use Rattle.ksi_calendar.specs.Climbing.{calendar_join};
ghost use Rattle.ksi_calendar.specs.Calendar.{calendar_leaf, is_covered, calendar_root};
ghost use Rattle.ksi_consistency.specs.Parts.{IsPart};
ghost use Rattle.ksi_consistency.specs.Front.{front_of, count_of, calendar_front};
ghost use Rattle.ksi_consistency.specs.Checked.{roots_from, front_checked};

use crate::imprints::Imprints;
use crate::join::join;
use crate::kept::CalendarTo;
use crate::laws::fronts_are_accepted;
use crate::refusal::FrontRefusal;
use crate::roots::Roots;
use ksi_calendar::Calendar;
use ksi_imprint::{Compress, Imprint, NoMemory};
use ksi_split::high_bit;
use ksi_split::laws::one_split;
use std::alloc::Global;

/// The front of the calendar of the seconds from 0 to `p1` in that of the seconds from 0 to `p2`, which is covered.
///
/// # Errors
/// `NoMemory`: all is as it was.
pub fn prove<C: Compress>(
    alloc: Global,
    calendar: &Calendar<C>,
    p1: u64,
    p2: u64,
) -> Result<Imprints, NoMemory>
    requires within { p1 ≤ p2 }
    requires covered { IsTrue (is_covered calendar.now p2) }
    ensures front { IfOk result (λ front. front ≡ calendar_front C.image calendar.now p1 p2) }
    ensures accepted { IfOk result (λ front. front_checked C.image p1 p2 (calendar_root C.image calendar.now p1)
        (calendar_root C.image calendar.now p2) front ≡ Ok tt) }
{
    fronts_are_accepted();
    let kept = CalendarTo { calendar, last: p2 };
    let mut front = Vec::with_capacity(alloc, needed(p1, p2, true))?;
    prove_part(&kept, 0, p1, p2, true, &mut front)?;
    Ok(Imprints::from_vec(front))
}

/// Whether a front leads from the root of the calendar of the seconds from 0 to `p1` to that of the seconds from 0 to
/// `p2`.
///
/// # Errors
/// The first of these that stands: it has not as many imprints as are needed; its imprints lead to another old root; or
/// to another new one.
pub fn check<C: Compress>(
    p1: u64,
    p2: u64,
    r1: Imprint,
    r2: Imprint,
    front: &[Imprint],
) -> Result<(), FrontRefusal>
    requires { p1 ≤ p2 }
    ensures { result ≡ front_checked C.image p1 p2 r1 r2 front.now }
{
    let needed = needed(p1, p2, true);
    let given = front.len();
    if given != needed {
        return Err(FrontRefusal::Length { needed, given });
    }
    let roots = check_part::<C>(p1, p2, &r1, front);
    if roots.old != r1 {
        return Err(FrontRefusal::OldDiffers {
            computed: roots.old,
            given: r1,
        });
    }
    if roots.new != r2 {
        return Err(FrontRefusal::NewDiffers {
            computed: roots.new,
            given: r2,
        });
    }
    Ok(())
}

/// How many imprints show that the leaves to `old` are the beginning of those to `new`, where the root of the former is given
/// or is not.
pub(crate) fn needed(old: u64, new: u64, given: bool) -> usize
    requires { old ≤ new }
    ensures count { result ≡ count_of (old + 1) (new + 1) given }
    ensures few { result ≤ new + 1 }
{
    one_split();
    if old == new {
        return if given { 0 } else { 1 };
    }
    let half = high_bit(new);
    if old < half {
        needed(old, half - 1, given) + 1
    } else {
        needed(old - half, new - half, false) + 1
    }
}

/// Adds the imprints that show that, of a part of the kept tree from leaf `first` on, the leaves to `old` behind it are the
/// beginning of those to `new` behind it.
fn prove_part<C: Compress>(
    kept: &CalendarTo<'_, C>,
    first: u64,
    old: u64,
    new: u64,
    given: bool,
    front: &mut Vec<Imprint>,
) -> Result<(), NoMemory>
    requires within { old ≤ new }
    requires part { IsPart (kept.now.last + 1) first (new + 1) }
    ensures { OnOk result (front.new.items ≡ front.old.items ++
        front_of (calendar_join C.image) (calendar_leaf kept.now.calendar.now) (old + 1) first (new + 1) given) }
{
    one_split();
    if old == new {
        if !given {
            front.push(kept.part(first, new))?;
        }
        return Ok(());
    }
    let half = high_bit(new);
    if old < half {
        prove_part(kept, first, old, half - 1, given, front)?;
        front.push(kept.part(first + half, new - half))?;
    } else {
        prove_part(kept, first + half, old - half, new - half, false, front)?;
        front.push(kept.part(first, half - 1))?;
    }
    Ok(())
}

/// Both roots of a part that its imprints lead to, where the root of the leaves to `old` is given.
pub(crate) fn check_part<C: Compress>(
    old: u64,
    new: u64,
    given: &Imprint,
    front: &[Imprint],
) -> Roots
    requires { old ≤ new }
    ensures { result ≡ roots_from C.image given.now (old + 1) (new + 1) (reverse front.now) }
{
    let (x, inner) = match front.split_last() {
        None => {
            return Roots {
                old: *given,
                new: *given,
            };
        }
        Some(last) => last,
    };
    if old == new {
        return Roots { old: *x, new: *x };
    }
    let half = high_bit(new);
    if old < half {
        let part = check_part::<C>(old, half - 1, given, inner);
        Roots {
            old: part.old,
            new: join::<C>(&part.new, x),
        }
    } else {
        let part = check_part::<C>(old - half, new - half, given, inner);
        Roots {
            old: join::<C>(x, &part.old),
            new: join::<C>(x, &part.new),
        }
    }
}
