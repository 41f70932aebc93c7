ghost use Rattle.std.specs.Prelude.{◌≡◌, ◌≤◌, ◌<◌, ◌+◌, ◌-◌, ℕ, List, Contains, true, IfOk, IfSome, IfNone, length, reverse};
ghost use Rattle.ksi_split.specs.Powers.{split_of};
ghost use Rattle.ksi_calendar.specs.Calendar.{calendar_tree};
ghost use Rattle.ksi_consistency.specs.Parts.{IsPart};
ghost use Rattle.ksi_consistency.specs.Front.{count_of};
ghost use Rattle.ksi_consistency.specs.Checked.{front_texts, roots_from, texts_from};
ghost use Rattle.ksi_consistency.specs.Compared.{halves_text, IsFrontClash, IsHalves, IsKeptText, IsNodeClash};
ghost use Rattle.ksi_consistency.specs.Answering.{clash_to, front_clash, part_text};

use crate::differing::Differing;
use crate::halves::{Halves, clash_of};
use crate::kept::CalendarTo;
use crate::proving::check_part;
use ksi_calendar::laws::one_calendar;
use ksi_imprint::{Clash, Compress, Imprint, NoMemory};
use ksi_split::high_bit;
use ksi_split::laws::{one_split, one_way};
use std::alloc::Global;

/// The clash in a part whose trees are the same in two calendars, where a second in it has different leaves: of the first
/// two strings that differ, on the way down to that second.
pub(crate) fn clash_below<C: Compress>(
    alloc: Global,
    two: &Differing<'_, C>,
    first: u64,
    last: u64,
) -> Result<Clash, NoMemory>
    requires old_part { IsPart (two.now.old.last + 1) first (last + 1) }
    requires new_part { IsPart (two.now.new.last + 1) first (last + 1) }
    requires from { first ≤ two.now.second }
    requires to { two.now.second ≤ first + last }
    requires same { calendar_tree C.image two.now.old.calendar.now first (last + 1) ≡
        calendar_tree C.image two.now.new.calendar.now first (last + 1) }
    ensures shown { IfOk result (IsFrontClash C.image two.now.old.calendar.now two.now.new.calendar.now
        two.now.old.last two.now.new.last two.now.given two.now.front.now) }
    ensures which { IfOk result (λ clash. clash ≡
        clash_to C.image two.now.old.calendar.now two.now.new.calendar.now two.now.second first (last + 1)) }
{
    one_split();
    one_way();
    one_calendar();
    let half = high_bit(last);
    let old = two.old.halves(first, last);
    let new = two.new.halves(first, last);
    if !old.is_same(&new) {
        return clash_of::<C>(alloc, &old, &new);
    }
    if two.second - first < half {
        clash_below(alloc, two, first, half - 1)
    } else {
        clash_below(alloc, two, first + half, last - half)
    }
}

/// Lays the string of a join beside that of a part of a calendar, which has the same imprint: a clash where they differ,
/// and none where they are joined of the same parts.
fn lay<C: Compress>(
    alloc: Global,
    kept: &CalendarTo<'_, C>,
    first: u64,
    last: u64,
    joined: &Halves,
) -> Result<Option<Clash>, NoMemory>
    requires some { 0 < last }
    requires part { IsPart (kept.now.last + 1) first (last + 1) }
    requires same { C.image (halves_text joined.now) ≡ calendar_tree C.image kept.now.calendar.now first (last + 1) }
    ensures clash { IfOk result (λ found. IfSome found (IsNodeClash C.image)) }
    ensures one { IfOk result (λ found. IfSome found (λ clash. clash.one ≡ halves_text joined.now)) }
    ensures two { IfOk result (λ found. IfSome found
        (λ clash. IsKeptText C.image kept.now.calendar.now kept.now.last clash.two)) }
    ensures text { IfOk result (λ found. IfSome found
        (λ clash. clash.two ≡ part_text C.image kept.now.calendar.now first (last + 1))) }
    ensures none { IfOk result (λ found. IfNone found
        (IsHalves joined.now (calendar_tree C.image kept.now.calendar.now first (split_of (last + 1)))
        (calendar_tree C.image kept.now.calendar.now (first + split_of (last + 1)) (last + 1 - split_of (last + 1))))) }
{
    let halves = kept.halves(first, last);
    if joined.is_same(&halves) {
        Ok(None)
    } else {
        Ok(Some(clash_of::<C>(alloc, joined, &halves)?))
    }
}

/// The clash in what a front shows, where both roots that it leads to are those of two calendars and a second of the older
/// one has different leaves: of the first string of the front's joins that is not the one that a calendar has there, or
/// below an imprint that stands for a part of both.
pub(crate) fn clash_in_front<C: Compress>(
    alloc: Global,
    two: &Differing<'_, C>,
    front: &[Imprint],
    first: u64,
    old: u64,
    new: u64,
) -> Result<Clash, NoMemory>
    requires within { old ≤ new }
    requires old_part { IsPart (two.now.old.last + 1) first (old + 1) }
    requires new_part { IsPart (two.now.new.last + 1) first (new + 1) }
    requires from { first ≤ two.now.second }
    requires to { two.now.second ≤ first + old }
    requires enough { count_of (old + 1) (new + 1) true ≤ length front.now }
    requires texts { (text : List ℕ) →
        Contains (texts_from C.image two.now.given (old + 1) (new + 1) (reverse front.now)) text →
        Contains (front_texts C.image two.now.old.last two.now.new.last two.now.given two.now.front.now) text }
    requires roots { roots_from C.image two.now.given (old + 1) (new + 1) (reverse front.now) ≡
        record {
          old = calendar_tree C.image two.now.old.calendar.now first (old + 1);
          new = calendar_tree C.image two.now.new.calendar.now first (new + 1);
        } }
    ensures shown { IfOk result (IsFrontClash C.image two.now.old.calendar.now two.now.new.calendar.now
        two.now.old.last two.now.new.last two.now.given two.now.front.now) }
    ensures which { IfOk result (λ clash. clash ≡
        front_clash C.image two.now.old.calendar.now two.now.new.calendar.now two.now.given two.now.second first
        (old + 1) (new + 1) (reverse front.now)) }
{
    one_split();
    let (x, inner) = match front.split_last() {
        None => return clash_below(alloc, two, first, old),
        Some(last) => last,
    };
    if old == new {
        return clash_below(alloc, two, first, old);
    }
    let half = high_bit(new);
    if old < half {
        let part = check_part::<C>(old, half - 1, &two.given, inner);
        let joined = Halves {
            left: part.new,
            right: *x,
        };
        match lay(alloc, &two.new, first, new, &joined)? {
            Some(clash) => Ok(clash),
            None => clash_in_front(alloc, two, inner, first, old, half - 1),
        }
    } else {
        let part = check_part::<C>(old - half, new - half, &two.given, inner);
        let joined = Halves {
            left: *x,
            right: part.old,
        };
        match lay(alloc, &two.old, first, old, &joined)? {
            Some(clash) => return Ok(clash),
            None => {}
        }
        let joined = Halves {
            left: *x,
            right: part.new,
        };
        match lay(alloc, &two.new, first, new, &joined)? {
            Some(clash) => return Ok(clash),
            None => {}
        }
        if two.second - first < half {
            clash_below(alloc, two, first, half - 1)
        } else {
            clash_in_front(alloc, two, inner, first + half, old - half, new - half)
        }
    }
}
