ghost use Rattle.std.specs.Prelude.{◌≡◌, ◌≢◌, ◌≤◌, ◌↔◌, ℕ, IsTrue, Ok, Err, IfSome, IfNone, IfOk, OnErr};
ghost use Rattle.ksi_imprint.specs.declared.clash.Clash.{Clash};
ghost use Rattle.ksi_calendar.specs.Calendar.{calendar_leaf, calendar_root, is_covered};
ghost use Rattle.ksi_consistency.specs.Checked.{front_checked};
ghost use Rattle.ksi_consistency.specs.Compared.{AgreeTo, DifferBy, IsAnswer, IsFrontClash, IsFrontOf, IsShort};
ghost use Rattle.ksi_consistency.specs.Answering.{compared, first_apart};
ghost use Rattle.ksi_consistency.specs.declared.refusal.FrontRefusal.{FrontRefusal};
ghost use Rattle.ksi_consistency.specs.declared.compared.Compared.TheVariants as answers;

use crate::clashing::clash_in_front;
use crate::compared::Compared;
use crate::differing::Differing;
use crate::kept::CalendarTo;
use crate::proving::check;
use ksi_calendar::Calendar;
use ksi_imprint::{Compress, Imprint, NoMemory};
use std::alloc::Global;

/// What a front shows of two calendars, of which the old one covers `p1` and the new one `p2`.
///
/// # Errors
/// `NoMemory` only where it is accepted and they have different leaves of a second to `p1`.
pub fn compare<C: Compress>(
    alloc: Global,
    old: &Calendar<C>,
    new: &Calendar<C>,
    p1: u64,
    p2: u64,
    front: &[Imprint],
) -> Result<Compared, NoMemory>
    requires within { p1 ≤ p2 }
    requires old_covered { IsTrue (is_covered old.now p1) }
    requires new_covered { IsTrue (is_covered new.now p2) }
    ensures answer { IfOk result (λ answer. answer ≡ compared C.image old.now new.now p1 p2 front.now) }
    ensures shown { IfOk result (IsAnswer C.image old.now new.now p1 p2 front.now) }
    ensures short { IfOk result IsShort }
    ensures refused { (refusal : FrontRefusal) → (result ≡ Ok (answers.NotAccepted refusal)) ↔
        (front_checked C.image p1 p2 (calendar_root C.image old.now p1) (calendar_root C.image new.now p2) front.now ≡ Err refusal) }
    ensures equal { (result ≡ Ok answers.Equal) ↔
        (IsFrontOf C.image old.now new.now p1 p2 front.now × AgreeTo old.now new.now p1) }
    ensures clash { (clash : Clash) → result ≡ Ok (answers.Clash clash) →
        IsFrontClash C.image old.now new.now p1 p2 (calendar_root C.image old.now p1) front.now clash }
    ensures differ { (clash : Clash) → result ≡ Ok (answers.Clash clash) → DifferBy old.now new.now p1 }
    ensures memory { OnErr result (IsFrontOf C.image old.now new.now p1 p2 front.now × DifferBy old.now new.now p1) }
{
    answer(alloc, old, new, p1, p2, front)
}

fn answer<C: Compress>(
    alloc: Global,
    old: &Calendar<C>,
    new: &Calendar<C>,
    p1: u64,
    p2: u64,
    front: &[Imprint],
) -> Result<Compared, NoMemory>
    requires within { p1 ≤ p2 }
    requires old_covered { IsTrue (is_covered old.now p1) }
    requires new_covered { IsTrue (is_covered new.now p2) }
    ensures answer { IfOk result (λ answer. answer ≡ compared C.image old.now new.now p1 p2 front.now) }
    ensures shown { IfOk result (IsAnswer C.image old.now new.now p1 p2 front.now) }
    ensures short { IfOk result IsShort }
    ensures memory { OnErr result (IsFrontOf C.image old.now new.now p1 p2 front.now × DifferBy old.now new.now p1) }
{
    let old = CalendarTo {
        calendar: old,
        last: p1,
    };
    let new = CalendarTo {
        calendar: new,
        last: p2,
    };
    let r1 = old.root();
    let r2 = new.root();
    if let Err(refusal) = check::<C>(p1, p2, r1, r2, front) {
        return Ok(Compared::NotAccepted(refusal));
    }
    match first_apart(&old, &new) {
        None => Ok(Compared::Equal),
        Some(second) => {
            let two = Differing {
                old,
                new,
                given: r1,
                front,
                second,
            };
            Ok(Compared::Clash(clash_in_front(alloc, &two, front, 0, p1, p2)?))
        }
    }
}

/// The first second to the older calendar's last of which they have different leaves.
fn first_apart<C: Compress>(old: &CalendarTo<'_, C>, new: &CalendarTo<'_, C>) -> Option<u64>
    requires { old.now.last ≤ new.now.last }
    ensures some { IfSome result (λ t. t ≤ old.now.last) }
    ensures differ { IfSome result (λ t. calendar_leaf old.now.calendar.now t ≢ calendar_leaf new.now.calendar.now t) }
    ensures first { result ≡ first_apart old.now.calendar.now new.now.calendar.now old.now.last }
    ensures none { IfNone result (AgreeTo old.now.calendar.now new.now.calendar.now old.now.last) }
{
    let begin = old.calendar.start().min(new.calendar.start());
    for second in begin..old.last {
        if old.leaf(second) != new.leaf(second) {
            return Some(second);
        }
    }
    if old.leaf(old.last) != new.leaf(old.last) {
        Some(old.last)
    } else {
        None
    }
}
