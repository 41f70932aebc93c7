//! The calendar of what is held grows exactly when seconds settle.
ghost use Rattle.std.specs.Prelude.{◌≡◌, ◌≢◌, ◌<◌, ◌≤◌, ◌+◌, ◌^◌, ℕ, length, slice_get, false, Some, List, IfOk, OnOk, OnErr, IsTrue};
ghost use Rattle.ksi_corenode.specs.Settled.{IsCalendarOf};
ghost use Rattle.ksi_corenode.specs.Kept.{held_with};
ghost use Rattle.ksi_corenode.specs.CoreState.{held_by};

use crate::lazy_calendar::LazyCalendar;
use crate::seconds::Seconds;
use ksi_imprint::{Compress, Imprint, NoMemory};
use std::alloc::Global;

/// The first second that is too late for a calendar.
const END: u64 = 9_223_372_036_854_775_808;

/// Adds to the calendar of what is held the roots of those seconds that settle as this is held for a second.
///
/// # Errors
/// `NoMemory`: all is as it was.
pub(crate) fn lengthen<C: Compress>(
    alloc: Global,
    seconds: &Seconds<C>,
    calendar: &mut LazyCalendar<C>,
    second: u64,
    held: Option<Imprint>,
) -> Result<(), NoMemory>
    requires calendar { IsCalendarOf (held_by seconds.now) seconds.now.start calendar.old }
    requires keeps { (root : List ℕ) → held_by seconds.now second ≡ Some root → held ≡ Some root }
    ensures lengthened { OnOk result (IsCalendarOf (held_with (held_by seconds.now) second held) seconds.now.start calendar.new) }
    ensures unchanged { OnErr result (calendar.new ≡ calendar.old) }
{
    let Some(root) = held else {
        return Ok(());
    };
    if !is_next(calendar, second) {
        return Ok(());
    }
    let roots = roots_from(alloc, seconds, second, root)?;
    calendar.append_all(alloc, &roots)
}

/// Whether a second, which is below 2^63, is the next one.
fn is_next<C: Compress>(calendar: &LazyCalendar<C>, second: u64) -> bool
    ensures next { IsTrue result → (second ≡ calendar.now.start + length calendar.now.roots) × (second < 2 ^ 63) }
    ensures other { result ≡ false → second < 2 ^ 63 → second ≢ calendar.now.start + length calendar.now.roots }
{
    let start = calendar.start();
    start <= second && second - start == calendar.count() && second < END
}

/// The roots from a second on, for which this one is held now, up to the first second that nothing is held for.
///
/// # Errors
/// `NoMemory`: no roots are given.
fn roots_from<C: Compress>(
    alloc: Global,
    seconds: &Seconds<C>,
    second: u64,
    root: Imprint,
) -> Result<Vec<Imprint>, NoMemory>
    requires { second < 2 ^ 63 }
    ensures most { IfOk result (λ roots. second + length roots.items ≤ 2 ^ 63) }
    ensures roots { IfOk result (λ roots. (k : ℕ) → k ≤ length roots.items → second + k < 2 ^ 63 →
        held_with (held_by seconds.now) second (Some root) (second + k) ≡ slice_get roots.items k) }
{
    let mut roots = Vec::new(alloc);
    roots.push(root)?;
    'following: for t in second + 1..END {
        match seconds.held(t) {
            Some(root) => roots.push(root)?,
            None => return Ok(roots),
        }
    }
    Ok(roots)
}
