//! The calendar of the covered seconds.
ghost use Rattle.std.specs.Prelude.{◌≡◌, ◌<◌, ◌≤◌, ◌+◌, ◌^◌, [], IfOk, OnOk};
ghost use Rattle.std.specs.List.{AllByRecursion};
ghost use Rattle.ksi_journal.specs.Journal.{IsSecond};
ghost use Rattle.ksi_journal.specs.Calendar.{roots_from};

use ksi_aggtree::Second;
use ksi_calendar::Calendar;
use ksi_imprint::{Compress, NoMemory};
use std::alloc::Global;

/// The calendar of a start and of the seconds that follow it without a gap.
pub(crate) fn calendar<C: Compress>(
    alloc: Global,
    start: u64,
    seconds: &[Second],
) -> Result<Calendar<C>, NoMemory>
    requires start { start < 2 ^ 63 }
    requires early { AllByRecursion (IsSecond C.image) seconds.now }
    ensures { IfOk result (λ calendar. calendar ≡ record { start = start; roots = roots_from start seconds.now }) }
{
    let mut calendar = Calendar::new(alloc, start)?;
    add_roots(&mut calendar, start, seconds)?;
    Ok(calendar)
}

/// Adds the roots of those that follow the start without a gap.
fn add_roots<C: Compress>(
    calendar: &mut Calendar<C>,
    start: u64,
    seconds: &[Second],
) -> Result<(), NoMemory>
    requires start { start < 2 ^ 63 }
    requires early { AllByRecursion (IsSecond C.image) seconds.now }
    requires fresh { calendar.old ≡ record { start = start; roots = [] } }
    ensures { OnOk result (calendar.new ≡ record { start = start; roots = roots_from start seconds.now }) }
{
    'adding: for kept in seconds {
        if kept.second != start + calendar.count() {
            return Ok(());
        }
        calendar.append(kept.root)?;
    }
    Ok(())
}
