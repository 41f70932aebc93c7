ghost use Rattle.std.specs.Prelude.{◌≢◌};
ghost use Rattle.ksi_calendar.specs.Calendar.{calendar_leaf};

use crate::kept::CalendarTo;
use ksi_imprint::{Compress, Imprint};

/// Two kept calendars, the root of the old one, a front, and a second of which they have different leaves.
#[derive(Drop)]
pub(crate) struct Differing<'a, C: Compress> {
    pub(crate) old: CalendarTo<'a, C>,
    pub(crate) new: CalendarTo<'a, C>,
    pub(crate) given: Imprint,
    pub(crate) front: &'a [Imprint],
    pub(crate) second: u64,
    ghost differ: { calendar_leaf old.calendar.now second ≢ calendar_leaf new.calendar.now second },
}
