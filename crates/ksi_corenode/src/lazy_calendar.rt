ghost use Rattle.std.specs.Prelude.{◌≡◌, ◌≤◌, ◌+◌, ◌^◌, ◌++◌, [], length, IfOk, OnOk, OnErr, IfSome, IsNone};

use ksi_calendar::Calendar;
use ksi_imprint::{Compress, Imprint, NoMemory};
use std::alloc::Global;
use std::marker::Model;

/// A calendar from a start on, which takes memory only when its first root comes.
#[derive(Drop)]
pub(crate) struct LazyCalendar<C: Compress> {
    start: u64,
    calendar: Option<Calendar<C>>,
}

impl<C: Compress> Model for LazyCalendar<C> {
    ghost use Rattle.std.specs.Prelude.{◌≡◌, [], IfSome, option_map, unwrap_or};
    ghost use Rattle.ksi_calendar.specs.Calendar.{Seconds};

    ghost Value = { Seconds };

    ghost view = { λ c. record { start = c.start; roots = unwrap_or (option_map (λ calendar. calendar.roots) c.calendar) [] } };

    ghost invariant = { λ c. IfSome c.calendar (λ calendar. calendar.start ≡ c.start) };
}

impl<C: Compress> LazyCalendar<C> {
    /// No root yet.
    pub fn new(start: u64) -> Self
        ensures { result ≡ record { start = start; roots = [] } }
    {
        LazyCalendar {
            start,
            calendar: None,
        }
    }

    /// The start.
    pub fn start(&self) -> u64
        ensures { result ≡ self.now.start }
    {
        self.start
    }

    /// How many seconds from the start on have a root.
    pub fn count(&self) -> u64
        ensures { result ≡ length self.now.roots }
    {
        match &self.calendar {
            Some(calendar) => calendar.count(),
            None => 0,
        }
    }

    /// The calendar, none where it has no root.
    pub fn calendar(&self) -> Option<&Calendar<C>>
        ensures some { IfSome result (λ calendar. calendar.now ≡ self.now) }
        ensures none { IsNone result → self.now.roots ≡ [] }
    {
        self.calendar.as_ref()
    }

    /// Adds the roots of the next seconds in order.
    ///
    /// # Errors
    /// `NoMemory`: all is as it was, and none is added.
    pub fn append_all(&mut self, alloc: Global, roots: &[Imprint]) -> Result<(), NoMemory>
        requires { self.old.start + length self.old.roots + length roots.now ≤ 2 ^ 63 }
        ensures added { OnOk result (self.new ≡ record self.old { roots = self.old.roots ++ roots.now }) }
        ensures unchanged { OnErr result (self.new ≡ self.old) }
    {
        match &mut self.calendar {
            Some(calendar) => calendar.append_all(roots),
            None => {
                let mut calendar = Calendar::new(alloc, self.start)?;
                calendar.append_all(roots)?;
                self.calendar = Some(calendar);
                Ok(())
            }
        }
    }
}
