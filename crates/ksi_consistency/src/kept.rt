ghost use Rattle.std.specs.Prelude.{IsTrue};
ghost use Rattle.ksi_calendar.specs.Calendar.{is_covered};

use crate::halves::Halves;
use ksi_calendar::Calendar;
use ksi_calendar::laws::one_calendar;
use ksi_imprint::{Compress, Imprint};
use ksi_split::laws::one_split;
use ksi_split::{Side, high_bit};

/// The kept calendar of the seconds from 0 to one that it covers.
#[derive(Drop)]
pub(crate) struct CalendarTo<'a, C: Compress> {
    pub(crate) calendar: &'a Calendar<C>,
    pub(crate) last: u64,
    ghost covered: { IsTrue (is_covered calendar.now last) },
}

impl<C: Compress> CalendarTo<'_, C> {
    ghost use Rattle.std.specs.Prelude.{◌≡◌, ◌≤◌, ◌<◌, ◌+◌, ◌-◌};
    ghost use Rattle.ksi_split.specs.Powers.{split_of};
    ghost use Rattle.ksi_calendar.specs.Calendar.{calendar_leaf, calendar_root, calendar_tree};
    ghost use Rattle.ksi_consistency.specs.Parts.{IsPart};
    ghost use Rattle.ksi_consistency.specs.Compared.{halves_text};

    /// The tree over the leaves of a part, from `first` to the one that is `last` behind it.
    pub(crate) fn part(&self, first: u64, last: u64) -> Imprint
        requires { IsPart (self.now.last + 1) first (last + 1) }
        ensures { result ≡ calendar_tree C.image self.now.calendar.now first (last + 1) }
    {
        one_split();
        let mut sides = [Side::Left; 64];
        let mut depth = 0;
        // the part that these sides lead to: its first leaf, and its last one behind that
        let mut at = 0;
        let mut rest = self.last;
        while rest > last {
            let half = high_bit(rest);
            if first - at < half {
                sides[depth] = Side::Left;
                rest = half - 1;
            } else {
                sides[depth] = Side::Right;
                at += half;
                rest -= half;
            }
            depth += 1;
        }
        match self.calendar.node(self.last, &sides[..depth]) {
            Some(imprint) => imprint,
            None => Imprint::ZERO,
        }
    }

    /// The root of all seconds to the last.
    pub(crate) fn root(&self) -> Imprint
        ensures { result ≡ calendar_root C.image self.now.calendar.now self.now.last }
    {
        self.part(0, self.last)
    }

    /// The leaf of a second.
    pub(crate) fn leaf(&self, second: u64) -> Imprint
        requires { second ≤ self.now.last }
        ensures { result ≡ calendar_leaf self.now.calendar.now second }
    {
        one_split();
        one_calendar();
        self.part(second, 0)
    }

    /// Both parts that a part of more than one leaf is joined of.
    pub(crate) fn halves(&self, first: u64, last: u64) -> Halves
        requires some { 0 < last }
        requires part { IsPart (self.now.last + 1) first (last + 1) }
        ensures left { result.left ≡ calendar_tree C.image self.now.calendar.now first (split_of (last + 1)) }
        ensures right { result.right ≡ calendar_tree C.image self.now.calendar.now
            (first + split_of (last + 1)) (last + 1 - split_of (last + 1)) }
        ensures joined { C.image (halves_text result) ≡ calendar_tree C.image self.now.calendar.now first (last + 1) }
    {
        one_split();
        one_calendar();
        let half = high_bit(last);
        Halves {
            left: self.part(first, half - 1),
            right: self.part(first + half, last - half),
        }
    }
}
