ghost use Rattle.std.specs.Prelude.{◌≡◌};
ghost use Rattle.ksi_split.specs.Parts.{second_at};
ghost use Rattle.ksi_calendar.specs.Sides.{sides_from_top};
ghost use Rattle.ksi_signature.specs.PartsSeen.{calendar_seen};
ghost use Rattle.ksi_signature.specs.Values.{Calendar};
ghost use Rattle.ksi_verifier.specs.Lent.{calendar_of};
ghost use Rattle.ksi_verifier.specs.Verdict.{chain_root};

use crate::lent::CalendarPart;
use ksi_calendar::climb_calendar;
use ksi_imprint::{Compress, Imprint};
use ksi_signature::CalendarView;
use ksi_split::ShapeFault;

/// A calendar chain as checks see it, whoever owns its parts.
pub(crate) trait AnyCalendar {
    /// The chain's times, input hash and links.
    ghost plain: { Self → Calendar };

    /// The last second of the tree that the links lead to the root of.
    fn publication(&self) -> u64
        ensures { result ≡ (plain self.now).publication };

    /// The second that it states.
    fn time(&self) -> u64
        ensures { result ≡ (plain self.now).time };

    /// What is stated as the root of that second.
    fn input(&self) -> Imprint
        ensures { result ≡ (plain self.now).input };

    /// The second that the links' sides name among those from 0 to the publication time.
    ///
    /// # Errors
    /// As [`ksi_calendar::second`] has them.
    fn second(&self) -> Result<u64, ShapeFault>
        ensures { result ≡ second_at (plain self.now).publication (sides_from_top (plain self.now).links) };

    /// The imprint that the links lead to from the input hash.
    fn climb<C: Compress>(&self) -> Imprint
        ensures { result ≡ chain_root C.image (plain self.now) };
}

impl AnyCalendar for CalendarPart<'_> {
    ghost plain = { calendar_of };

    fn publication(&self) -> u64 {
        self.publication
    }

    fn time(&self) -> u64 {
        self.time
    }

    fn input(&self) -> Imprint {
        self.input
    }

    fn second(&self) -> Result<u64, ShapeFault> {
        ksi_calendar::second(self.publication, self.links)
    }

    fn climb<C: Compress>(&self) -> Imprint {
        climb_calendar::<C>(self.input, self.links)
    }
}

impl AnyCalendar for CalendarView<'_> {
    ghost plain = { calendar_seen };

    fn publication(&self) -> u64 {
        self.publication()
    }

    fn time(&self) -> u64 {
        self.time()
    }

    fn input(&self) -> Imprint {
        self.input()
    }

    fn second(&self) -> Result<u64, ShapeFault> {
        self.second()
    }

    fn climb<C: Compress>(&self) -> Imprint {
        self.climb::<C>()
    }
}
