ghost use Rattle.std.specs.Prelude.{◌<◌, ◌^◌};

use crate::deep::deep_places;
use ksi_beside::{KeptTree, NodeParts, OtherPart, Place};
use ksi_calendar::Calendar;
use ksi_imprint::Compress;
use ksi_split::Side;

/// The kept calendar of the seconds from 0 to one.
#[derive(Drop)]
pub(crate) struct CalendarTo<'a, C: Compress> {
    pub(crate) calendar: &'a Calendar<C>,
    pub(crate) last: u64,
    ghost early: { last < 2 ^ 63 },
}

impl<C: Compress> KeptTree for CalendarTo<'_, C> {
    ghost use Rattle.ksi_auditor.specs.Kept.{calendar_text};

    ghost text = { λ tree. calendar_text C.image tree.calendar.now tree.last };

    fn parts(&self, place: &Place) -> Option<NodeParts> {
        deep_places();
        if place.depth() >= 63 {
            return None;
        }
        let left = self
            .calendar
            .node(self.last, place.below(Side::Left).way().as_slice())?;
        let right = self
            .calendar
            .node(self.last, place.below(Side::Right).way().as_slice())?;
        Some(NodeParts {
            left,
            other: OtherPart::Imprint(right),
            level: 0xff,
        })
    }
}
