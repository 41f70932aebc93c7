ghost use Rattle.ksi_calendar.specs.Climbing.{calendar_join};

use ksi_imprint::{Compress, Imprint};
use ksi_split::Joins;
use std::marker::PhantomData;

/// How two parts of the calendar are joined: at the level byte 0xff.
pub(crate) struct CalendarJoin<C: Compress>(PhantomData<C>);

impl<C: Compress> Joins<Imprint> for CalendarJoin<C> {
    ghost joined = { calendar_join C.image };

    fn join(left: &Imprint, right: &Imprint) -> Imprint {
        C::join(left.bytes(), right.bytes(), 0xff)
    }
}
