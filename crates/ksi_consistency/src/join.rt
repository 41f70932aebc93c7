ghost use Rattle.std.specs.Prelude.{◌≡◌};
ghost use Rattle.ksi_calendar.specs.Climbing.{calendar_join};

use ksi_imprint::{Compress, Imprint};

/// The join of two parts of a calendar, whose level byte is 0xff.
pub(crate) fn join<C: Compress>(left: &Imprint, right: &Imprint) -> Imprint
    ensures { result ≡ calendar_join C.image left.now right.now }
{
    C::join(left.bytes(), right.bytes(), 0xff)
}
