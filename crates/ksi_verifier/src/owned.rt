// The parts of an owned signature, lent.
ghost use Rattle.std.specs.Prelude.{◌≡◌, option_map};
ghost use Rattle.ksi_verifier.specs.Lent.{calendar_of, record_of};

use crate::lent::{CalendarPart, RecordPart};
use ksi_signature::{CalendarChain, PublicationRecord};

/// The parts of a calendar chain, lent.
pub fn calendar_part(calendar: &Option<CalendarChain>) -> Option<CalendarPart<'_>>
    ensures { option_map calendar_of result ≡ calendar.now }
{
    match calendar {
        None => None,
        Some(calendar) => Some(CalendarPart {
            publication: calendar.publication,
            time: calendar.time,
            input: calendar.input,
            links: calendar.links.as_slice(),
        }),
    }
}

/// What a publication record states.
pub(crate) fn record_part(published: &Option<PublicationRecord>) -> Option<RecordPart>
    ensures { result ≡ option_map record_of published.now }
{
    match published {
        None => None,
        Some(published) => Some(RecordPart {
            time: published.time,
            hash: published.hash,
        }),
    }
}
