// The record of an event's fact, made before the event is taken.
ghost use Rattle.std.specs.Prelude.{◌≡◌, ◌<◌, ◌^◌, length, IfOk};
ghost use Rattle.ksi_aggregator.specs.Events.{event_second};
ghost use Rattle.ksi_aggregator.specs.Rounds.{rounds_of};
ghost use Rattle.ksi_roundstore.specs.Takes.{HasRecordFor};

use crate::writing::{closed_text, line_text};
use ksi_aggregator::{Aggregator, RoundEvent};
use ksi_disk::Record;
use ksi_imprint::{Compress, NoMemory};
use std::alloc::Global;

/// A record with the text of the event's fact, so that nothing more is wanted once the event is taken; none where the event
/// stores nothing.
///
/// # Errors
/// `NoMemory`, also where the text has 2^32 bytes or more.
#[tactic(auto, using(crate::proofs::Rows::request_none, crate::proofs::Rows::submission_none, crate::proofs::Rows::close_text, crate::proofs::Rows::response_text))]
pub(crate) fn record_for<C: Compress>(
    alloc: Global,
    aggregator: &Aggregator<C>,
    event: &RoundEvent,
) -> Result<Option<Record>, NoMemory>
    requires early { event_second event.now < 2 ^ 63 }
    ensures { IfOk result (HasRecordFor C.image (rounds_of aggregator.now (event_second event.now)) event.now) }
{
    match event {
        RoundEvent::Close(second) => {
            let items = aggregator.open_items(*second)?;
            let text = closed_text(alloc, *second, &items)?;
            Ok(Some(record_of(alloc, &text)?))
        }
        RoundEvent::Response(_, _) => {
            let text = line_text(alloc, event)?;
            Ok(Some(record_of(alloc, &text)?))
        }
        RoundEvent::Request(_, _, _, _) => Ok(None),
        RoundEvent::Submission(_, _, _) => Ok(None),
    }
}

/// The record of a text.
fn record_of(alloc: Global, text: &[u8]) -> Result<Record, NoMemory>
    ensures content { IfOk result (λ record_. record_.content ≡ text.now) }
    ensures size { IfOk result (λ record_. length record_.content < 2 ^ 32) }
{
    if text.len() >= 1 << 32 {
        return Err(NoMemory);
    }
    let mut record_ = Record::with_room(alloc, text.len() as u32)?;
    record_.put(text);
    Ok(record_)
}
