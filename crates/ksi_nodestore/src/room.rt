// Room for the record of an event's fact, before the event is taken.
ghost use Rattle.std.specs.Prelude.{◌≤◌, length, IfOk};
ghost use Rattle.ksi_aggtree.specs.Rounds.{most_items};
ghost use Rattle.ksi_corenode.specs.CoreState.{state_of};
ghost use Rattle.ksi_corenode.specs.Events.{event_second};
ghost use Rattle.ksi_nodestore.specs.Takes.{HasRecordFor, HasRoomFor};

use ksi_corenode::{Core, CoreEvent};
use ksi_disk::Record;
use ksi_imprint::{Compress, NoMemory};
use std::alloc::Global;

/// How many bytes the record of the event's fact has at most; none where the event stores nothing.
#[tactic(auto, using(crate::proofs::Rows::submission_none, crate::proofs::Rows::seal_room, crate::proofs::Rows::ballot_room, crate::proofs::Rows::receive_room, crate::proofs::Rows::tell_none, crate::proofs::Rows::respond_none))]
pub(crate) fn room_for<C: Compress>(core: &Core<C>, event: &CoreEvent) -> Option<u32>
    requires { length (state_of core.now (event_second event.now)).open_items ≤ most_items }
    ensures { HasRoomFor C.image core.now event.now result }
{
    match event {
        CoreEvent::Seal(second) => Some(13 + 103 * core.count_open(*second) as u32),
        CoreEvent::Ballot(_) => Some(50),
        CoreEvent::Receive(_, _, _) => Some(50),
        CoreEvent::Submission(_, _, _) => None,
        CoreEvent::Tell(_) => None,
        CoreEvent::Respond(_) => None,
        CoreEvent::Publish(_) => None,
    }
}

/// An empty record with room for the fact of an event; none where the event stores nothing.
pub(crate) fn record_for<C: Compress>(
    alloc: Global,
    core: &Core<C>,
    event: &CoreEvent,
) -> Result<Option<Record>, NoMemory>
    requires { length (state_of core.now (event_second event.now)).open_items ≤ most_items }
    ensures { IfOk result (λ found. HasRecordFor C.image core.now event.now found) }
{
    match room_for(core, event) {
        None => Ok(None),
        Some(room) => {
            let record_ = Record::with_room(alloc, room)?;
            Ok(Some(record_))
        }
    }
}
