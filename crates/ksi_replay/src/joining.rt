// What holds over the history of a world, told to the proofs. These functions only read.
ghost use Rattle.std.specs.Prelude.{◌≡◌};
ghost use Rattle.ksi_imprint.specs.Imprints.{imprint_of};
ghost use Rattle.ksi_schedule.specs.Events.{History};
ghost use Rattle.ksi_schedule.specs.Schedules.{IsHistory};
ghost use Rattle.ksi_replay.specs.Journals.{journal_of};
ghost use Rattle.ksi_replay.specs.Drill.{tally_of};

use crate::asking::asked_are_imprints;
use crate::laws::{extensions_are_bytes, history_has_a_journal, history_is_joined};
use ksi_imprint::Sha;
use ksi_imprint::laws::hashes_are_bytes;
use ksi_journal::laws::calendar_is_covered;
use ksi_signature::laws::signature_is_read;
use ksi_world::World;
use ksi_world::laws::all_issued;

/// As many signatures are accepted as were issued, in every history.
pub(crate) fn all_are_accepted()
    ensures { (history : History) → IsHistory history →
        (tally_of imprint_of history (journal_of imprint_of history)).accepted ≡ (tally_of imprint_of history (journal_of imprint_of history)).issued }
{
    all_issued();
    calendar_is_covered();
    hashes_are_bytes();
    history_has_a_journal();
    history_is_joined();
    extensions_are_bytes();
    signature_is_read();
}

/// The events of a world follow the rules, as its types keep it.
pub(crate) fn follows_the_rules(world: &World<Sha>)
    ensures { IsHistory world.now }
{
    let _plan = world.plan();
    let events = world.events();
    let _count = events.len();
    asked_are_imprints(events);
}
