// What the headline says of a replay: what holds over every history.
ghost use Rattle.std.specs.Prelude.{ℕ, List};
ghost use Rattle.ksi_imprint.specs.Imprints.{imprint_of};
ghost use Rattle.ksi_journal.specs.Journal.{IsJournal};
ghost use Rattle.ksi_journal.specs.File.{IsJournalFile};
ghost use Rattle.ksi_journal.specs.Written.{journal_text};
ghost use Rattle.ksi_schedule.specs.Events.{History};
ghost use Rattle.ksi_schedule.specs.Spelled.{IsScheduleText};
ghost use Rattle.ksi_replay.specs.Journals.{journal_of};
ghost use Rattle.ksi_replay.specs.HoldsOver.{HoldsOver};

use ksi_journal::laws::written_is_journal;
use ksi_replay::laws::all_holds;

/// What holds over every history that a schedule spells.
pub(crate) fn histories_hold()
    ensures holds { (text : List ℕ) (history : History) → IsScheduleText text history → HoldsOver imprint_of history }
    ensures again { (history : History) → IsJournal imprint_of (journal_of imprint_of history) →
        IsJournalFile imprint_of (journal_text (journal_of imprint_of history)) (journal_of imprint_of history) }
{
    all_holds();
    written_is_journal();
}
