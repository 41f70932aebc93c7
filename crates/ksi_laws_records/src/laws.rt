//! The laws of records and logs of live runs. None of these functions does anything.
ghost use Rattle.std.specs.Prelude.{◌≡◌, ◌≤◌, ◌++◌, ℕ, List, Some, length, slice_get};
ghost use Rattle.ksi_imprint.specs.Imprints.{IsImprint, imprint_of};
ghost use Rattle.ksi_tlv.specs.Spelling.{AreBytes};
ghost use Rattle.ksi_schedule.specs.Events.{AreEvents, AskForBytes, AskForImprints, History};
ghost use Rattle.ksi_schedule.specs.Pieces.{Text};
ghost use Rattle.ksi_schedule.specs.Plans.{IsPlan, PlanState};
ghost use Rattle.ksi_schedule.specs.declared.actor.Actor.{Actor};
ghost use Rattle.ksi_schedule.specs.declared.event.Event.{Event};
ghost use Rattle.ksi_world.specs.declared.message.Message.{Message};
ghost use Rattle.ksi_world.specs.declared.outcome.Asked.{Asked};
ghost use Rattle.ksi_world.specs.Histories.{after, world_of};
ghost use Rattle.ksi_world.specs.Records.{issued_of};
ghost use Rattle.ksi_records.specs.declared.verdict.Counts.{Counts};
ghost use Rattle.ksi_records.specs.declared.verdict.Retraced.TheVariants.{Agrees};
ghost use Rattle.ksi_records.specs.Histories.{HasHistory};
ghost use Rattle.ksi_records.specs.Logs.{Deed, renamed};
ghost use Rattle.ksi_replay.specs.HoldsOver.{HoldsOver};
ghost use Rattle.ksi_laws_records.specs.Logged.{FitTogether, IsHistoryOf};
ghost use Rattle.ksi_laws_records.specs.Messages.{FitsLine, HasSeven, IsTakenAs, content_line};
ghost use Rattle.ksi_laws_records.specs.Recorded.{RecordHolds};

use ksi_aggregator::laws::settled_rounds_stay;
use ksi_aggtree::chains::laws::levels_rise;
use ksi_aggtree::laws::{metas_are_even, one_chain, one_round};
use ksi_imprint::Imprint;
use ksi_imprint::laws::hashes_are_bytes;
use ksi_records::laws::{logs_are_one_history, logs_are_put_together};
use ksi_replay::laws::all_holds;
use ksi_signature::laws::{issued_is_bytes, issued_is_signature};
use ksi_split::trees::one_path;
use ksi_wire::laws::printed_lines_are_taken;
use ksi_world::laws::rounds_are_turns;

/// What is issued of a request stays issued, whatever happens later. An accepted request stays accepted, under its number.
pub fn issued_stays()
    ensures request { (image : List ℕ → List ℕ) (plan : PlanState) (before later : List Event) (number : ℕ) (asked : Asked) →
        slice_get (after image plan before).requests number ≡ Some asked → slice_get (after image plan (before ++ later)).requests number ≡ Some asked }
    ensures issued { (image : List ℕ → List ℕ) (plan : PlanState) (before later : List Event) (number : ℕ) (text : List ℕ) →
        issued_of image (after image plan before) number ≡ Some text → issued_of image (after image plan (before ++ later)) number ≡ Some text }
{
    settled_rounds_stay();
    rounds_are_turns();
}

/// If the record of a run agrees, everything that holds over every history holds of the run, and each signature that the record
/// hands out lasts: it is extended to each covered second and then accepted, and an audit shows its hash, or has a collision.
/// `HasHistory` is the clause `history` of `retrace`. SHA-256 needs no premise (`sha`).
pub fn agreeing_records_hold()
    ensures any { (image : List ℕ → List ℕ) (plan : PlanState) (text : Text) (counts : Counts) → ((bytes : List ℕ) → IsImprint (image bytes)) → ((bytes : List ℕ) → AreBytes (image bytes)) →
        HasHistory image plan text (Agrees counts) → RecordHolds image plan text counts }
    ensures sha { (plan : PlanState) (text : Text) (counts : Counts) → HasHistory imprint_of plan text (Agrees counts) → RecordHolds imprint_of plan text counts }
{
    all_holds();
    hashes_are_bytes();
    issued_stays();
}

/// If the logs of all nodes agree and fit together, their entries are a history that follows the rules, so everything that holds
/// over every history holds of it. `IsLog` is the clause `log` of `node::retrace`. SHA-256 needs no premise (`sha`).
pub fn agreeing_logs_hold()
    ensures history { (image : List ℕ → List ℕ) (plan : PlanState) (log_of : Actor → Text) (name : ℕ → ℕ → ℕ) (deeds : List Deed) → IsPlan plan →
        FitTogether image plan log_of name deeds → (history : History) × IsHistoryOf image plan (renamed name deeds) history }
    ensures any { (image : List ℕ → List ℕ) (plan : PlanState) (deeds : List Deed) (history : History) → ((bytes : List ℕ) → IsImprint (image bytes)) → ((bytes : List ℕ) → AreBytes (image bytes)) →
        IsHistoryOf image plan deeds history → HoldsOver image history }
    ensures sha { (plan : PlanState) (deeds : List Deed) (history : History) → IsHistoryOf imprint_of plan deeds history → HoldsOver imprint_of history }
{
    all_holds();
    hashes_are_bytes();
    logs_are_one_history();
    logs_are_put_together();
}

/// Each message of a history is a line that its addressee takes, as just this message: the line that follows the addressee in the
/// block of the sender. It is no longer than the lines that a node reads (`short`). A response with more than seven chains is taken
/// by no line (`FitsLine`); no history has one if at most seven aggregators are above one another (`seven`). SHA-256 needs no
/// premise (`sha`).
pub fn messages_are_taken()
    ensures any { (image : List ℕ → List ℕ) (history : History) → ((bytes : List ℕ) → IsImprint (image bytes)) → ((bytes : List ℕ) → AreBytes (image bytes)) →
        IsPlan history.plan → AreEvents history.plan history.events → AskForImprints history.events → AskForBytes history.events →
        (number : ℕ) (m : Message) → slice_get (world_of image history).wire number ≡ Some m → FitsLine m.content → IsTakenAs history.plan m.sender m.addressee m.second m.content }
    ensures seven { (image : List ℕ → List ℕ) (history : History) → ((bytes : List ℕ) → IsImprint (image bytes)) → ((bytes : List ℕ) → AreBytes (image bytes)) →
        IsPlan history.plan → AreEvents history.plan history.events → AskForImprints history.events → AskForBytes history.events → HasSeven history.plan →
        (number : ℕ) (m : Message) → slice_get (world_of image history).wire number ≡ Some m → IsTakenAs history.plan m.sender m.addressee m.second m.content }
    ensures short { (image : List ℕ → List ℕ) (history : History) → ((bytes : List ℕ) → IsImprint (image bytes)) → ((bytes : List ℕ) → AreBytes (image bytes)) →
        IsPlan history.plan → AreEvents history.plan history.events → AskForImprints history.events → AskForBytes history.events →
        (number : ℕ) (m : Message) → slice_get (world_of image history).wire number ≡ Some m → length (content_line m.sender m.second m.content) ≤ 32000 }
    ensures sha { (history : History) → IsPlan history.plan → AreEvents history.plan history.events → AskForImprints history.events → AskForBytes history.events →
        (number : ℕ) (m : Message) → slice_get (world_of imprint_of history).wire number ≡ Some m → FitsLine m.content → IsTakenAs history.plan m.sender m.addressee m.second m.content }
{
    one_round();
    one_chain();
    metas_are_even();
    levels_rise();
    one_path::<Imprint>();
    issued_is_signature();
    issued_is_bytes();
    printed_lines_are_taken();
    hashes_are_bytes();
}
