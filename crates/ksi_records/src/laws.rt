//! What records of runs show, and what logs of nodes show together. These functions do nothing.
ghost use Rattle.std.specs.Prelude.{◌≡◌, ℕ, List, length};
ghost use Rattle.ksi_corenode.specs.declared.event.CoreEvent.{CoreEvent};
ghost use Rattle.ksi_corenode.specs.CoreState.{CoreState, state_of};
ghost use Rattle.ksi_corenode.specs.Events.{core_row};
ghost use Rattle.ksi_aggregator.specs.Rows.{RoundState};
ghost use Rattle.ksi_aggregator.specs.Renamed.{round_renamed};
ghost use Rattle.ksi_schedule.specs.declared.event.Event.{Event};
ghost use Rattle.ksi_schedule.specs.Pieces.{Text};
ghost use Rattle.ksi_schedule.specs.Plans.{IsPlan, PlanState, core_plan_of};
ghost use Rattle.ksi_schedule.specs.Events.{AreEvents};
ghost use Rattle.ksi_world.specs.Histories.{WorldState};
ghost use Rattle.ksi_corenode.specs.SecondState.{SecondState};
ghost use Rattle.ksi_records.specs.declared.verdict.Retraced.{Retraced};
ghost use Rattle.ksi_records.specs.declared.version.Version.{Version};
ghost use Rattle.ksi_records.specs.Entries as record_entries;
ghost use Rattle.ksi_records.specs.Histories.{HasHistory};
ghost use Rattle.ksi_records.specs.Verdicts.{IsVerdict};
ghost use Rattle.ksi_records.specs.Logs.{Deed, AggregatorAgrees, AggregatorsAgree, AreGiven, AreOutcomes, CoreAgrees, CoresAgree, core_turn, log_of_aggregator, log_of_core, renamed};

use ksi_aggregator::laws::numbers_are_names;

/// Logs of all nodes in one order, in which each message was said before it is taken, and each log agrees with the rows of
/// its node alone, from what the node has of a world. Then there are events of the plan, one for each entry. The world
/// has at each place just what the log has: the answer and the messages. A world of the plan at the
/// beginning is `first_world plan`; one at a cut is that after the events before it.
///
/// A world numbers requests by the count of those that were accepted before. A live aggregator does not know that count: its
/// numbers are renamed to these, those of each aggregator by a renaming of its own, so two aggregators may use one number. The
/// same holds of the renamed logs (`renamed`). A core's row is that of its seconds (`row`).
pub fn logs_are_one_history()
    ensures history { (image : List ℕ → List ℕ) (plan : PlanState) (w : WorldState) (deeds : List Deed) →
        CoresAgree image plan w.seconds deeds → AggregatorsAgree image plan w.rounds deeds → AreGiven plan w.wire (length w.requests) deeds →
        (events : List Event) × AreEvents plan events × AreOutcomes image plan w deeds events }
    ensures renamed { (image : List ℕ → List ℕ) (plan : PlanState) (name : ℕ → ℕ → ℕ) (w : WorldState) (rounds : ℕ → ℕ → RoundState) (deeds : List Deed) →
        ((k t : ℕ) → w.rounds k t ≡ round_renamed (name k) (rounds k t)) →
        CoresAgree image plan w.seconds deeds → AggregatorsAgree image plan rounds deeds → AreGiven plan w.wire (length w.requests) (renamed name deeds) →
        (events : List Event) × AreEvents plan events × AreOutcomes image plan w (renamed name deeds) events }
    ensures row { (image : List ℕ → List ℕ) (plan : PlanState) (it : CoreState) (event : CoreEvent) → it.plan ≡ core_plan_of plan → it.start ≡ plan.start →
        core_row image it event ≡ core_turn image plan it.me (state_of it) event }
{
    numbers_are_names();
}

/// Entries of all nodes in one order agree with the rows of each node alone, if the log of each node does by itself. So logs
/// that were compared one by one may be put together in any order.
pub fn logs_are_put_together()
    ensures cores { (image : List ℕ → List ℕ) (plan : PlanState) (seconds : ℕ → ℕ → SecondState) (deeds : List Deed) →
        ((j : ℕ) → CoreAgrees image plan j (seconds j) (log_of_core j deeds)) → CoresAgree image plan seconds deeds }
    ensures aggregators { (image : List ℕ → List ℕ) (plan : PlanState) (rounds : ℕ → ℕ → RoundState) (deeds : List Deed) →
        ((k : ℕ) → AggregatorAgrees image plan k (rounds k) (log_of_aggregator k deeds)) → AggregatorsAgree image plan rounds deeds }
{}

/// If the record of a run agrees, the run is a history: the text is the record of a history of the plan, one that follows the
/// rules. So everything that is proved of every history holds of the run (`ksi_laws_records`).
pub fn agreeing_records_are_histories()
    ensures { (image : List ℕ → List ℕ) (plan : PlanState) (version : Version) (text : Text) (entries : List record_entries.Entry) (verdict : Retraced) → IsPlan plan →
        IsVerdict image plan version text entries verdict → HasHistory image plan text verdict }
{}
