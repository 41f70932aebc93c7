//! The laws. None of these functions does anything.
ghost use Rattle.std.specs.Prelude.{◌≡◌, ℕ, List, ◌++◌, length, Some};
ghost use Rattle.ksi_aggregator.specs.Rows.{RoundState};
ghost use Rattle.ksi_aggregator.specs.Renamed.{round_renamed};
ghost use Rattle.ksi_corenode.specs.SecondState.{SecondState};
ghost use Rattle.ksi_schedule.specs.declared.event.Event.{Event};
ghost use Rattle.ksi_schedule.specs.Plans.{IsPlan, PlanState};
ghost use Rattle.ksi_schedule.specs.Events.{AreEvents};
ghost use Rattle.ksi_world.specs.Histories.{WorldState, first_world, run};
ghost use Rattle.ksi_records.specs.Logs.{Deed, AggregatorsAgree, AreGiven, AggregatorAgrees, AreOutcomes, CoreAgrees, log_of_aggregator, log_of_core, renamed};
ghost use Rattle.ksi_laws_forgetting.specs.Forgotten.{AreForgotten};
ghost use Rattle.ksi_laws_forgetting.specs.Horizon.{AreFrom};
ghost use Rattle.ksi_laws_logs.specs.Logs.{Entry, ForgetfulAgrees, forgetful_after, deeds_of};
ghost use Rattle.ksi_laws_logs.specs.RoundLogs.{RoundEntry, RoundsAgree, round_deeds_of};

use ksi_laws_forgetting::cores::forgetting_is_not_noticed;
use ksi_laws_forgetting::rounds::dropped_rounds_are_not_missed;
use ksi_records::laws::{logs_are_one_history, logs_are_put_together};
use ksi_world::laws::{agreement, events_are_turns};

/// The log of a core that forgets is the log of a core that forgot nothing: to the same events that one gives the same answers and
/// messages, from all the seconds that it has.
pub fn forgetful_logs_are_logs()
    ensures { (image : List ℕ → List ℕ) (plan : PlanState) (j : ℕ) (seconds forgot : ℕ → SecondState) (entries : List Entry) → AreForgotten seconds forgot →
        ForgetfulAgrees image plan j forgot entries → CoreAgrees image plan j seconds (deeds_of j entries) }
{
    forgetting_is_not_noticed();
}

/// Two logs of one core are one log, if the second begins with the seconds that the core has after the first. So each may be
/// compared by itself, from the file that the core was started over.
pub fn logs_follow_one_another()
    ensures { (image : List ℕ → List ℕ) (plan : PlanState) (j : ℕ) (seconds : ℕ → SecondState) (one other : List Entry) →
        ForgetfulAgrees image plan j seconds one → ForgetfulAgrees image plan j (forgetful_after image plan j seconds one) other → ForgetfulAgrees image plan j seconds (one ++ other) }
{}

/// Logs of all nodes, whose cores forget now and then, are those of one history, if each message was sent before it is taken. The
/// history's world has all that the cores forgot: after the logs each core has the world's seconds, but for those that it forgot,
/// of which it has the roots. The same holds if requests are renamed (`renamed`), as in `logs_are_one_history`.
pub fn forgetful_logs_are_one_history()
    ensures history { (image : List ℕ → List ℕ) (plan : PlanState) (w : WorldState) (forgot : ℕ → ℕ → SecondState) (entries : ℕ → List Entry) (deeds : List Deed) →
        ((j : ℕ) → AreForgotten (w.seconds j) (forgot j)) → ((j : ℕ) → ForgetfulAgrees image plan j (forgot j) (entries j)) →
        ((j : ℕ) → log_of_core j deeds ≡ deeds_of j (entries j)) → AggregatorsAgree image plan w.rounds deeds → AreGiven plan w.wire (length w.requests) deeds →
        (events : List Event) × AreEvents plan events × AreOutcomes image plan w deeds events
        × ((j : ℕ) → AreForgotten ((run image plan w events).seconds j) (forgetful_after image plan j (forgot j) (entries j))) }
    ensures renamed { (image : List ℕ → List ℕ) (plan : PlanState) (name : ℕ → ℕ → ℕ) (w : WorldState) (rounds : ℕ → ℕ → RoundState) (forgot : ℕ → ℕ → SecondState) (entries : ℕ → List Entry) (deeds : List Deed) →
        ((k t : ℕ) → w.rounds k t ≡ round_renamed (name k) (rounds k t)) →
        ((j : ℕ) → AreForgotten (w.seconds j) (forgot j)) → ((j : ℕ) → ForgetfulAgrees image plan j (forgot j) (entries j)) →
        ((j : ℕ) → log_of_core j deeds ≡ deeds_of j (entries j)) → AggregatorsAgree image plan rounds deeds → AreGiven plan w.wire (length w.requests) (renamed name deeds) →
        (events : List Event) × AreEvents plan events × AreOutcomes image plan w (renamed name deeds) events
        × ((j : ℕ) → AreForgotten ((run image plan w events).seconds j) (forgetful_after image plan j (forgot j) (entries j))) }
{
    forgetful_logs_are_logs();
    forgetting_is_not_noticed();
    logs_are_put_together();
    logs_are_one_history();
    events_are_turns();
}

/// So two cores that hold a root for a second hold the same, whatever they forgot.
pub fn forgetful_cores_agree()
    ensures { (image : List ℕ → List ℕ) (plan : PlanState) (entries : ℕ → List Entry) (deeds : List Deed) → IsPlan plan →
        ((j : ℕ) → ForgetfulAgrees image plan j ((first_world plan).seconds j) (entries j)) → ((j : ℕ) → log_of_core j deeds ≡ deeds_of j (entries j)) →
        AggregatorsAgree image plan (first_world plan).rounds deeds → AreGiven plan (first_world plan).wire (length (first_world plan).requests) deeds →
        (one other second : ℕ) (root found : List ℕ) → (forgetful_after image plan one ((first_world plan).seconds one) (entries one) second).vote.held ≡ Some root →
        (forgetful_after image plan other ((first_world plan).seconds other) (entries other) second).vote.held ≡ Some found → root ≡ found }
{
    forgetful_logs_are_one_history();
    forgetting_is_not_noticed();
    agreement();
}

/// The log of an aggregator that drops rounds is the log of one that drops none.
pub fn forgetful_round_logs_are_logs()
    ensures { (image : List ℕ → List ℕ) (plan : PlanState) (k horizon : ℕ) (rounds recent : ℕ → RoundState) (entries : List RoundEntry) → AreFrom horizon rounds recent →
        RoundsAgree image plan k horizon recent entries → AggregatorAgrees image plan k rounds (round_deeds_of k entries) }
{
    dropped_rounds_are_not_missed();
}

/// Logs of all nodes, whose cores forget and whose aggregators drop rounds now and then, are those of one history.
pub fn all_forgetful_logs_are_one_history()
    ensures { (image : List ℕ → List ℕ) (plan : PlanState) (name : ℕ → ℕ → ℕ) (w : WorldState) (rounds : ℕ → ℕ → RoundState) (forgot : ℕ → ℕ → SecondState) (entries : ℕ → List Entry) (horizon : ℕ → ℕ)
        (recent : ℕ → ℕ → RoundState) (round_entries : ℕ → List RoundEntry) (deeds : List Deed) → ((k t : ℕ) → w.rounds k t ≡ round_renamed (name k) (rounds k t)) →
        ((j : ℕ) → AreForgotten (w.seconds j) (forgot j)) → ((j : ℕ) → ForgetfulAgrees image plan j (forgot j) (entries j)) → ((j : ℕ) → log_of_core j deeds ≡ deeds_of j (entries j)) →
        ((k : ℕ) → AreFrom (horizon k) (rounds k) (recent k)) → ((k : ℕ) → RoundsAgree image plan k (horizon k) (recent k) (round_entries k)) →
        ((k : ℕ) → log_of_aggregator k deeds ≡ round_deeds_of k (round_entries k)) → AreGiven plan w.wire (length w.requests) (renamed name deeds) →
        (events : List Event) × AreEvents plan events × AreOutcomes image plan w (renamed name deeds) events
        × ((j : ℕ) → AreForgotten ((run image plan w events).seconds j) (forgetful_after image plan j (forgot j) (entries j))) }
{
    forgetful_round_logs_are_logs();
    logs_are_put_together();
    forgetful_logs_are_one_history();
}
