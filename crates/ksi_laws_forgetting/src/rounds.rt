//! Aggregators that drop old rounds. None of these functions does anything.
ghost use Rattle.std.specs.Prelude.{◌≡◌, ◌≤◌, ℕ, Bool, List, IsTrue};
ghost use Rattle.ksi_aggregator.specs.declared.event.RoundEvent.{RoundEvent};
ghost use Rattle.ksi_aggregator.specs.declared.fact.Fact.{Fact};
ghost use Rattle.ksi_aggregator.specs.Events.{event_second, MayTake};
ghost use Rattle.ksi_aggregator.specs.Issuing.{IsIssued, IsIssuedAt};
ghost use Rattle.ksi_aggregator.specs.Rounds.{AggregatorState, rounds_of};
ghost use Rattle.ksi_aggregator.specs.Rows.{RoundState, round_restarted};
ghost use Rattle.ksi_aggregator.specs.Lawful.{AreLawful};
ghost use Rattle.ksi_aggregator.specs.Restored.{IsOfFacts};
ghost use Rattle.ksi_laws_forgetting.specs.Horizon.{AreFrom, AreTheSame, is_taken, left_from, left_of, rounds_after};

use ksi_aggregator::laws::facts_one_by_one;

/// The rounds before the horizon are not missed. An event that the aggregator takes reaches the same round as without the
/// horizon, so it has the same answer, fact and messages. This still holds after the event, after a restart, after any number of
/// events, and with a later horizon. The aggregator issues no other signatures, and from the horizon on all of them.
pub fn dropped_rounds_are_not_missed()
    ensures same { (before : ℕ) (rounds recent : ℕ → RoundState) (event : RoundEvent) → AreFrom before rounds recent → IsTrue (is_taken before event) → recent (event_second event) ≡ rounds (event_second event) }
    ensures may { (before : ℕ) (rounds recent : ℕ → RoundState) (event : RoundEvent) → AreFrom before rounds recent → IsTrue (is_taken before event) → MayTake rounds event → MayTake recent event }
    ensures after { (image : List ℕ → List ℕ) (before : ℕ) (rounds recent : ℕ → RoundState) (event : RoundEvent) → AreFrom before rounds recent → IsTrue (is_taken before event) →
        AreFrom before (rounds_after image rounds event) (rounds_after image recent event) }
    ensures restart { (before : ℕ) (rounds recent : ℕ → RoundState) → AreFrom before rounds recent → AreFrom before (λ t. round_restarted (rounds t)) (λ t. round_restarted (recent t)) }
    ensures events { (image : List ℕ → List ℕ) (before : ℕ) (rounds recent : ℕ → RoundState) (list : List RoundEvent) → AreFrom before rounds recent → AreTheSame image before rounds recent list }
    ensures again { (before later : ℕ) (rounds recent more : ℕ → RoundState) → before ≤ later → AreFrom before rounds recent → AreFrom later recent more → AreFrom later rounds more }
    ensures no_other { (image : List ℕ → List ℕ) (before : ℕ) (rounds recent : ℕ → RoundState) (number : ℕ) (bytes : List ℕ) → AreFrom before rounds recent → IsIssued image recent number bytes → IsIssued image rounds number bytes }
    ensures issued { (image : List ℕ → List ℕ) (before : ℕ) (rounds recent : ℕ → RoundState) (number second k : ℕ) (bytes : List ℕ) → AreFrom before rounds recent → before ≤ second →
        IsIssuedAt image (rounds second) number second k bytes → IsIssuedAt image (recent second) number second k bytes }
{}

/// The facts left of valid facts are valid, whichever seconds are kept. An aggregator of the facts from the horizon on has the
/// rounds of an aggregator of all facts from there on.
pub fn round_facts_left_are_valid()
    ensures valid { (kept : ℕ → Bool) (facts : List Fact) → AreLawful facts → AreLawful (left_of kept facts) }
    ensures rounds { (me before : ℕ) (facts : List Fact) (whole other : AggregatorState) → AreLawful facts → IsOfFacts me facts whole → IsOfFacts me (left_from before facts) other →
        AreFrom before (rounds_of whole) (rounds_of other) }
{
    facts_one_by_one();
}
