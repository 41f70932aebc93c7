//! The laws: of steps and their facts, and of facts in their order. None of these functions does anything.
ghost use Rattle.std.specs.Prelude.{◌≡◌, ℕ, List, Option, ◌<◌, ◌^◌, ◌++◌, ◌∷◌, [], IfSome, Some, None};
ghost use Rattle.ksi_aggtree.specs.declared.item.Item.{Item};
ghost use Rattle.ksi_signature.specs.declared.above.Above.{Above};
ghost use Rattle.ksi_aggregator.specs.declared.step.Step.{Step};
ghost use Rattle.ksi_aggregator.specs.Facts.{AnsweredLast, Stores, stable_round, with_fact, with_what};
ghost use Rattle.ksi_aggregator.specs.Rows.{RoundState, RoundTurn, round_request, round_submission, round_close, round_response, round_restarted, fresh_round, round_still};
ghost use Rattle.ksi_aggregator.specs.Rounds.{IsTurn, AggregatorState, rounds_of, items_in, fact_of, SameRounds, ChangesOnly};
ghost use Rattle.ksi_aggtree.specs.declared.entries.Entry.{Entry};
ghost use Rattle.ksi_aggtree.specs.Entries.{items_of};
ghost use Rattle.ksi_aggregator.specs.declared.event.RoundEvent.{RoundEvent};
ghost use Rattle.ksi_aggregator.specs.declared.fact.Fact.{Fact};
ghost use Rattle.ksi_aggregator.specs.Events.{event_second, MayTake, round_row};
ghost use Rattle.ksi_aggregator.specs.Refusals.{AwaitsResponse};
ghost use Rattle.ksi_aggregator.specs.Lawful.{stored_by, with_new, IsLawful, AreLawful, AreApart};
ghost use Rattle.ksi_aggregator.specs.Restored.{restored, IsOfFacts, IsWell, HasFacts};
ghost use Rattle.ksi_aggregator.specs.Renamed.{IsOneToOne, entries_renamed, round_renamed, event_renamed, turn_renamed};
ghost use Rattle.ksi_aggregator.specs.Settled.{IsSettled, settled_answer};
ghost use Rattle.ksi_aggregator.specs.declared.event.RoundEvent.TheVariants as events;

/// Each row stores its fact: the stable part of the round after it is the one before with that fact. A restart leaves the
/// stable part, where no response was kept before the round was closed.
pub fn rows_store_their_facts()
    ensures request { (number : ℕ) (imprint : List ℕ) (name : Option (List ℕ)) (r : RoundState) → Stores r (round_request number imprint name r) }
    ensures submission { (from : ℕ) (item : Item) (r : RoundState) → Stores r (round_submission from item r) }
    ensures close { (image : List ℕ → List ℕ) (r : RoundState) → Stores r (round_close image r) }
    ensures response { (image : List ℕ → List ℕ) (above : Above) (r : RoundState) → Stores r (round_response image above r) }
    ensures restart { (r : RoundState) → AnsweredLast r → stable_round (round_restarted r) ≡ stable_round r }
{}

/// So does each step: the stable part of every round after a call is the one before with the step's fact, which is of the
/// second of the call.
pub fn steps_store_their_facts()
    ensures { (old new : ℕ → RoundState) (second : ℕ) (turn : RoundTurn) (step : Step) → IsTurn old new second turn step → Stores (old second) turn →
        (t : ℕ) → stable_round (new t) ≡ with_fact step.fact t (stable_round (old t)) }
{}

/// Each step of rounds that are well stores a lawful fact, if any, and leaves them well. So an aggregator that stored
/// lawful facts stores lawful facts for good, and a call that fails leaves them.
pub fn steps_are_lawful()
    ensures fact { (image : List ℕ → List ℕ) (rounds : ℕ → RoundState) (event : RoundEvent) → MayTake rounds event → event_second event < 2 ^ 63 →
        IsWell (rounds (event_second event)) → AreApart (λ t. items_in (rounds t)) →
        IfSome (round_row image event (rounds (event_second event))).fact (λ what. IsLawful (λ t. stable_round (rounds t)) (fact_of (event_second event) what)) }
    ensures well { (image : List ℕ → List ℕ) (rounds : ℕ → RoundState) (event : RoundEvent) → MayTake rounds event →
        IsWell (rounds (event_second event)) → IsWell (round_row image event (rounds (event_second event))).after }
    ensures facts { (image : List ℕ → List ℕ) (facts : List Fact) (old new : ℕ → RoundState) (event : RoundEvent) (step : Step) →
        HasFacts facts old → MayTake old event → event_second event < 2 ^ 63 →
        IsTurn old new (event_second event) (round_row image event (old (event_second event))) step → HasFacts (with_new facts step.fact) new }
    ensures same { (facts : List Fact) (old new : ℕ → RoundState) → HasFacts facts old → SameRounds old new → HasFacts facts new }
    ensures restart { (facts : List Fact) (old new : ℕ → RoundState) → HasFacts facts old → ((t : ℕ) → new t ≡ round_restarted (old t)) → HasFacts facts new }
{}

/// Facts are lawful one by one: each after those before it.
pub fn facts_one_by_one()
    ensures none { AreLawful [] }
    ensures more { (facts : List Fact) (fact : Fact) → AreLawful facts → IsLawful (stored_by facts) fact → AreLawful (facts ++ fact ∷ []) }
    ensures before { (facts : List Fact) (fact : Fact) → AreLawful (facts ++ fact ∷ []) → AreLawful facts }
    ensures last { (facts : List Fact) (fact : Fact) → AreLawful (facts ++ fact ∷ []) → IsLawful (stored_by facts) fact }
    ensures stored { (facts : List Fact) (fact : Fact) (t : ℕ) → stored_by (facts ++ fact ∷ []) t ≡ with_fact (Some fact) t (stored_by facts t) }
{}

/// An aggregator is what its facts make: a new one that stores facts one by one is of these facts, and stored them lawfully
/// where they are lawful. One that comes back with all facts that an aggregator stored is that aggregator after a restart.
pub fn one_aggregator_of_facts()
    ensures none { (me : ℕ) (a : AggregatorState) → a.me ≡ me → ((t : ℕ) → rounds_of a t ≡ fresh_round) → IsOfFacts me [] a }
    ensures next { (me : ℕ) (facts : List Fact) (fact : Fact) (old new : AggregatorState) → IsOfFacts me facts old → new.me ≡ old.me →
        ChangesOnly (rounds_of old) (rounds_of new) fact.second (restored (with_what fact.what (stable_round (rounds_of old fact.second)))) →
        IsOfFacts me (facts ++ fact ∷ []) new }
    ensures stored { (me : ℕ) (facts : List Fact) (a : AggregatorState) → IsOfFacts me facts a → (t : ℕ) → stable_round (rounds_of a t) ≡ stored_by facts t }
    ensures has { (me : ℕ) (facts : List Fact) (a : AggregatorState) → AreLawful facts → IsOfFacts me facts a → HasFacts facts (rounds_of a) }
    ensures restarted { (me : ℕ) (facts : List Fact) (rounds : ℕ → RoundState) (other : AggregatorState) → HasFacts facts rounds → IsOfFacts me facts other →
        (t : ℕ) → rounds_of other t ≡ round_restarted (rounds t) }
{}

/// What an aggregator does hangs on the numbers of its requests by no more than their names. Each row commutes with a
/// renaming of the numbers, so trees, submissions and responses are the same, and so is the chain of each item. A renaming
/// that is one to one keeps a new number new.
pub fn numbers_are_names()
    ensures row { (image : List ℕ → List ℕ) (name : ℕ → ℕ) (event : RoundEvent) (r : RoundState) →
        round_row image (event_renamed name event) (round_renamed name r) ≡ turn_renamed name (round_row image event r) }
    ensures restart { (name : ℕ → ℕ) (r : RoundState) → round_restarted (round_renamed name r) ≡ round_renamed name (round_restarted r) }
    ensures items { (name : ℕ → ℕ) (entries : List Entry) → items_of (entries_renamed name entries) ≡ items_of entries }
    ensures may { (name : ℕ → ℕ) (rounds : ℕ → RoundState) (event : RoundEvent) → IsOneToOne name → MayTake rounds event →
        MayTake (λ t. round_renamed name (rounds t)) (event_renamed name event) }
{}

/// A settled round answers every later event alike, whatever its items and its response are: it stays as it is, stores
/// nothing and sends nothing. A restart leaves it.
pub fn settled_rounds_stay()
    ensures row { (image : List ℕ → List ℕ) (event : RoundEvent) (r : RoundState) → IsSettled r → round_row image event r ≡ round_still r (settled_answer event) }
    ensures restart { (r : RoundState) → IsSettled r → round_restarted r ≡ r }
    ensures answered { (image : List ℕ → List ℕ) (second : ℕ) (above : Above) (r : RoundState) → AwaitsResponse r → IsSettled (round_row image (events.Response second above) r).after }
    ensures empty { (image : List ℕ → List ℕ) (second : ℕ) (r : RoundState) → r.closed ≡ None → r.open_items ≡ [] → IsSettled (round_row image (events.Close second) r).after }
{}
