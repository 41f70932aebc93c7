//! The laws. None of these functions does anything.
ghost use Rattle.std.specs.Prelude.{◌≡◌, ◌==◌, if◌then◌else◌, ◌≤◌, ◌<◌, ◌++◌, ◌∷◌, [], ℕ, List, IfSome, option_map, Some};
ghost use Rattle.ksi_aggtree.specs.declared.item.Item.{Item};
ghost use Rattle.ksi_synod.specs.declared.messages.SynodMessage.{SynodMessage};
ghost use Rattle.ksi_synod.specs.CorePlans.{CorePlanState};
ghost use Rattle.ksi_calendar.specs.Covered.{Roots};
ghost use Rattle.ksi_corenode.specs.declared.step.Step.{Step};
ghost use Rattle.ksi_corenode.specs.SecondState.{SecondState, fresh_second};
ghost use Rattle.ksi_corenode.specs.Facts.{Stores, stable_state, with_fact, fact_of};
ghost use Rattle.ksi_corenode.specs.Turns.{Turn};
ghost use Rattle.ksi_corenode.specs.Rows.{submission_row, seal_row, ballot_row, receive_row, tell_row, respond_row, restart_row};
ghost use Rattle.ksi_corenode.specs.CoreState.{CoreState, state_of, IsSame, IsChange, IsTurn};
ghost use Rattle.ksi_corenode.specs.declared.event.CoreEvent.{CoreEvent};
ghost use Rattle.ksi_corenode.specs.declared.fact.Fact.{Fact};
ghost use Rattle.ksi_corenode.specs.Events.{event_second, core_row, IsAsked, MayTake};
ghost use Rattle.ksi_corenode.specs.Lawful.{stored_by, with_new, IsLawful, AreLawful};
ghost use Rattle.ksi_corenode.specs.Owners.{BringsOwned};
ghost use Rattle.ksi_corenode.specs.Restored.{second_with, IsOfFacts, IsWell, HasFacts};

/// Each row stores its fact: the stable part of the second after it is the one before with that fact. A restart leaves the
/// stable part.
pub fn rows_store_their_facts()
    ensures submission { (from : ℕ) (item : Item) (s : SecondState) → Stores s (submission_row from item s) }
    ensures seal { (image : List ℕ → List ℕ) (s : SecondState) → Stores s (seal_row image s) }
    ensures ballot { (plan : CorePlanState) (second me : ℕ) (s : SecondState) → Stores s (ballot_row plan second me s) }
    ensures receive { (plan : CorePlanState) (second from : ℕ) (m : SynodMessage) (s : SecondState) → Stores s (receive_row plan second from m s) }
    ensures tell { (plan : CorePlanState) (second me : ℕ) (s : SecondState) → Stores s (tell_row plan second me s) }
    ensures respond { (image : List ℕ → List ℕ) (held : Roots) (start second : ℕ) (s : SecondState) → Stores s (respond_row image held start second s) }
    ensures restart { (s : SecondState) → stable_state (restart_row s) ≡ stable_state s }
{}

/// So does each step: the stable part of every second after a call is the one before with the step's fact, which is of the
/// second of the call.
pub fn steps_store_their_facts()
    ensures { (old new : CoreState) (second : ℕ) (turn : Turn) (step : Step) → IsTurn old new second turn step → Stores (state_of old second) turn →
        (t : ℕ) → stable_state (state_of new t) ≡ with_fact step.fact t (stable_state (state_of old t)) }
{}

/// Each step of a second that is well, at or after the start and below 2^63, stores a lawful fact, if any, and leaves it
/// well. The core is one of its plan, and so is the owner of the ballot that the event brings, if any. So a core that stored
/// lawful facts stores lawful facts for good, and a call that fails leaves them.
pub fn steps_are_lawful()
    ensures fact { (image : List ℕ → List ℕ) (core : CoreState) (event : CoreEvent) → MayTake core event → IsAsked core (event_second event) →
        BringsOwned core.plan.cores event → core.me < core.plan.cores → IsWell image (state_of core (event_second event)) →
        IfSome (core_row image core event).fact (λ what. IsLawful core.plan.cores core.start (stable_state (state_of core (event_second event))) (fact_of (event_second event) what)) }
    ensures well { (image : List ℕ → List ℕ) (core : CoreState) (event : CoreEvent) → MayTake core event →
        IsWell image (state_of core (event_second event)) → IsWell image (core_row image core event).after }
    ensures facts { (image : List ℕ → List ℕ) (plan : CorePlanState) (facts : List Fact) (old new : CoreState) (event : CoreEvent) (step : Step) →
        HasFacts image plan facts old → MayTake old event → IsAsked old (event_second event) → BringsOwned old.plan.cores event →
        IsTurn old new (event_second event) (core_row image old event) step → HasFacts image plan (with_new facts step.fact) new }
    ensures same { (image : List ℕ → List ℕ) (plan : CorePlanState) (facts : List Fact) (old new : CoreState) →
        HasFacts image plan facts old → IsSame old new → HasFacts image plan facts new }
{}

/// Facts are lawful one by one: each after those before it.
pub fn facts_one_by_one()
    ensures none { (cores start : ℕ) → AreLawful cores start [] }
    ensures more { (cores start : ℕ) (facts : List Fact) (fact : Fact) → AreLawful cores start facts → IsLawful cores start (stored_by facts fact.second) fact →
        AreLawful cores start (facts ++ fact ∷ []) }
    ensures before { (cores start : ℕ) (facts : List Fact) (fact : Fact) → AreLawful cores start (facts ++ fact ∷ []) → AreLawful cores start facts }
    ensures last { (cores start : ℕ) (facts : List Fact) (fact : Fact) → AreLawful cores start (facts ++ fact ∷ []) → IsLawful cores start (stored_by facts fact.second) fact }
    ensures stored { (facts : List Fact) (fact : Fact) (t : ℕ) → stored_by (facts ++ fact ∷ []) t ≡ with_fact (Some fact) t (stored_by facts t) }
{}

/// A core is what its facts make: a new core that stores facts one by one is of these facts, and stored them lawfully where
/// they are lawful. One that comes back with all facts that a core stored is that core after a restart.
pub fn one_core_of_facts()
    ensures none { (image : List ℕ → List ℕ) (me : ℕ) (plan : CorePlanState) (core : CoreState) → core.me ≡ me → core.plan ≡ plan → core.start ≡ plan.start →
        ((t : ℕ) → state_of core t ≡ fresh_second me plan t) → IsOfFacts image me plan [] core }
    ensures next { (image : List ℕ → List ℕ) (me : ℕ) (plan : CorePlanState) (facts : List Fact) (fact : Fact) (old new : CoreState) → IsOfFacts image me plan facts old →
        IsChange old new fact.second (second_with image fact.what (state_of old fact.second)) → IsOfFacts image me plan (facts ++ fact ∷ []) new }
    ensures same { (image : List ℕ → List ℕ) (me : ℕ) (plan : CorePlanState) (facts : List Fact) (old new : CoreState) →
        IsOfFacts image me plan facts old → IsSame old new → IsOfFacts image me plan facts new }
    ensures stored { (image : List ℕ → List ℕ) (me : ℕ) (plan : CorePlanState) (facts : List Fact) (core : CoreState) → IsOfFacts image me plan facts core →
        (t : ℕ) → stable_state (state_of core t) ≡ stored_by facts t }
    ensures has { (image : List ℕ → List ℕ) (me : ℕ) (plan : CorePlanState) (facts : List Fact) (core : CoreState) → me < 9 → me < plan.cores →
        AreLawful plan.cores plan.start facts →
        IsOfFacts image me plan facts core → HasFacts image plan facts core }
    ensures restarted { (image : List ℕ → List ℕ) (plan : CorePlanState) (facts : List Fact) (core other : CoreState) → HasFacts image plan facts core →
        IsOfFacts image core.me plan facts other → (t : ℕ) → state_of other t ≡ restart_row (state_of core t) }
{}

/// A core that comes back with all facts that a core stored and the fact of an event, if any, is that core after this event
/// and a restart.
pub fn steps_come_back()
    ensures { (image : List ℕ → List ℕ) (plan : CorePlanState) (facts : List Fact) (core other : CoreState) (event : CoreEvent) → HasFacts image plan facts core → MayTake core event →
        IsOfFacts image core.me plan (with_new facts (option_map (fact_of (event_second event)) (core_row image core event).fact)) other →
        (t : ℕ) → state_of other t ≡ restart_row (if t == event_second event then (core_row image core event).after else state_of core t) }
{}
