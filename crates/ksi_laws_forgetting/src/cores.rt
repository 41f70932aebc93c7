//! Cores that forget seconds. None of these functions does anything.
ghost use Rattle.std.specs.Prelude.{◌≡◌, ◌<◌, ◌||◌, IsTrue, IsSome, ℕ, Bool, List, option_map, false};
ghost use Rattle.ksi_synod.specs.CorePlans.{CorePlanState};
ghost use Rattle.ksi_corenode.specs.declared.event.CoreEvent.{CoreEvent};
ghost use Rattle.ksi_corenode.specs.declared.fact.Fact.{Fact};
ghost use Rattle.ksi_corenode.specs.declared.step.Step.{Step};
ghost use Rattle.ksi_corenode.specs.SecondState.{SecondState};
ghost use Rattle.ksi_corenode.specs.CoreState.{CoreState, state_of, held_by, IsChange, IsTurn};
ghost use Rattle.ksi_corenode.specs.Chains.{held_chain};
ghost use Rattle.ksi_corenode.specs.Events.{event_second, core_row};
ghost use Rattle.ksi_corenode.specs.Rows.{restart_row};
ghost use Rattle.ksi_corenode.specs.Lawful.{stored_by, with_new, AreLawful};
ghost use Rattle.ksi_corenode.specs.Restored.{HasFacts, IsOfFacts};
ghost use Rattle.ksi_corenode.specs.Bare.{is_bare, is_taken};
ghost use Rattle.ksi_corenode.specs.Facts.{fact_of};
ghost use Rattle.ksi_laws_forgetting.specs.Forgotten.{AreForgotten, AreForgottenAt, HasForgotten, IsGone, MayReach, SayTheSame, SayTheSameOf, SaysAs, turn_of, seconds_after};
ghost use Rattle.ksi_laws_forgetting.specs.Left.{AreHeld, is_forgotten, left_before, left_of};

use ksi_corenode::laws::facts_one_by_one;

/// A core that forgot seconds has the same turns as one that forgot none. The seconds that are not gone are the same, and the
/// root of one that is gone is still held. Each event that the core takes has the same answer, fact and messages. This still
/// holds after the event, after a restart, after any number of events, and if it forgets again.
pub fn forgetting_is_not_noticed()
    ensures row { (image : List ℕ → List ℕ) (core : CoreState) (event : CoreEvent) → core_row image core event ≡ turn_of image core.plan core.start core.me (state_of core) event }
    ensures bare { (whole forgot : SecondState) → IsGone whole forgot → IsTrue (is_bare forgot) }
    ensures held { (seconds forgot : ℕ → SecondState) → AreForgotten seconds forgot → (t : ℕ) → (forgot t).vote.held ≡ (seconds t).vote.held }
    ensures other { (seconds forgot : ℕ → SecondState) → AreForgotten seconds forgot → (t : ℕ) → is_bare (forgot t) ≡ false → forgot t ≡ seconds t }
    ensures alike { (image : List ℕ → List ℕ) (plan : CorePlanState) (start me : ℕ) (seconds forgot : ℕ → SecondState) (event : CoreEvent) → AreForgotten seconds forgot → IsTrue (is_taken forgot event) →
        SayTheSame (turn_of image plan start me forgot event) (turn_of image plan start me seconds event) }
    ensures after { (image : List ℕ → List ℕ) (plan : CorePlanState) (start me : ℕ) (seconds forgot : ℕ → SecondState) (event : CoreEvent) → AreForgotten seconds forgot → IsTrue (is_taken forgot event) →
        AreForgotten (seconds_after image plan start me seconds event) (seconds_after image plan start me forgot event) }
    ensures restart { (seconds forgot : ℕ → SecondState) → AreForgotten seconds forgot → AreForgotten (λ t. restart_row (seconds t)) (λ t. restart_row (forgot t)) }
    ensures events { (image : List ℕ → List ℕ) (plan : CorePlanState) (start me : ℕ) (seconds forgot : ℕ → SecondState) (list : List CoreEvent) → AreForgotten seconds forgot → SayTheSameOf image plan start me seconds forgot list }
    ensures again { (seconds forgot more : ℕ → SecondState) → AreForgotten seconds forgot → AreForgotten forgot more → AreForgotten seconds more }
    ensures chain { (image : List ℕ → List ℕ) (whole forgot : CoreState) (t p : ℕ) → AreForgotten (state_of whole) (state_of forgot) → forgot.start ≡ whole.start →
        held_chain image (held_by forgot) forgot.start t p ≡ held_chain image (held_by whole) whole.start t p }
{}

/// The same for a step of a core: it has the answer, fact and messages that the core would have had if it had forgotten nothing,
/// and after it the two cores are related as before.
pub fn steps_are_not_noticed()
    ensures says { (image : List ℕ → List ℕ) (whole old new : CoreState) (event : CoreEvent) (step : Step) → HasForgotten whole old → IsTrue (is_taken (state_of old) event) →
        IsTurn old new (event_second event) (core_row image old event) step → SaysAs (event_second event) (core_row image whole event) step }
    ensures after { (image : List ℕ → List ℕ) (whole old new left : CoreState) (event : CoreEvent) (step : Step) → HasForgotten whole old → IsTrue (is_taken (state_of old) event) →
        IsTurn old left (event_second event) (core_row image old event) step → IsChange whole new (event_second event) (core_row image whole event).after → HasForgotten new left }
{}

/// The facts left of valid facts are valid, whichever seconds are forgotten. If a root is held for each of these, a core of the
/// facts left has the seconds of a core of all facts, except those that are gone; and the same for a core that stored them, after
/// a restart. In particular, each second before a given one that is held may be forgotten.
pub fn facts_left_are_valid()
    ensures valid { (cores start : ℕ) (forgotten : ℕ → Bool) (facts : List Fact) → AreLawful cores start facts → AreLawful cores start (left_of forgotten facts) }
    ensures seconds { (image : List ℕ → List ℕ) (me : ℕ) (plan : CorePlanState) (forgotten : ℕ → Bool) (facts : List Fact) (whole other : CoreState) → AreLawful plan.cores plan.start facts → AreHeld forgotten facts →
        IsOfFacts image me plan facts whole → IsOfFacts image me plan (left_of forgotten facts) other → AreForgotten (state_of whole) (state_of other) }
    ensures back { (image : List ℕ → List ℕ) (plan : CorePlanState) (forgotten : ℕ → Bool) (facts : List Fact) (core other : CoreState) → HasFacts image plan facts core → AreHeld forgotten facts →
        IsOfFacts image core.me plan (left_of forgotten facts) other → AreForgotten (λ t. restart_row (state_of core t)) (state_of other) }
    ensures held { (before : ℕ) (facts : List Fact) → AreHeld (is_forgotten before (stored_by facts)) facts }
    ensures gone { (image : List ℕ → List ℕ) (me before : ℕ) (plan : CorePlanState) (facts : List Fact) (whole other : CoreState) → AreLawful plan.cores plan.start facts →
        IsOfFacts image me plan facts whole → IsOfFacts image me plan (left_before before facts) other → (t : ℕ) → t < before → IsSome (held_by whole t) → IsGone (state_of whole t) (state_of other t) }
{
    facts_one_by_one();
}

/// The same if it is known which seconds are forgotten. The core takes an event by its rule, or because the event's second is not
/// forgotten; so a core that forgot nothing may take any. No fact of a forgotten second is added, so the facts left of all facts
/// and a new one are the facts left and the new one. What a core forgets first and what it forgets later add up, also in the facts
/// left.
pub fn forgotten_seconds_are_known()
    ensures are { (forgotten : ℕ → Bool) (seconds forgot : ℕ → SecondState) → AreForgottenAt forgotten seconds forgot → AreForgotten seconds forgot }
    ensures alike { (image : List ℕ → List ℕ) (plan : CorePlanState) (start me : ℕ) (forgotten : ℕ → Bool) (seconds forgot : ℕ → SecondState) (event : CoreEvent) → AreForgottenAt forgotten seconds forgot → MayReach forgotten forgot event →
        SayTheSame (turn_of image plan start me forgot event) (turn_of image plan start me seconds event) }
    ensures after { (image : List ℕ → List ℕ) (plan : CorePlanState) (start me : ℕ) (forgotten : ℕ → Bool) (seconds forgot : ℕ → SecondState) (event : CoreEvent) → AreForgottenAt forgotten seconds forgot → MayReach forgotten forgot event →
        AreForgottenAt forgotten (seconds_after image plan start me seconds event) (seconds_after image plan start me forgot event) }
    ensures restart { (forgotten : ℕ → Bool) (seconds forgot : ℕ → SecondState) → AreForgottenAt forgotten seconds forgot → AreForgottenAt forgotten (λ t. restart_row (seconds t)) (λ t. restart_row (forgot t)) }
    ensures facts { (image : List ℕ → List ℕ) (plan : CorePlanState) (start me : ℕ) (forgotten : ℕ → Bool) (seconds forgot : ℕ → SecondState) (event : CoreEvent) (facts : List Fact) → AreForgottenAt forgotten seconds forgot → MayReach forgotten forgot event →
        left_of forgotten (with_new facts (option_map (fact_of (event_second event)) (turn_of image plan start me seconds event).fact)) ≡ with_new (left_of forgotten facts) (option_map (fact_of (event_second event)) (turn_of image plan start me forgot event).fact) }
    ensures back { (image : List ℕ → List ℕ) (plan : CorePlanState) (forgotten : ℕ → Bool) (facts : List Fact) (core other : CoreState) → HasFacts image plan facts core → AreHeld forgotten facts →
        IsOfFacts image core.me plan (left_of forgotten facts) other → AreForgottenAt forgotten (λ t. restart_row (state_of core t)) (state_of other) }
    ensures again { (forgotten later : ℕ → Bool) (seconds forgot more : ℕ → SecondState) → AreForgottenAt forgotten seconds forgot → AreForgottenAt later forgot more → AreForgottenAt (λ t. forgotten t || later t) seconds more }
    ensures left_again { (forgotten later : ℕ → Bool) (facts : List Fact) → left_of later (left_of forgotten facts) ≡ left_of (λ t. forgotten t || later t) facts }
    ensures left_none { (facts : List Fact) → left_of (λ t. false) facts ≡ facts }
{
    facts_one_by_one();
}
