//! The laws. None of these functions does anything.
ghost use Rattle.std.specs.Prelude.{◌≡◌, ◌<◌, ◌++◌, [], ℕ, Bool, true, List, Some, None};
ghost use Rattle.ksi_imprint.specs.Imprints.{zero_imprint};
ghost use Rattle.ksi_corenode.specs.CoreState.{held_by};
ghost use Rattle.ksi_corenode.specs.declared.fact.Fact.{Fact};
ghost use Rattle.ksi_nodestore.specs.Stores.{IsFileOf};
ghost use Rattle.ksi_schedule.specs.Events.{AreEvents};
ghost use Rattle.ksi_schedule.specs.Plans.{core_plan_of, IsPlan, PlanState};
ghost use Rattle.ksi_schedule.specs.declared.event.Event.{Event};
ghost use Rattle.ksi_world.specs.Histories.{after, held_in};
ghost use Rattle.ksi_laws_crashed.specs.Cores.{IsCoreAfter, Running};
ghost use Rattle.ksi_laws_crashed.specs.Crashed.{all_events, AreNodesAfter, Deed, Nodes, Runs};
ghost use Rattle.ksi_laws_succession.specs.Minority.{three_cores, two_decide};
ghost use Rattle.ksi_laws_succession.specs.Retired.{AreMost, AreUpTo, EachMost, HasRetired, IsUnasked, IsUnaskedAfter};

use ksi_laws_crashed::laws::{crashed_nodes_have_a_history, histories_of_crashed_nodes_hold};
use ksi_nodestore::laws::a_crash_is_a_restart;
use ksi_world::laws::{events_are_turns, held_stays};

/// No core holds a root for a second if no event asks a majority of its voters about it. The other cores may be asked anything.
pub fn an_unasked_majority_decides_nothing()
    ensures history { (image : List ℕ → List ℕ) (plan : PlanState) → IsPlan plan → (events : List Event) → AreEvents plan events → (second : ℕ) (who : ℕ → Bool) → AreMost plan second who →
        ((core : ℕ) → who core ≡ true → IsUnasked image plan [] events core second) → (core : ℕ) → held_in (after image plan events) core second ≡ None }
    ensures nodes { (image : List ℕ → List ℕ) (plan : PlanState) → IsPlan plan → (events : List Event) → AreEvents plan events → (second : ℕ) (who : ℕ → Bool) → AreMost plan second who →
        ((core : ℕ) → who core ≡ true → IsUnasked image plan [] events core second) → (core : ℕ) (running : Running) → IsCoreAfter image plan events core running → held_by running.core second ≡ None }
{
    events_are_turns();
    histories_of_crashed_nodes_hold();
}

/// A majority is needed: in this history of three cores, no event asks core 2 about second 10, or about any other, and core 0 holds
/// a root for second 10.
pub fn a_minority_is_not_enough()
    ensures plan { IsPlan three_cores }
    ensures events { AreEvents three_cores two_decide }
    ensures unasked { (image : List ℕ → List ℕ) (second : ℕ) → IsUnasked image three_cores [] two_decide 2 second }
    ensures held { (image : List ℕ → List ℕ) → held_in (after image three_cores two_decide) 0 10 ≡ Some zero_imprint }
{}

/// No core holds a root for a second after the last if a majority of its voters retired at the last.
pub fn a_retired_majority_decides_nothing()
    ensures history { (image : List ℕ → List ℕ) (plan : PlanState) → IsPlan plan → (events : List Event) → AreEvents plan events → (last second : ℕ) (who : ℕ → Bool) → last < second → AreMost plan second who →
        ((core : ℕ) → who core ≡ true → HasRetired image plan last events core) → (core : ℕ) → held_in (after image plan events) core second ≡ None }
    ensures nodes { (image : List ℕ → List ℕ) (plan : PlanState) → IsPlan plan → (events : List Event) → AreEvents plan events → (last second : ℕ) (who : ℕ → Bool) → last < second → AreMost plan second who →
        ((core : ℕ) → who core ≡ true → HasRetired image plan last events core) → (core : ℕ) (running : Running) → IsCoreAfter image plan events core running → held_by running.core second ≡ None }
{
    events_are_turns();
    histories_of_crashed_nodes_hold();
}

/// A core retires if no event ever asks it about a second after the last. It also retires if its file has no fact of such a
/// second at some moment, whatever it was asked before, and no later event asks it about one. The core may crash and forget.
pub fn cores_retire()
    ensures unasked { (image : List ℕ → List ℕ) (plan : PlanState) (last : ℕ) (events : List Event) (core : ℕ) → IsUnaskedAfter image plan last [] events core → HasRetired image plan last events core }
    ensures file { (image : List ℕ → List ℕ) (plan : PlanState) (last : ℕ) (before later : List Event) (core : ℕ) (running : Running) (facts : List Fact) → IsCoreAfter image plan before core running →
        IsFileOf core (core_plan_of plan) facts running.file → AreUpTo last facts → IsUnaskedAfter image plan last before later core → HasRetired image plan last (before ++ later) core }
{
    a_crash_is_a_restart();
}

/// What an operator may rely on: if no event asks a majority of the voters of each second after the last about such a second, no
/// core of the plan ever holds a root of one, whatever the other cores do. It is enough that each core of these majorities
/// retired at the last (`retired`). Nor do nodes that crash and forget hold one at the end of any run (`run`).
pub fn nothing_is_held_after_the_last_second()
    ensures unasked { (image : List ℕ → List ℕ) (plan : PlanState) → IsPlan plan → (last : ℕ) (before later : List Event) → AreEvents plan (before ++ later) → EachMost image plan last (IsUnaskedAfter image plan last [] (before ++ later)) →
        (core second : ℕ) → last < second → held_in (after image plan before) core second ≡ None }
    ensures retired { (image : List ℕ → List ℕ) (plan : PlanState) → IsPlan plan → (last : ℕ) (before later : List Event) → AreEvents plan (before ++ later) → EachMost image plan last (HasRetired image plan last (before ++ later)) →
        (core second : ℕ) → last < second → held_in (after image plan before) core second ≡ None }
    ensures run { (image : List ℕ → List ℕ) (plan : PlanState) → IsPlan plan → (last : ℕ) (deeds : List Deed) (old new : Nodes) → AreNodesAfter image plan [] old → Runs image plan [] deeds old new →
        EachMost image plan last (HasRetired image plan last (all_events deeds)) → (core second : ℕ) → core < plan.cores → last < second → held_by (new.cores core).core second ≡ None }
{
    a_retired_majority_decides_nothing();
    cores_retire();
    crashed_nodes_have_a_history();
    held_stays();
}
