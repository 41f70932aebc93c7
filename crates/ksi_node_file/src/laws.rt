//! What holds of cores that crash, for the layers above to cite. These functions do nothing.
ghost use Rattle.std.specs.Prelude.{◌≡◌, ◌<◌, ◌++◌, ◌∷◌, [], map, ℕ, Bool, List, Some, Ok};
ghost use Rattle.ksi_synod.specs.CorePlans.{CorePlanState};
ghost use Rattle.ksi_corenode.specs.declared.event.CoreEvent.{CoreEvent};
ghost use Rattle.ksi_corenode.specs.declared.fact.Fact.{Fact};
ghost use Rattle.ksi_corenode.specs.declared.step.Step.{Step};
ghost use Rattle.ksi_corenode.specs.CoreState.{held_by, IsTurn};
ghost use Rattle.ksi_corenode.specs.Events.{core_row, event_second};
ghost use Rattle.ksi_corenode.specs.Lawful.{with_new};
ghost use Rattle.ksi_disk.specs.Images.{LeavesOnly};
ghost use Rattle.ksi_nodestore.specs.Opens.{OpensAs, StaysOpened};
ghost use Rattle.ksi_nodestore.specs.Stores.{IsFileOf};
ghost use Rattle.ksi_nodestore.specs.StoreState.{IsStoreOf, StoreState};
ghost use Rattle.ksi_nodestore.specs.Takes.{fact_added, IsFileBeforeOrAfter, IsUnchanged};
ghost use Rattle.ksi_schedule.specs.Events.{AreEvents};
ghost use Rattle.ksi_schedule.specs.Plans.{core_plan_of, IsPlan, PlanState};
ghost use Rattle.ksi_schedule.specs.declared.event.Event.{Event};
ghost use Rattle.ksi_world.specs.CoreEvents.{asked_of};
ghost use Rattle.ksi_world.specs.Histories.{after, core_message, happens};
ghost use Rattle.ksi_node_file.specs.Crashed.{all_events, AreCoresAfter, Deed, IsAsBefore, IsCoreAfter, Running, running_in, Runs, TookStep, WasCutOff, WasOpened};

use ksi_corenode::laws::{one_core_of_facts, steps_are_lawful, steps_come_back};
use ksi_disk::Disk;
use ksi_imprint::Compress;
use ksi_laws_facts::laws::{rows_add_what_they_store, step_is_by_facts, world_is_seen};
use ksi_nodestore::laws::a_crash_is_a_restart;
use ksi_world::laws::{agreement, events_are_turns};

/// The calls of a store are deeds, by their clauses: an event that was taken (`turn`, `stored`); a file that was opened
/// (`opens`); an opening after a crash at any moment of a `take`, or after one that failed (`any_moment`), where the fact of
/// the event was stored or was not; and a `take` that was out of memory, which leaves the core as it was (`leaves`).
pub fn calls_are_deeds<C: Compress, D: Disk, E: Disk>()
    ensures took { (me : ℕ) (plan : CorePlanState) (facts : List Fact) (old new : StoreState D) (asked : CoreEvent) (step : Step) → IsStoreOf C.image D.content D.images me plan facts old →
        IsTurn old.core new.core (event_second asked) (core_row C.image old.core asked) step → IsStoreOf C.image D.content D.images me plan (with_new facts step.fact) new →
        TookStep C.image me plan asked (running_in D.content old) (running_in D.content new) }
    ensures opened { (me : ℕ) (plan : CorePlanState) (file : List ℕ) (store : StoreState E) → OpensAs C.image E.content E.images me plan file (Ok store) → WasOpened C.image me plan (running_in E.content store) }
    ensures cut_off { (me : ℕ) (plan : CorePlanState) (facts : List Fact) (old new : StoreState D) (asked : CoreEvent) (file : List ℕ) (store : StoreState E) → IsStoreOf C.image D.content D.images me plan facts old →
        LeavesOnly D.moment D.images_since old.log.disk new.log.disk (IsFileBeforeOrAfter me plan facts (fact_added C.image old.core asked)) → D.images_since new.log.disk (D.moment old.log.disk) file →
        OpensAs C.image E.content E.images me plan file (Ok store) → StaysOpened E.content file (Ok store) →
        (stored : Bool) × WasCutOff C.image me plan asked stored (running_in D.content old) (running_in E.content store) }
    ensures refused { (old new : StoreState D) → IsUnchanged old new → IsAsBefore (running_in D.content old) (running_in D.content new) }
{
    a_crash_is_a_restart();
}

/// Cores that crash have a history. Over any run of events, failures, crashes and openings, each core keeps what it keeps after
/// the history of the run's events, and its file has the facts that it stored there. An event that was cut off happened in that
/// history if its fact was stored, and its core restarts; nothing else is changed.
///
/// The messages that a core hands out are those of the history's wire, at their place. Those of an event that was cut off were
/// never handed out: if the wire has them, they are lost ones. What a core answers is what the history answers. And so what
/// holds after every history holds of cores that crash: two that hold a root for a second hold the same.
pub fn crashed_cores_have_a_history()
    ensures first { (image : List ℕ → List ℕ) (plan : PlanState) → IsPlan plan → (j : ℕ) (running : Running) → j < plan.cores → IsFileOf j (core_plan_of plan) [] running.file →
        WasOpened image j (core_plan_of plan) running → IsCoreAfter image plan [] j running }
    ensures run { (image : List ℕ → List ℕ) (plan : PlanState) → IsPlan plan → (deeds : List Deed) (before : List Event) (old new : ℕ → Running) → AreEvents plan before → AreCoresAfter image plan before old →
        Runs image plan before deeds old new → AreEvents plan (before ++ all_events deeds) × AreCoresAfter image plan (before ++ all_events deeds) new }
    ensures messages { (image : List ℕ → List ℕ) (plan : PlanState) → IsPlan plan → (before : List Event) (event : Event) (j : ℕ) (old new : Running) (asked : CoreEvent) → IsCoreAfter image plan before j old →
        asked_of j (after image plan before).wire event ≡ Some asked → (took : TookStep image j (core_plan_of plan) asked old new) →
        (after image plan (before ++ event ∷ [])).wire ≡ (after image plan before).wire ++ map (core_message j (event_second asked)) took.step.sends }
    ensures answers { (image : List ℕ → List ℕ) (plan : PlanState) → IsPlan plan → (before : List Event) (event : Event) (j : ℕ) (old new : Running) (asked : CoreEvent) → IsCoreAfter image plan before j old →
        asked_of j (after image plan before).wire event ≡ Some asked → (took : TookStep image j (core_plan_of plan) asked old new) →
        took.step.answer ≡ (happens image plan (after image plan before) event).outcome.answer }
    ensures agree { (image : List ℕ → List ℕ) (plan : PlanState) → IsPlan plan → (events : List Event) (one other second : ℕ) (running others : Running) (root found : List ℕ) → AreEvents plan events →
        IsCoreAfter image plan events one running → IsCoreAfter image plan events other others → held_by running.core second ≡ Some root → held_by others.core second ≡ Some found → root ≡ found }
{
    a_crash_is_a_restart();
    agreement();
    events_are_turns();
    one_core_of_facts();
    rows_add_what_they_store();
    step_is_by_facts();
    steps_are_lawful();
    steps_come_back();
    world_is_seen();
}
