//! Laws of one core that forgets. None of these functions does anything.
ghost use Rattle.std.specs.Prelude.{◌≡◌, ◌≢◌, ◌⊎◌, ◌<◌, ◌++◌, ◌∷◌, [], map, ℕ, Bool, true, List, Some, None, Ok};
ghost use Rattle.ksi_corenode.specs.CoreState.{held_by, state_of, IsTurn};
ghost use Rattle.ksi_corenode.specs.Events.{core_row, event_second};
ghost use Rattle.ksi_corenode.specs.Lawful.{with_new};
ghost use Rattle.ksi_corenode.specs.declared.event.CoreEvent.{CoreEvent};
ghost use Rattle.ksi_corenode.specs.declared.fact.Fact.{Fact};
ghost use Rattle.ksi_corenode.specs.declared.step.Step.{Step};
ghost use Rattle.ksi_disk.specs.Images.{LeavesOnly};
ghost use Rattle.ksi_forgetting.specs.Forgets.{IsFileLeft};
ghost use Rattle.ksi_forgetting.specs.Puts.{is_early};
ghost use Rattle.ksi_laws_forgetting.specs.Forgotten.{MayReach};
ghost use Rattle.ksi_nodestore.specs.Opens.{OpensAs, StaysOpened};
ghost use Rattle.ksi_nodestore.specs.Stores.{IsFileOf};
ghost use Rattle.ksi_nodestore.specs.StoreState.{IsStoreOf, StoreState};
ghost use Rattle.ksi_nodestore.specs.Takes.{fact_added, IsFileBeforeOrAfter, IsUnchanged};
ghost use Rattle.ksi_synod.specs.CorePlans.{CorePlanState};
ghost use Rattle.ksi_schedule.specs.Events.{AreEvents, IsEvent};
ghost use Rattle.ksi_schedule.specs.Plans.{core_plan_of, IsPlan, PlanState};
ghost use Rattle.ksi_schedule.specs.declared.event.Event.{Event};
ghost use Rattle.ksi_schedule.specs.declared.event.Event.TheVariants.{RestartCore};
ghost use Rattle.ksi_world.specs.CoreEvents.{asked_of, is_restart_of};
ghost use Rattle.ksi_world.specs.Histories.{after, core_message, happens, held_in};
ghost use Rattle.ksi_laws_crashed.specs.Cores.{nothing, or_these, running_in, HasForgotten, IsAsBefore, IsCoreAfter, Running, TakesPart, TookStep, WasCutOff, WasOpened};
ghost use Rattle.ksi_laws_crashed.specs.Crashed.{events_of, CoreCutOff};

use ksi_corenode::laws::{one_core_of_facts, steps_are_lawful, steps_come_back};
use ksi_disk::Disk;
use ksi_imprint::Compress;
use ksi_laws_facts::laws::{rows_add_what_they_store, step_is_by_facts, world_is_seen};
use ksi_laws_forgetting::cores::{forgetting_is_not_noticed, forgotten_seconds_are_known};
use ksi_nodestore::laws::a_crash_is_a_restart;
use ksi_world::laws::{agreement, events_are_turns};

/// The calls of a store of a core are deeds, by their clauses: an event that was taken (`turn`, `stored`), by the rule of cores that
/// forget (`taken` of `HasTaken` in `ksi_node`) or of a second that is not forgotten; a file that was opened (`opens`); an opening
/// after a crash at any moment of a `take`, or after one that failed (`any_moment`), where the fact of the event was stored or was
/// not; and a `take` that was out of memory, which leaves the core as it was (`leaves`).
///
/// To forget is one too (`forgot`): `forget` of `ksi_forgetting` made the new file of the old one (`forgets`), the host renamed it,
/// and what was opened is one of both. That a rename leaves one of both, even if the machine crashes in it, is a premise on the
/// host.
pub fn core_calls_are_deeds<C: Compress, D: Disk, E: Disk>()
    ensures took { (me : ℕ) (plan : CorePlanState) (facts : List Fact) (forgotten : ℕ → Bool) (old new : StoreState D) (asked : CoreEvent) (step : Step) → IsStoreOf C.image D.content D.images me plan facts old →
        MayReach forgotten (state_of old.core) asked → IsTurn old.core new.core (event_second asked) (core_row C.image old.core asked) step → IsStoreOf C.image D.content D.images me plan (with_new facts step.fact) new →
        TookStep C.image me plan asked (running_in D.content old forgotten) (running_in D.content new forgotten) }
    ensures opened { (me : ℕ) (plan : CorePlanState) (file : List ℕ) (forgotten : ℕ → Bool) (store : StoreState E) → OpensAs C.image E.content E.images me plan file (Ok store) → WasOpened C.image me plan (running_in E.content store forgotten) }
    ensures cut_off { (me : ℕ) (plan : CorePlanState) (facts : List Fact) (forgotten : ℕ → Bool) (old new : StoreState D) (asked : CoreEvent) (file : List ℕ) (store : StoreState E) → IsStoreOf C.image D.content D.images me plan facts old →
        MayReach forgotten (state_of old.core) asked → LeavesOnly D.moment D.images_since old.log.disk new.log.disk (IsFileBeforeOrAfter me plan facts (fact_added C.image old.core asked)) →
        D.images_since new.log.disk (D.moment old.log.disk) file → OpensAs C.image E.content E.images me plan file (Ok store) → StaysOpened E.content file (Ok store) →
        (stored : Bool) × WasCutOff C.image me plan asked stored (running_in D.content old forgotten) (running_in E.content store forgotten) }
    ensures refused { (forgotten : ℕ → Bool) (old new : StoreState D) → IsUnchanged old new → IsAsBefore (running_in D.content old forgotten) (running_in D.content new forgotten) }
    ensures forgot { (me : ℕ) (plan : CorePlanState) (facts : List Fact) (forgotten : ℕ → Bool) (horizon records left : ℕ) (old : StoreState D) (file fresh named : List ℕ) (store : StoreState E) → IsStoreOf C.image D.content D.images me plan facts old →
        D.images old.log.disk file → IsFileLeft me plan horizon file fresh records left → (named ≡ file) ⊎ (named ≡ fresh) → OpensAs C.image E.content E.images me plan named (Ok store) → StaysOpened E.content named (Ok store) →
        TakesPart C.image me plan None true (running_in D.content old forgotten) (running_in E.content store forgotten) ⊎
        HasForgotten C.image me plan (is_early plan.start horizon) (running_in D.content old forgotten) (running_in E.content store (or_these forgotten (is_early plan.start horizon))) }
{
    a_crash_is_a_restart();
}

/// A core that crashes and forgets is a core of a history, deed by deed: after a part in an event, after it was cut off in one or
/// another core was, after it refused one, and after it forgot seconds, which is a restart in the history. What it sends and
/// answers is what the history's core sends and answers, which forgot nothing; and it holds the same roots. So two cores that hold
/// a root for a second hold the same, whatever they forgot.
pub fn forgetful_cores_have_a_history()
    ensures first { (image : List ℕ → List ℕ) (plan : PlanState) → IsPlan plan → (j : ℕ) (running : Running) → j < plan.cores → IsFileOf j (core_plan_of plan) [] running.file →
        WasOpened image j (core_plan_of plan) running → running.forgotten ≡ nothing → IsCoreAfter image plan [] j running }
    ensures takes_part { (image : List ℕ → List ℕ) (plan : PlanState) → IsPlan plan → (before : List Event) (event : Event) (j : ℕ) (old new : Running) → j < plan.cores → AreEvents plan before → IsEvent plan event →
        IsCoreAfter image plan before j old → TakesPart image j (core_plan_of plan) (asked_of j (after image plan before).wire event) (is_restart_of j event) old new →
        IsCoreAfter image plan (before ++ event ∷ []) j new }
    ensures cut_off { (image : List ℕ → List ℕ) (plan : PlanState) → IsPlan plan → (before : List Event) (event : Event) (j : ℕ) (asked : CoreEvent) (stored : Bool) (old new : Running) → j < plan.cores → AreEvents plan before → IsEvent plan event →
        IsCoreAfter image plan before j old → asked_of j (after image plan before).wire event ≡ Some asked → WasCutOff image j (core_plan_of plan) asked stored old new →
        IsCoreAfter image plan (before ++ events_of (CoreCutOff j event stored)) j new }
    ensures stands_by { (image : List ℕ → List ℕ) (plan : PlanState) → IsPlan plan → (before : List Event) (event : Event) (i j : ℕ) (asked : CoreEvent) (stored : Bool) (running : Running) → j ≢ i →
        IsCoreAfter image plan before j running → asked_of i (after image plan before).wire event ≡ Some asked → IsCoreAfter image plan (before ++ events_of (CoreCutOff i event stored)) j running }
    ensures refused { (image : List ℕ → List ℕ) (plan : PlanState) (events : List Event) (j : ℕ) (old new : Running) → IsAsBefore old new → IsCoreAfter image plan events j old → IsCoreAfter image plan events j new }
    ensures forgot { (image : List ℕ → List ℕ) (plan : PlanState) → IsPlan plan → (before : List Event) (j : ℕ) (gone : ℕ → Bool) (old new : Running) → j < plan.cores →
        IsCoreAfter image plan before j old → HasForgotten image j (core_plan_of plan) gone old new → IsCoreAfter image plan (before ++ RestartCore j ∷ []) j new }
    ensures messages { (image : List ℕ → List ℕ) (plan : PlanState) → IsPlan plan → (before : List Event) (event : Event) (j : ℕ) (old new : Running) (asked : CoreEvent) → IsCoreAfter image plan before j old →
        asked_of j (after image plan before).wire event ≡ Some asked → (took : TookStep image j (core_plan_of plan) asked old new) →
        (after image plan (before ++ event ∷ [])).wire ≡ (after image plan before).wire ++ map (core_message j (event_second asked)) took.step.sends }
    ensures answers { (image : List ℕ → List ℕ) (plan : PlanState) → IsPlan plan → (before : List Event) (event : Event) (j : ℕ) (old new : Running) (asked : CoreEvent) → IsCoreAfter image plan before j old →
        asked_of j (after image plan before).wire event ≡ Some asked → (took : TookStep image j (core_plan_of plan) asked old new) →
        took.step.answer ≡ (happens image plan (after image plan before) event).outcome.answer }
    ensures held { (image : List ℕ → List ℕ) (plan : PlanState) (events : List Event) (j : ℕ) (running : Running) → IsCoreAfter image plan events j running →
        (second : ℕ) → held_by running.core second ≡ held_in (after image plan events) j second }
    ensures agree { (image : List ℕ → List ℕ) (plan : PlanState) → IsPlan plan → (events : List Event) (one other second : ℕ) (running others : Running) (root found : List ℕ) → AreEvents plan events →
        IsCoreAfter image plan events one running → IsCoreAfter image plan events other others → held_by running.core second ≡ Some root → held_by others.core second ≡ Some found → root ≡ found }
{
    a_crash_is_a_restart();
    agreement();
    events_are_turns();
    forgetting_is_not_noticed();
    forgotten_seconds_are_known();
    one_core_of_facts();
    rows_add_what_they_store();
    step_is_by_facts();
    steps_are_lawful();
    steps_come_back();
    world_is_seen();
}
