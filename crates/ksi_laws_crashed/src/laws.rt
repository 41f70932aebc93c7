//! The laws. None of these functions does anything.
ghost use Rattle.std.specs.Prelude.{◌≡◌, ◌⊎◌, ◌<◌, ◌≤◌, ◌++◌, ◌∷◌, [], map, ℕ, Bool, List, Option, None, Some, Ok, true};
ghost use Rattle.ksi_imprint.specs.Imprints.{IsImprint};
ghost use Rattle.ksi_tlv.specs.Spelling.{AreBytes};
ghost use Rattle.ksi_aggregator.specs.declared.event.RoundEvent.{RoundEvent};
ghost use Rattle.ksi_aggregator.specs.declared.fact.Fact.{Fact};
ghost use Rattle.ksi_aggregator.specs.declared.step.Step.{Step};
ghost use Rattle.ksi_aggregator.specs.Events.{event_second, MayTake};
ghost use Rattle.ksi_aggregator.specs.Issuing.{IsIssued};
ghost use Rattle.ksi_aggregator.specs.Rounds.{rounds_of};
ghost use Rattle.ksi_corenode.specs.CoreState.{held_by};
ghost use Rattle.ksi_corenode.specs.Events as core_events;
ghost use Rattle.ksi_corenode.specs.declared.event.CoreEvent.{CoreEvent};
ghost use Rattle.ksi_corenode.specs.declared.event.CoreEvent.TheVariants as core_asked;
ghost use Rattle.ksi_signature.specs.declared.answer.Answer.TheVariants.{Published};
ghost use Rattle.ksi_disk.specs.Images.{LeavesOnly};
ghost use Rattle.ksi_laws_crashed.specs.Cores as core_node;
ghost use Rattle.ksi_corenode.specs.declared.fact.Fact as core_facts;
ghost use Rattle.ksi_nodestore.specs.Opens as core_opens;
ghost use Rattle.ksi_nodestore.specs.Stores as core_stores;
ghost use Rattle.ksi_nodestore.specs.StoreState as core_states;
ghost use Rattle.ksi_synod.specs.CorePlans.{CorePlanState};
ghost use Rattle.ksi_aggregator.specs.Renamed.{answer_renamed};
ghost use Rattle.ksi_aggtree.specs.declared.entries.Entry.{Entry};
ghost use Rattle.ksi_roundstore.specs.Forgets.{IsFileLeft};
ghost use Rattle.ksi_roundstore.specs.Opens.{OpensAs, StaysOpened};
ghost use Rattle.ksi_roundstore.specs.Stores.{IsFileOf, IsStoreOf};
ghost use Rattle.ksi_roundstore.specs.StoreState.{StoreState};
ghost use Rattle.ksi_roundstore.specs.Takes.{fact_added, HasEither, HasStored, IsUnchanged, TookTurn};
ghost use Rattle.ksi_roundstore.specs.Written.{IsLine, IsWritten};
ghost use Rattle.ksi_schedule.specs.Pieces.{Text};
ghost use Rattle.ksi_schedule.specs.Printed.{line_of};
ghost use Rattle.ksi_wire.specs.AskedRounds.{aggregator_line_of};
ghost use Rattle.ksi_wire.specs.RoundLines.{FitsRound, round_words};
ghost use Rattle.ksi_wire.specs.declared.event.AggregatorLine.TheVariants as lines;
ghost use Rattle.ksi_schedule.specs.Events.{AreEvents, IsEvent};
ghost use Rattle.ksi_schedule.specs.Plans.{core_plan_of, IsPlan, PlanState};
ghost use Rattle.ksi_schedule.specs.Schedules.{IsHistory};
ghost use Rattle.ksi_schedule.specs.declared.event.Event.{Event};
ghost use Rattle.ksi_world.specs.CoreEvents.{asked_of};
ghost use Rattle.ksi_world.specs.Histories.{after, core_message, happens, held_in, round_message};
ghost use Rattle.ksi_world.specs.Records.{issued_of};
ghost use Rattle.ksi_world.specs.RoundEvents.{round_asked_of};
ghost use Rattle.ksi_laws_crashed.specs.Aggregators.{forgotten_with, HasForgotten, IsAggregatorAfter, IsAsBefore, IsTakenAs, nothing, Running, running_in, TakesPart, TookStep, WasCutOff, WasOpened};
ghost use Rattle.ksi_replay.specs.HoldsOver.{HoldsOver};
ghost use Rattle.ksi_replay.specs.Joined.{IsPublished, Lasts};
ghost use Rattle.ksi_replay.specs.Journals.{journal_of};
ghost use Rattle.ksi_laws_crashed.specs.AsNode.{IsAggregatorNode};
ghost use Rattle.ksi_laws_crashed.specs.Headline.{AskForFew, history_of};
ghost use Rattle.ksi_laws_crashed.specs.Crashed.{all_events, AreNodesAfter, Deed, Nodes, Runs};

use crate::cores::forgetful_cores_have_a_history;
use ksi_aggregator::laws::{
    facts_one_by_one, numbers_are_names, one_aggregator_of_facts, settled_rounds_stay,
    steps_are_lawful,
};
use ksi_disk::Disk;
use ksi_imprint::Compress;
use ksi_laws_facts::laws::{rows_add_what_they_store, step_is_by_facts, world_is_seen};
use ksi_replay::laws::all_holds;
use ksi_roundstore::laws::{a_file_is_of_one_list_of_facts, facts_left_are_lawful, stores_go_on};
use ksi_world::laws::rounds_are_turns;

/// The calls of a store of an aggregator are deeds, by their clauses: an event that was taken (`turn`, `stored`), as what a
/// history asks; a file that was opened (`opens`); an opening after a crash at any moment of a `take`, or after one that failed
/// (`any_moment`), where the fact of the event was stored or was not; and a `take` that was out of memory, which leaves the
/// aggregator as it was (`leaves`). `core_calls_are_deeds` says the same of cores.
///
/// To forget is one too (`forgot`): `forget` made the new file of the old one (`forgets`), the host renamed it, and what was
/// opened is one of both. That a rename leaves one of both, even if the machine crashes in it, is a premise on the host.
pub fn round_calls_are_deeds<C: Compress, D: Disk, E: Disk>()
    ensures took { (me : ℕ) (plan : PlanState) (facts : List Fact) (forgotten : ℕ → Option (List Entry)) (old new : StoreState D) (asked live : RoundEvent) (step : Step) → IsStoreOf D.content D.images me plan facts old → MayTake (rounds_of old.aggregator) live →
        IsWritten plan me live → IsTakenAs forgotten (rounds_of old.aggregator) asked live → TookTurn C.image old.aggregator new.aggregator live step →
        HasStored D.content D.images step.fact old.log new.log → TookStep C.image me plan asked (running_in D.content old forgotten) (running_in D.content new forgotten) }
    ensures opened { (me : ℕ) (plan : PlanState) (file : List ℕ) (forgotten : ℕ → Option (List Entry)) (store : StoreState E) → OpensAs E.content E.images me plan file (Ok store) → WasOpened me plan (running_in E.content store forgotten) }
    ensures cut_off { (me : ℕ) (plan : PlanState) (facts : List Fact) (forgotten : ℕ → Option (List Entry)) (old new : StoreState D) (asked live : RoundEvent) (file : List ℕ) (store : StoreState E) → IsStoreOf D.content D.images me plan facts old → MayTake (rounds_of old.aggregator) live →
        IsWritten plan me live → IsTakenAs forgotten (rounds_of old.aggregator) asked live →
        LeavesOnly D.moment D.images_since old.log.disk new.log.disk (HasEither (D.content old.log.disk) (fact_added C.image old.aggregator live)) → D.images_since new.log.disk (D.moment old.log.disk) file →
        OpensAs E.content E.images me plan file (Ok store) → StaysOpened E.content file (Ok store) →
        (stored : Bool) × WasCutOff C.image me plan asked stored (running_in D.content old forgotten) (running_in E.content store forgotten) }
    ensures refused { (forgotten : ℕ → Option (List Entry)) (old new : StoreState D) → IsUnchanged old new → IsAsBefore (running_in D.content old forgotten) (running_in D.content new forgotten) }
    ensures forgot { (me : ℕ) (plan : PlanState) (facts : List Fact) (forgotten : ℕ → Option (List Entry)) (before records left : ℕ) (old : StoreState D) (file fresh named : List ℕ) (store : StoreState E) → IsStoreOf D.content D.images me plan facts old →
        D.images old.log.disk file → IsFileLeft me plan before file fresh records left → (named ≡ file) ⊎ (named ≡ fresh) → OpensAs E.content E.images me plan named (Ok store) → StaysOpened E.content named (Ok store) →
        TakesPart C.image me plan None true (running_in D.content old forgotten) (running_in E.content store forgotten) ⊎
        HasForgotten me plan before (running_in D.content old forgotten) (running_in E.content store (forgotten_with before facts forgotten)) }
{
    a_file_is_of_one_list_of_facts();
    stores_go_on::<C, D>();
}

/// An event that came by a line is written, as a store wants it. Each condition is a clause of `aggregator_line` of `ksi_wire`
/// (`text`, `exact`, `may`), of a line without a line feed.
pub fn read_events_are_written()
    ensures { (plan : PlanState) (me : ℕ) (line : Text) (event : RoundEvent) → IsLine line → line ≡ line_of (round_words event) → aggregator_line_of plan me line ≡ Ok (lines.Event event) → FitsRound event →
        IsWritten plan me event }
{}

/// An opening between two events, after a crash or none, is a restart: the file is as it was.
pub fn openings_are_restarts<C: Compress, D: Disk, E: Disk>()
    ensures core { (me : ℕ) (plan : CorePlanState) (facts : List core_facts.Fact) (forgotten : ℕ → Bool) (old : core_states.StoreState D) (file : List ℕ) (store : core_states.StoreState E) → core_states.IsStoreOf C.image D.content D.images me plan facts old →
        D.images old.log.disk file → core_opens.OpensAs C.image E.content E.images me plan file (Ok store) → core_opens.StaysOpened E.content file (Ok store) →
        core_node.TakesPart C.image me plan None true (core_node.running_in D.content old forgotten) (core_node.running_in E.content store forgotten) }
    ensures aggregator { (me : ℕ) (plan : PlanState) (facts : List Fact) (forgotten : ℕ → Option (List Entry)) (old : StoreState D) (file : List ℕ) (store : StoreState E) → IsStoreOf D.content D.images me plan facts old → D.images old.log.disk file →
        OpensAs E.content E.images me plan file (Ok store) → StaysOpened E.content file (Ok store) → TakesPart C.image me plan None true (running_in D.content old forgotten) (running_in E.content store forgotten) }
{}

/// Nodes that crash have a history. Over any run of events, failures, crashes and openings, each core and each aggregator keeps
/// what it keeps after the history of the run's events, and its file has the facts that it stored there, but for what it forgot. An event that was cut
/// off happened in that history if its fact was stored, and its node restarts; nothing else is changed. An aggregator's
/// requests have numbers of its own: its rounds and its facts are those of the history under other numbers, no two of which
/// are one.
///
/// Aggregators may forget rounds meanwhile. A round that an aggregator forgot is settled in the history, and closed without items
/// here; of its facts the closing is left. A number of a request in such a round counts as used: no later request has it.
///
/// Cores may forget seconds. A second that a core forgot is held in the history, and here only its root is left, as of its facts.
/// The core takes no event of it but `Tell` and `Publish`: any other did not come.
///
/// The messages that a node hands out are those of the history's wire, at their place. Those of an event that was cut off were
/// never handed out: if the wire has them, they are lost ones. What a core answers is what the history answers, and what an
/// aggregator answers is that with its own numbers. And so what holds after every history holds of nodes that
/// crash: two cores that hold a root for a second hold the same, and what a live aggregator issues is issued of a request of the
/// history, the one that has its number there.
pub fn crashed_nodes_have_a_history()
    ensures first_core { (image : List ℕ → List ℕ) (plan : PlanState) → IsPlan plan → (j : ℕ) (running : core_node.Running) → j < plan.cores → core_stores.IsFileOf j (core_plan_of plan) [] running.file →
        core_node.WasOpened image j (core_plan_of plan) running → running.forgotten ≡ core_node.nothing → core_node.IsCoreAfter image plan [] j running }
    ensures first_aggregator { (image : List ℕ → List ℕ) (plan : PlanState) → IsPlan plan → (k : ℕ) (running : Running) → IsFileOf k plan [] running.file → WasOpened k plan running → running.forgotten ≡ nothing → IsAggregatorAfter image plan [] k running }
    ensures run { (image : List ℕ → List ℕ) (plan : PlanState) → IsPlan plan → (deeds : List Deed) (before : List Event) (old new : Nodes) → AreEvents plan before → AreNodesAfter image plan before old →
        Runs image plan before deeds old new → AreEvents plan (before ++ all_events deeds) × AreNodesAfter image plan (before ++ all_events deeds) new }
    ensures core_messages { (image : List ℕ → List ℕ) (plan : PlanState) → IsPlan plan → (before : List Event) (event : Event) (j : ℕ) (old new : core_node.Running) (asked : CoreEvent) → core_node.IsCoreAfter image plan before j old →
        asked_of j (after image plan before).wire event ≡ Some asked → (took : core_node.TookStep image j (core_plan_of plan) asked old new) →
        (after image plan (before ++ event ∷ [])).wire ≡ (after image plan before).wire ++ map (core_message j (core_events.event_second asked)) took.step.sends }
    ensures aggregator_messages { (image : List ℕ → List ℕ) (plan : PlanState) → IsPlan plan → (before : List Event) (event : Event) (k : ℕ) (old new : Running) (asked : RoundEvent) → AreEvents plan before → IsEvent plan event →
        IsAggregatorAfter image plan before k old → round_asked_of k (after image plan before) event ≡ Some asked → (took : TookStep image k plan asked old new) →
        (after image plan (before ++ event ∷ [])).wire ≡ (after image plan before).wire ++ map (round_message plan k (event_second asked)) took.step.sends }
    ensures core_answers { (image : List ℕ → List ℕ) (plan : PlanState) → IsPlan plan → (before : List Event) (event : Event) (j : ℕ) (old new : core_node.Running) (asked : CoreEvent) → core_node.IsCoreAfter image plan before j old →
        asked_of j (after image plan before).wire event ≡ Some asked → (took : core_node.TookStep image j (core_plan_of plan) asked old new) →
        took.step.answer ≡ (happens image plan (after image plan before) event).outcome.answer }
    ensures answers { (image : List ℕ → List ℕ) (plan : PlanState) → IsPlan plan → (before : List Event) (event : Event) (k : ℕ) (old new : Running) (asked : RoundEvent) → AreEvents plan before → IsEvent plan event →
        IsAggregatorAfter image plan before k old → round_asked_of k (after image plan before) event ≡ Some asked → (took : TookStep image k plan asked old new) →
        (next : IsAggregatorAfter image plan (before ++ event ∷ []) k new) × (took.step.answer ≡ answer_renamed next.name (happens image plan (after image plan before) event).outcome.answer) }
    ensures agree { (image : List ℕ → List ℕ) (plan : PlanState) → IsPlan plan → (events : List Event) (one other second : ℕ) (running others : core_node.Running) (root found : List ℕ) → AreEvents plan events →
        core_node.IsCoreAfter image plan events one running → core_node.IsCoreAfter image plan events other others → held_by running.core second ≡ Some root → held_by others.core second ≡ Some found → root ≡ found }
    ensures issued { (image : List ℕ → List ℕ) (plan : PlanState) (events : List Event) (k : ℕ) (running : Running) (number : ℕ) (text : List ℕ) → (is : IsAggregatorAfter image plan events k running) →
        IsIssued image (rounds_of running.aggregator) number text → (request : ℕ) × (is.name request ≡ number) × (issued_of image (after image plan events) request ≡ Some text) }
{
    a_file_is_of_one_list_of_facts();
    forgetful_cores_have_a_history();
    facts_left_are_lawful();
    facts_one_by_one();
    numbers_are_names();
    one_aggregator_of_facts();
    rounds_are_turns();
    rows_add_what_they_store();
    settled_rounds_stay();
    step_is_by_facts();
    steps_are_lawful();
    world_is_seen();
}

/// An aggregator is a node in general, whose state is its rounds. So the lemmas of `ksi_disk` (`specs/Restarting`) hold of it:
/// a crash is a restart (`crash_is_a_restart`), and any run of one aggregator has a history (`crashes_are_restarts`).
pub fn an_aggregator_is_a_node()
    ensures { (image : List ℕ → List ℕ) (me : ℕ) → IsAggregatorNode image me }
{
    one_aggregator_of_facts();
    steps_are_lawful();
}

/// What holds over every history holds of nodes that crash: the events of a run are a history, where requests ask for imprints of
/// bytes and there are fewer than 2^64 events; and so everything of `HoldsOver` follows, where what is hashed are imprints, of
/// bytes, as those of SHA-256 are. It is said of the history, and each node is one of it: what a core holds, a core of the history
/// holds; what a live aggregator issues lasts, as what is issued of its request there does; and the root that a core answers to
/// `publish` is the calendar's at the end.
pub fn histories_of_crashed_nodes_hold()
    ensures history { (image : List ℕ → List ℕ) (plan : PlanState) → IsPlan plan → (deeds : List Deed) (before : List Event) (old new : Nodes) → AreEvents plan before → AreNodesAfter image plan before old →
        Runs image plan before deeds old new → AskForFew (before ++ all_events deeds) → IsHistory (history_of plan (before ++ all_events deeds)) }
    ensures holds { (image : List ℕ → List ℕ) (plan : PlanState) → ((bytes : List ℕ) → IsImprint (image bytes)) → ((bytes : List ℕ) → AreBytes (image bytes)) → IsPlan plan →
        (deeds : List Deed) (before : List Event) (old new : Nodes) → AreEvents plan before → AreNodesAfter image plan before old → Runs image plan before deeds old new →
        AskForFew (before ++ all_events deeds) → HoldsOver image (history_of plan (before ++ all_events deeds)) }
    ensures held { (image : List ℕ → List ℕ) (plan : PlanState) (events : List Event) (j : ℕ) (running : core_node.Running) → core_node.IsCoreAfter image plan events j running →
        (second : ℕ) → held_by running.core second ≡ held_in (after image plan events) j second }
    ensures lasts { (image : List ℕ → List ℕ) (plan : PlanState) → ((bytes : List ℕ) → IsImprint (image bytes)) → ((bytes : List ℕ) → AreBytes (image bytes)) → (events : List Event) → IsHistory (history_of plan events) →
        (k : ℕ) (running : Running) (number : ℕ) (text : List ℕ) → (is : IsAggregatorAfter image plan events k running) → IsIssued image (rounds_of running.aggregator) number text →
        (request : ℕ) × (is.name request ≡ number) × Lasts image (history_of plan events) (journal_of image (history_of plan events)) request text }
    ensures published { (image : List ℕ → List ℕ) (plan : PlanState) → ((bytes : List ℕ) → IsImprint (image bytes)) → ((bytes : List ℕ) → AreBytes (image bytes)) → (before later : List Event) →
        IsHistory (history_of plan (before ++ later)) → (j p : ℕ) (old new : core_node.Running) (root : List ℕ) → j < plan.cores → plan.start ≤ p → core_node.IsCoreAfter image plan before j old →
        (took : core_node.TookStep image j (core_plan_of plan) (core_asked.Publish p) old new) → took.step.answer ≡ Published root →
        IsPublished image (journal_of image (history_of plan (before ++ later))) p root }
{
    all_holds();
    crashed_nodes_have_a_history();
    forgetful_cores_have_a_history();
}
