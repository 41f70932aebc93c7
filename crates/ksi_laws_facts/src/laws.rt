//! The laws. None of these functions does anything.
ghost use Rattle.ksi_schedule.specs.Plans.{core_plan_of};
ghost use Rattle.std.specs.Prelude.{◌≡◌, ◌++◌, ◌∷◌, [], ℕ, List, Option, Some};
ghost use Rattle.ksi_aggtree.specs.declared.entries.Entry.{Entry};
ghost use Rattle.ksi_aggtree.specs.declared.item.Item.{Item};
ghost use Rattle.ksi_calendar.specs.Covered.{Roots};
ghost use Rattle.ksi_signature.specs.declared.above.Above.{Above};
ghost use Rattle.ksi_synod.specs.declared.messages.SynodMessage.{SynodMessage};
ghost use Rattle.ksi_synod.specs.VoteState.{Hand};
ghost use Rattle.ksi_synod.specs.CorePlans.{CorePlanState, voters_of};
ghost use Rattle.ksi_corenode.specs.SecondState.{SecondState};
ghost use Rattle.ksi_corenode.specs.Turns.{Turn};
ghost use Rattle.ksi_corenode.specs.Rows.{submission_row, seal_row, ballot_row, receive_row, tell_row, respond_row};
ghost use Rattle.ksi_corenode.specs.CoreState as cores;
ghost use Rattle.ksi_corenode.specs.CoreState.{CoreState, state_of};
ghost use Rattle.ksi_corenode.specs.declared.step.Step as core_step;
ghost use Rattle.ksi_aggregator.specs.Rows.{RoundState, RoundTurn, round_request, round_submission, round_close, round_response};
ghost use Rattle.ksi_aggregator.specs.Rounds as rounds;
ghost use Rattle.ksi_aggregator.specs.declared.step.Step as round_step;
ghost use Rattle.ksi_schedule.specs.declared.actor.Actor.{Actor};
ghost use Rattle.ksi_schedule.specs.declared.actor.Actor.TheVariants as actors;
ghost use Rattle.ksi_schedule.specs.declared.event.Event.{Event};
ghost use Rattle.ksi_schedule.specs.declared.event.Event.TheVariants as happenings;
ghost use Rattle.ksi_schedule.specs.Plans.{PlanState, IsPlan};
ghost use Rattle.ksi_schedule.specs.Events.{History};
ghost use Rattle.ksi_world.specs.Histories.{world_of, after};
ghost use Rattle.ksi_laws_facts.specs.Seen.{seen};
ghost use Rattle.ksi_laws_facts.specs.Deeds.{Deed, of_second, deeds, facts, open_items, tried_ballot};
ghost use Rattle.ksi_laws_facts.specs.Since.{since};
ghost use Rattle.ksi_laws_facts.specs.State.{own_candidate, world_seen};
ghost use Rattle.ksi_laws_facts.specs.Steps.{new_facts, new_round_facts, IsStepByFacts};
ghost use Rattle.ksi_laws_facts.specs.Stored.{AddsStored, RoundAddsStored, core_stores, round_stores};
ghost use Rattle.ksi_laws_facts.specs.Recalled.{IsStableState, IsStableRound, IsInHand, IsRecalled};

use ksi_corenode::laws::rows_store_their_facts;
use ksi_synod::laws::voters_are_cores;

/// Facts are only added, whatever happens later, and a restart adds none.
pub fn facts_only_grow()
    ensures grow { (image : List ℕ → List ℕ) (plan : PlanState) (actor : Actor) (events later : List Event) →
        (more : List Deed) × (facts actor (seen image plan (events ++ later)) ≡ more ++ facts actor (seen image plan events)) }
    ensures core { (image : List ℕ → List ℕ) (plan : PlanState) (actor : Actor) (events : List Event) (core : ℕ) →
        facts actor (seen image plan (events ++ happenings.RestartCore core ∷ [])) ≡ facts actor (seen image plan events) }
    ensures aggregator { (image : List ℕ → List ℕ) (plan : PlanState) (actor : Actor) (events : List Event) (aggregator : ℕ) →
        facts actor (seen image plan (events ++ happenings.RestartAggregator aggregator ∷ [])) ≡ facts actor (seen image plan events) }
{}

/// What a core and an aggregator keep over restarts is read off the facts.
pub fn state_is_facts()
    ensures seconds { (image : List ℕ → List ℕ) (history : History) → IsPlan history.plan → (core second : ℕ) →
        IsStableState image (of_second second (facts (actors.Core core) (seen image history.plan history.events)))
        ((world_of image history).seconds core second) }
    ensures rounds { (image : List ℕ → List ℕ) (history : History) → IsPlan history.plan → (aggregator second : ℕ) →
        IsStableRound (of_second second (facts (actors.Aggregator aggregator) (seen image history.plan history.events)))
        ((world_of image history).rounds aggregator second) }
{
    voters_are_cores();
}

/// The open items are those that were accepted since the second was sealed or closed, or its actor was restarted. There are
/// none once it is sealed or closed.
pub fn open_is_accepted()
    ensures seconds { (image : List ℕ → List ℕ) (history : History) → IsPlan history.plan → (core second : ℕ) →
        ((world_of image history).seconds core second).open_items ≡
        open_items (of_second second (deeds (actors.Core core) (seen image history.plan history.events))) }
    ensures rounds { (image : List ℕ → List ℕ) (history : History) → IsPlan history.plan → (aggregator second : ℕ) →
        ((world_of image history).rounds aggregator second).open_items ≡
        open_items (of_second second (deeds (actors.Aggregator aggregator) (seen image history.plan history.events))) }
    ensures sealed { (image : List ℕ → List ℕ) (history : History) → IsPlan history.plan → (core second : ℕ) (items : List Entry) →
        ((world_of image history).seconds core second).sealed ≡ Some items → ((world_of image history).seconds core second).open_items ≡ [] }
    ensures closed { (image : List ℕ → List ℕ) (history : History) → IsPlan history.plan → (aggregator second : ℕ) (items : List Entry) →
        ((world_of image history).rounds aggregator second).closed ≡ Some items → ((world_of image history).rounds aggregator second).open_items ≡ [] }
{
    voters_are_cores();
}

/// The ballot in hand has what came since the core tried it, and is the one that it tried last. There is none where it tried
/// none, or was restarted after it.
pub fn hand_is_since()
    ensures ballot { (image : List ℕ → List ℕ) (history : History) → IsPlan history.plan → (core second : ℕ) (hand : Hand) →
        ((world_of image history).seconds core second).vote.hand ≡ Some hand →
        hand.ballot ≡ tried_ballot (of_second second (facts (actors.Core core) (seen image history.plan history.events))) }
    ensures hand { (image : List ℕ → List ℕ) (history : History) → IsPlan history.plan → (core second : ℕ) →
        IsInHand (voters_of (core_plan_of history.plan) second)
        (own_candidate image (of_second second (facts (actors.Core core) (seen image history.plan history.events))))
        (since (of_second second (deeds (actors.Core core) (seen image history.plan history.events))))
        ((world_of image history).seconds core second).vote.hand }
{
    voters_are_cores();
}

/// At each moment the world is the one that is read off what was seen by then: each second and each round, the wire, the
/// requests and the publications.
pub fn world_is_seen()
    ensures { (image : List ℕ → List ℕ) (plan : PlanState) → IsPlan plan → (events : List Event) →
        after image plan events ≡ world_seen image plan (seen image plan events) }
{
    voters_are_cores();
}

/// The answer of each event, the facts that it adds and the messages that it sends are those of its row of the step table,
/// for the state that is read off the facts before it and what came since.
pub fn step_is_by_facts()
    ensures { (image : List ℕ → List ℕ) (plan : PlanState) → IsPlan plan → (before : List Event) (event : Event) →
        IsStepByFacts image plan before event }
{
    voters_are_cores();
}

/// All of these together: whatever an actor keeps after a history is what was seen of it, each step is the one of the table
/// over what was seen before it, and an actor's facts are those of each earlier moment and more.
pub fn history_is_recalled()
    ensures { (image : List ℕ → List ℕ) (history : History) → IsPlan history.plan → IsRecalled image history }
{
    voters_are_cores();
}

/// The facts that a row of the step table adds are what its turn stores.
pub fn rows_add_what_they_store()
    ensures submission { (from : ℕ) (item : Item) (s : SecondState) → AddsStored s (submission_row from item s) }
    ensures seal { (image : List ℕ → List ℕ) (s : SecondState) → AddsStored s (seal_row image s) }
    ensures ballot { (plan : CorePlanState) (second me : ℕ) (s : SecondState) → AddsStored s (ballot_row plan second me s) }
    ensures receive { (plan : CorePlanState) (second from : ℕ) (m : SynodMessage) (s : SecondState) → AddsStored s (receive_row plan second from m s) }
    ensures tell { (plan : CorePlanState) (second me : ℕ) (s : SecondState) → AddsStored s (tell_row plan second me s) }
    ensures respond { (image : List ℕ → List ℕ) (held : Roots) (start second : ℕ) (s : SecondState) → AddsStored s (respond_row image held start second s) }
    ensures request { (number : ℕ) (imprint : List ℕ) (name : Option (List ℕ)) (r : RoundState) → RoundAddsStored r (round_request number imprint name r) }
    ensures item { (from : ℕ) (item : Item) (r : RoundState) → RoundAddsStored r (round_submission from item r) }
    ensures close { (image : List ℕ → List ℕ) (r : RoundState) → RoundAddsStored r (round_close image r) }
    ensures response { (image : List ℕ → List ℕ) (above : Above) (r : RoundState) → RoundAddsStored r (round_response image above r) }
{
    rows_store_their_facts();
}

/// So do the steps: the facts that the step of a core or of an aggregator adds for a second are its fact, where that is of
/// this second, and none elsewhere.
pub fn steps_add_what_they_store()
    ensures core { (old new : CoreState) (second : ℕ) (turn : Turn) (step : core_step.Step) → cores.IsTurn old new second turn step → AddsStored (state_of old second) turn →
        (t : ℕ) → new_facts (state_of old t) (state_of new t) ≡ core_stores step.fact t }
    ensures aggregator { (old new : ℕ → RoundState) (second : ℕ) (turn : RoundTurn) (step : round_step.Step) → rounds.IsTurn old new second turn step → RoundAddsStored (old second) turn →
        (t : ℕ) → new_round_facts (old t) (new t) ≡ round_stores step.fact t }
{}
