//! What holds after every history of a plan: whichever messages are lost, repeated, late or out of order, and whichever
//! nodes restart, at any moment. Each law is the contract of a function that does nothing.
ghost use Rattle.std.specs.Prelude.{◌≡◌, ◌≢◌, ◌==◌, ◌<◌, ◌≤◌, ◌^◌, ◌++◌, if◌then◌else◌, map, ℕ, List, length, slice_get, Some, IfSome, None, true, false};
ghost use Rattle.std.specs.List.{AllByRecursion};
ghost use Rattle.ksi_tlv.specs.Spelling.{AreBytes};
ghost use Rattle.ksi_imprint.specs.Imprints.{IsImprint, zero_imprint};
ghost use Rattle.ksi_schedule.specs.declared.event.Event.{Event};
ghost use Rattle.ksi_schedule.specs.Plans.{PlanState, IsPlan, InRange};
ghost use Rattle.ksi_schedule.specs.Events.{History, AreEvents, AskForImprints, IsEvent};
ghost use Rattle.ksi_schedule.specs.Schedules.{IsHistory};
ghost use Rattle.ksi_world.specs.declared.outcome.Asked.{Asked};
ghost use Rattle.ksi_world.specs.Lasting.{AreSecondsOf, AreSubmitted, IsAskedOf};
ghost use Rattle.ksi_world.specs.Histories.{WorldState, held_in, after, core_message, round_message, world_of, happens};
ghost use Rattle.ksi_signature.specs.Carried.{MayBeIssued};
ghost use Rattle.ksi_signature.specs.declared.answer.Answer.TheVariants.{Published};
ghost use Rattle.ksi_corenode.specs.Rows.{publish_answer, restart_row};
ghost use Rattle.ksi_world.specs.Chosen.{IsChosen};
ghost use Rattle.ksi_world.specs.Joined.{IsKeptRoot, IsJoined};
ghost use Rattle.ksi_world.specs.Records.{issued_of, issued_all, kept_root, kept_seconds};
ghost use Rattle.ksi_world.specs.Validity.{IsProposed, IsKept, HasImprints, EachKept, AreRising, AreTimes};
ghost use Rattle.ksi_world.specs.Wire.{ResponsesClimb};
ghost use Rattle.ksi_aggtree.specs.declared.entries.Entry.{Entry};
ghost use Rattle.ksi_aggtree.specs.Entries.{items_of};
ghost use Rattle.ksi_aggtree.specs.Names.{IsName};
ghost use Rattle.ksi_aggtree.specs.Rounds.{IsRound};
ghost use Rattle.ksi_corenode.specs.CoreState.{CoreState, state_of, IsTurn};
ghost use Rattle.ksi_corenode.specs.Events.{core_row, event_second, IsAsked, MayTake};
ghost use Rattle.ksi_corenode.specs.Owners.{BringsOwned};
ghost use Rattle.ksi_corenode.specs.declared.event.CoreEvent as asked;
ghost use Rattle.ksi_corenode.specs.declared.step.Step.{Step};
ghost use Rattle.ksi_world.specs.Nodes.{core_turn, IsCore};
ghost use Rattle.ksi_world.specs.CoreEvents.{asked_of, is_restart_of};
ghost use Rattle.ksi_aggregator.specs.declared.event.RoundEvent.{RoundEvent};
ghost use Rattle.ksi_aggregator.specs.Events as rounds;
ghost use Rattle.ksi_aggregator.specs.Issuing.{IsIssued};
ghost use Rattle.ksi_aggregator.specs.Rows.{round_restarted};
ghost use Rattle.ksi_world.specs.RoundEvents.{round_asked_of, is_restart_of_aggregator, round_turn};

use ksi_aggtree::chains::laws::levels_rise;
use ksi_aggtree::laws::{metas_are_even, one_chain, one_round};
use ksi_calendar::laws::one_chain as calendar_chain;
use ksi_imprint::Imprint;
use ksi_signature::laws::{issued_is_bytes, issued_is_signature};
use ksi_split::trees::one_path;
use ksi_synod::laws::{rows_keep_states, steps_agree};

/// Agreement: two cores that hold a root for a second hold the same.
pub fn agreement()
    ensures { (image : List ℕ → List ℕ) (history : History) → IsPlan history.plan → AreEvents history.plan history.events →
        (one other second : ℕ) (d e : List ℕ) → held_in (world_of image history) one second ≡ Some d →
        held_in (world_of image history) other second ≡ Some e → d ≡ e }
{
    steps_agree();
}

/// Chosen: where a majority of a second's voters cast one vote in one ballot, no other root is ever held for it, at this
/// moment or later. It is enough that the messages were sent, whatever is lost of them.
pub fn chosen()
    ensures { (image : List ℕ → List ℕ) (plan : PlanState) (before later : List Event) → IsPlan plan → AreEvents plan (before ++ later) →
        (second ballot : ℕ) (root : List ℕ) → IsChosen plan (after image plan before) second ballot root →
        (core : ℕ) (e : List ℕ) → held_in (after image plan (before ++ later)) core second ≡ Some e → e ≡ root }
{
    ksi_synod::laws::chosen();
}

/// Validity: a held root other than the zero imprint is the candidate of a core of the plan that sealed items for this
/// second, at least one. Roots are held for seconds of the plan alone.
pub fn validity()
    ensures root { (image : List ℕ → List ℕ) (history : History) → IsPlan history.plan → AreEvents history.plan history.events →
        (core second : ℕ) (root : List ℕ) → held_in (world_of image history) core second ≡ Some root → root ≢ zero_imprint →
        IsProposed image history.plan (world_of image history) second root }
    ensures range { (image : List ℕ → List ℕ) (history : History) → IsPlan history.plan → AreEvents history.plan history.events →
        (core second : ℕ) (root : List ℕ) → held_in (world_of image history) core second ≡ Some root → InRange history.plan second }
    ensures kept { (image : List ℕ → List ℕ) (history : History) → IsPlan history.plan → AreEvents history.plan history.events →
        (second : ℕ) (root : List ℕ) → kept_root history.plan (world_of image history) second ≡ Some root → InRange history.plan second }
{
    one_round();
    steps_agree();
}

/// The list of all issued signatures has each of them once, and the numbers of their requests rise.
pub fn all_issued()
    ensures are { (image : List ℕ → List ℕ) (w : WorldState) (k : ℕ) (x : ℕ × List ℕ) →
        slice_get (issued_all image w) k ≡ Some x → issued_of image w x.0 ≡ Some x.1 }
    ensures there { (image : List ℕ → List ℕ) (w : WorldState) (number : ℕ) (text : List ℕ) →
        issued_of image w number ≡ Some text → (k : ℕ) × (slice_get (issued_all image w) k ≡ Some (number, text)) }
    ensures rising { (image : List ℕ → List ℕ) (w : WorldState) (j k : ℕ) (x y : ℕ × List ℕ) → j < k →
        slice_get (issued_all image w) j ≡ Some x → slice_get (issued_all image w) k ≡ Some y → x.0 < y.0 }
{}

/// Each pair that was published, at any moment, is a second of the plan and the root of the calendar to it over what is
/// kept at the end, whichever core published it. All seconds up to it are kept.
pub fn published_roots()
    ensures { (image : List ℕ → List ℕ) (plan : PlanState) (before later : List Event) → IsPlan plan → AreEvents plan (before ++ later) →
        (k p : ℕ) (root : List ℕ) → slice_get (after image plan before).published k ≡ Some (p, root) →
        IsKeptRoot image plan (after image plan (before ++ later)) p root }
{
    steps_agree();
}

/// What a core holds at some moment, it holds ever after.
pub fn held_stays()
    ensures { (image : List ℕ → List ℕ) (plan : PlanState) (before later : List Event) (core second : ℕ) (root : List ℕ) →
        held_in (after image plan before) core second ≡ Some root →
        held_in (after image plan (before ++ later)) core second ≡ Some root }
{}

/// What any core answers to `publish` with a root, at any moment, is a second that is covered by what is kept at the end,
/// with the root of the calendar to it.
pub fn answered_roots()
    ensures { (image : List ℕ → List ℕ) (plan : PlanState) (before later : List Event) → IsPlan plan → AreEvents plan (before ++ later) →
        (core p : ℕ) (root : List ℕ) → core < plan.cores → plan.start ≤ p →
        publish_answer image (held_in (after image plan before) core) plan.start p ≡ Published root →
        IsKeptRoot image plan (after image plan (before ++ later)) p root }
{
    steps_agree();
}

/// Joined: what is issued of a request is a signature whose chains climb from the request's imprint, at level 0, to the
/// root that is kept for its second, and whose calendar chain leads from there to the calendar of this second.
pub fn issued_is_joined()
    ensures { (image : List ℕ → List ℕ) (history : History) → IsPlan history.plan → AreEvents history.plan history.events →
        (number : ℕ) (text : List ℕ) → issued_of image (world_of image history) number ≡ Some text →
        IsJoined image history.plan (world_of image history) number text }
{
    one_round();
    one_chain();
    steps_agree();
}

/// Where each request is for an imprint, and what is hashed are imprints, what is issued is joined, and its parts are of
/// imprints and within a signature's limits; and what is kept for a second is an imprint.
pub fn issued_is_carried()
    ensures issued { (image : List ℕ → List ℕ) (history : History) → ((bytes : List ℕ) → IsImprint (image bytes)) →
        IsPlan history.plan → AreEvents history.plan history.events → AskForImprints history.events →
        (number : ℕ) (text : List ℕ) → issued_of image (world_of image history) number ≡ Some text →
        (joined : IsJoined image history.plan (world_of image history) number text) ×
        MayBeIssued joined.asked.second joined.asked.imprint joined.links joined.above }
    ensures kept { (image : List ℕ → List ℕ) (history : History) → ((bytes : List ℕ) → IsImprint (image bytes)) →
        IsPlan history.plan → AreEvents history.plan history.events → AskForImprints history.events →
        (second : ℕ) (root : List ℕ) → kept_root history.plan (world_of image history) second ≡ Some root → IsImprint root }
{
    one_round();
    one_chain();
    metas_are_even();
    levels_rise();
    one_path::<Imprint>();
    steps_agree();
}

/// Each Response that was ever sent leads from the item of its addressee's round to a root that is held: the aggregation
/// chains climb from that item, at its level, to the root; a core holds it for this second, as the sender does where that is
/// a core; and the calendar chain leads on from there to the root of the calendar to this second. It is never the zero
/// imprint. There are at most 8 chains of at most 17 links, at levels to 153.
pub fn responses_climb()
    ensures { (image : List ℕ → List ℕ) (history : History) → ((bytes : List ℕ) → IsImprint (image bytes)) →
        IsPlan history.plan → AreEvents history.plan history.events → AskForImprints history.events →
        ResponsesClimb image history.plan (world_of image history) }
{
    one_round();
    one_chain();
    metas_are_even();
    levels_rise();
    calendar_chain();
    one_path::<Imprint>();
}

/// What is issued of a request has at most 10,000 bytes, where each request is for an imprint, and what is hashed are
/// imprints.
pub fn issued_is_short()
    ensures { (image : List ℕ → List ℕ) (history : History) → ((bytes : List ℕ) → IsImprint (image bytes)) →
        IsPlan history.plan → AreEvents history.plan history.events → AskForImprints history.events →
        (number : ℕ) (text : List ℕ) → issued_of image (world_of image history) number ≡ Some text → length text ≤ 10000 }
{
    issued_is_carried();
    issued_is_signature();
}

/// What is issued of a request are bytes, and so are the roots that are kept, where what is hashed, and what requests ask
/// for, are imprints of bytes.
pub fn history_is_of_bytes()
    ensures issued { (image : List ℕ → List ℕ) (history : History) →
        ((bytes : List ℕ) → IsImprint (image bytes)) → ((bytes : List ℕ) → AreBytes (image bytes)) → IsHistory history →
        (number : ℕ) (text : List ℕ) → issued_of image (world_of image history) number ≡ Some text → AreBytes text }
    ensures kept { (image : List ℕ → List ℕ) (history : History) → ((bytes : List ℕ) → AreBytes (image bytes)) → IsHistory history →
        EachKept (λ kept. AreBytes kept.root) (kept_seconds image history.plan (world_of image history)) }
{
    one_round();
    one_chain();
    metas_are_even();
    levels_rise();
    one_path::<Imprint>();
    steps_agree();
    issued_is_bytes();
    issued_is_signature();
}

/// The kept seconds rise from the start and are below 2^63; each was missed or has a tree of items; and their roots and
/// items are imprints, where each request is for one, and what is hashed are imprints.
pub fn kept_is_listed()
    ensures rising { (image : List ℕ → List ℕ) (history : History) → IsPlan history.plan → AreEvents history.plan history.events →
        AreRising history.plan.start (kept_seconds image history.plan (world_of image history)) }
    ensures early { (image : List ℕ → List ℕ) (history : History) → IsPlan history.plan → AreEvents history.plan history.events →
        EachKept (λ one. one.second < 2 ^ 63) (kept_seconds image history.plan (world_of image history)) }
    ensures trees { (image : List ℕ → List ℕ) (history : History) → IsPlan history.plan → AreEvents history.plan history.events →
        EachKept (IsKept image) (kept_seconds image history.plan (world_of image history)) }
    ensures imprints { (image : List ℕ → List ℕ) (history : History) → ((bytes : List ℕ) → IsImprint (image bytes)) →
        IsPlan history.plan → AreEvents history.plan history.events → AskForImprints history.events →
        EachKept HasImprints (kept_seconds image history.plan (world_of image history)) }
{
    one_round();
    one_chain();
    metas_are_even();
    levels_rise();
    one_path::<Imprint>();
    steps_agree();
}

/// The published seconds rise from the start and are below 2^63; and their roots are imprints, where each request is for
/// one, and what is hashed are imprints.
pub fn published_is_listed()
    ensures rising { (image : List ℕ → List ℕ) (history : History) → IsPlan history.plan → AreEvents history.plan history.events →
        AreTimes history.plan.start (2 ^ 63) (world_of image history).published }
    ensures imprints { (image : List ℕ → List ℕ) (history : History) → ((bytes : List ℕ) → IsImprint (image bytes)) →
        IsPlan history.plan → AreEvents history.plan history.events → AskForImprints history.events →
        AllByRecursion (λ pair. IsImprint pair.1) (world_of image history).published }
{
    one_round();
    one_chain();
    metas_are_even();
    levels_rise();
    one_path::<Imprint>();
    steps_agree();
}

/// No more requests are accepted than events happen.
#[tactic(auto, using(crate::proofs::Counting::accepted_few))]
pub fn requests_are_few()
    ensures { (image : List ℕ → List ℕ) (history : History) → length (world_of image history).requests ≤ length history.events }
{}

/// What a core sealed for a second at some moment, it has sealed for it ever after: one list at each later moment.
pub fn sealed_stays()
    ensures { (image : List ℕ → List ℕ) (plan : PlanState) (before later : List Event) (core second : ℕ) (entries : List Entry) →
        ((after image plan before).seconds core second).sealed ≡ Some entries →
        ((after image plan (before ++ later)).seconds core second).sealed ≡ Some entries }
{}

/// What is sealed is so by a core of the plan, for a second of the plan: at most 65,536 items, whose leaves have levels to
/// 239; and their imprints are imprints and their names names, where each request is for an imprint, and what is hashed are
/// imprints.
pub fn sealed_is_listed()
    ensures core { (image : List ℕ → List ℕ) (history : History) → IsPlan history.plan → AreEvents history.plan history.events →
        (core second : ℕ) (entries : List Entry) → ((world_of image history).seconds core second).sealed ≡ Some entries →
        core < history.plan.cores }
    ensures range { (image : List ℕ → List ℕ) (history : History) → AreEvents history.plan history.events →
        (core second : ℕ) (entries : List Entry) → ((world_of image history).seconds core second).sealed ≡ Some entries →
        InRange history.plan second }
    ensures round { (image : List ℕ → List ℕ) (history : History) → IsPlan history.plan → AreEvents history.plan history.events →
        (core second : ℕ) (entries : List Entry) → ((world_of image history).seconds core second).sealed ≡ Some entries →
        IsRound (items_of entries) }
    ensures imprints { (image : List ℕ → List ℕ) (history : History) → ((bytes : List ℕ) → IsImprint (image bytes)) →
        IsPlan history.plan → AreEvents history.plan history.events → AskForImprints history.events →
        (core second : ℕ) (entries : List Entry) → ((world_of image history).seconds core second).sealed ≡ Some entries →
        AllByRecursion (λ item. IsImprint item.imprint × IfSome item.name IsName) (items_of entries) }
{
    one_round();
    one_chain();
    metas_are_even();
    levels_rise();
    one_path::<Imprint>();
    steps_agree();
}

/// A core may be asked whatever an event asks of it: the core may take it, and its second is at or after the start and
/// below 2^63. The ballot that it brings, if any, is of a core of the plan. A core that keeps what the world keeps of it,
/// and takes that, keeps what the world keeps then. The world's second of the core is that of its turn, and the turn's
/// messages follow all that were sent before; nothing is asked of another core. An event that asks nothing of a core
/// leaves it, or restarts it.
pub fn events_are_turns()
    ensures may { (image : List ℕ → List ℕ) (plan : PlanState) (before : List Event) → IsPlan plan → AreEvents plan before → (core : ℕ) (event : Event) (one : asked.CoreEvent) → IsEvent plan event →
        asked_of core (after image plan before).wire event ≡ Some one → (it : CoreState) → it.start ≡ plan.start → MayTake it one × IsAsked it (event_second one) }
    ensures owned { (image : List ℕ → List ℕ) (plan : PlanState) (before : List Event) → IsPlan plan → AreEvents plan before → (core : ℕ) (event : Event) (one : asked.CoreEvent) →
        asked_of core (after image plan before).wire event ≡ Some one → BringsOwned plan.cores one }
    ensures row { (image : List ℕ → List ℕ) (plan : PlanState) (w : WorldState) (core : ℕ) (it : CoreState) (one : asked.CoreEvent) → IsCore plan (w.seconds core) core it →
        core_row image it one ≡ core_turn image plan w core one }
    ensures turn { (image : List ℕ → List ℕ) (plan : PlanState) (w : WorldState) (core : ℕ) (event : Event) (one : asked.CoreEvent) (old new : CoreState) (step : Step) → asked_of core w.wire event ≡ Some one →
        IsCore plan (w.seconds core) core old → IsTurn old new (event_second one) (core_row image old one) step → (t : ℕ) → state_of new t ≡ (happens image plan w event).world.seconds core t }
    ensures seconds { (image : List ℕ → List ℕ) (plan : PlanState) (w : WorldState) (core : ℕ) (event : Event) (one : asked.CoreEvent) → asked_of core w.wire event ≡ Some one →
        (t : ℕ) → (happens image plan w event).world.seconds core t ≡ (if t == event_second one then (core_turn image plan w core one).after else w.seconds core t) }
    ensures sends { (image : List ℕ → List ℕ) (plan : PlanState) (w : WorldState) (core : ℕ) (event : Event) (one : asked.CoreEvent) → asked_of core w.wire event ≡ Some one →
        (happens image plan w event).world.wire ≡ w.wire ++ map (core_message core (event_second one)) (core_turn image plan w core one).sends }
    ensures others { (w : WorldState) (core other : ℕ) (event : Event) (one : asked.CoreEvent) → asked_of core w.wire event ≡ Some one → other ≢ core →
        (asked_of other w.wire event ≡ None) × (is_restart_of other event ≡ false) }
    ensures still { (image : List ℕ → List ℕ) (plan : PlanState) (w : WorldState) (core : ℕ) (event : Event) → asked_of core w.wire event ≡ None → is_restart_of core event ≡ false →
        (t : ℕ) → (happens image plan w event).world.seconds core t ≡ w.seconds core t }
    ensures restarted { (image : List ℕ → List ℕ) (plan : PlanState) (w : WorldState) (core : ℕ) (event : Event) → is_restart_of core event ≡ true →
        (t : ℕ) → (happens image plan w event).world.seconds core t ≡ restart_row (w.seconds core t) }
{
    one_round();
}

/// An aggregator may be asked whatever an event asks of it: the aggregator may take it, and its second is below 2^63. The
/// world's round is that of its turn, and the turn's messages follow all that were sent before; nothing is asked of
/// another node. An event that asks nothing of an aggregator leaves it, or restarts it. What a round issues for a number
/// is issued for the request of that number.
pub fn rounds_are_turns()
    ensures may { (image : List ℕ → List ℕ) (plan : PlanState) (before : List Event) → IsPlan plan → AreEvents plan before → (aggregator : ℕ) (event : Event) (one : RoundEvent) → IsEvent plan event →
        round_asked_of aggregator (after image plan before) event ≡ Some one → rounds.MayTake ((after image plan before).rounds aggregator) one × (rounds.event_second one < 2 ^ 63) }
    ensures rounds { (image : List ℕ → List ℕ) (plan : PlanState) (w : WorldState) (aggregator : ℕ) (event : Event) (one : RoundEvent) → round_asked_of aggregator w event ≡ Some one →
        (t : ℕ) → (happens image plan w event).world.rounds aggregator t ≡ (if t == rounds.event_second one then (round_turn image w aggregator one).after else w.rounds aggregator t) }
    ensures sends { (image : List ℕ → List ℕ) (plan : PlanState) (w : WorldState) (aggregator : ℕ) (event : Event) (one : RoundEvent) → round_asked_of aggregator w event ≡ Some one →
        (happens image plan w event).world.wire ≡ w.wire ++ map (round_message plan aggregator (rounds.event_second one)) (round_turn image w aggregator one).sends }
    ensures others { (w : WorldState) (aggregator other : ℕ) (event : Event) (one : RoundEvent) → round_asked_of aggregator w event ≡ Some one → other ≢ aggregator →
        (round_asked_of other w event ≡ None) × (is_restart_of_aggregator other event ≡ false) }
    ensures cores { (w : WorldState) (aggregator core : ℕ) (event : Event) (one : RoundEvent) → round_asked_of aggregator w event ≡ Some one →
        (asked_of core w.wire event ≡ None) × (is_restart_of core event ≡ false) }
    ensures aggregators { (w : WorldState) (core aggregator : ℕ) (event : Event) (one : asked.CoreEvent) → asked_of core w.wire event ≡ Some one →
        (round_asked_of aggregator w event ≡ None) × (is_restart_of_aggregator aggregator event ≡ false) }
    ensures still { (image : List ℕ → List ℕ) (plan : PlanState) (w : WorldState) (aggregator : ℕ) (event : Event) → round_asked_of aggregator w event ≡ None → is_restart_of_aggregator aggregator event ≡ false →
        (t : ℕ) → (happens image plan w event).world.rounds aggregator t ≡ w.rounds aggregator t }
    ensures restarted { (image : List ℕ → List ℕ) (plan : PlanState) (w : WorldState) (aggregator : ℕ) (event : Event) → is_restart_of_aggregator aggregator event ≡ true →
        (t : ℕ) → (happens image plan w event).world.rounds aggregator t ≡ round_restarted (w.rounds aggregator t) }
    ensures issued { (image : List ℕ → List ℕ) (plan : PlanState) (events : List Event) (aggregator number : ℕ) (text : List ℕ) → IsIssued image ((after image plan events).rounds aggregator) number text →
        issued_of image (after image plan events) number ≡ Some text }
{
    one_round();
}

/// Each core's state of each second is its own, after every history: its number, its voters and its candidate, which is the
/// imprint of what it sealed. Its vote, if any, is of no ballot beyond its promise.
pub fn seconds_are_kept()
    ensures event { (image : List ℕ → List ℕ) (plan : PlanState) (w : WorldState) (e : Event) → AreSecondsOf image plan w.seconds →
        AreSecondsOf image plan (happens image plan w e).world.seconds }
    ensures history { (image : List ℕ → List ℕ) (plan : PlanState) (events : List Event) → AreSecondsOf image plan (after image plan events).seconds }
{
    rows_keep_states();
}

/// A closed round stays closed with the same items.
pub fn closed_stays()
    ensures { (image : List ℕ → List ℕ) (plan : PlanState) (before later : List Event) (aggregator second : ℕ) (entries : List Entry) →
        ((after image plan before).rounds aggregator second).closed ≡ Some entries →
        ((after image plan (before ++ later)).rounds aggregator second).closed ≡ Some entries }
{}

/// Each closed round that has items was submitted to its parent.
pub fn closed_is_submitted()
    ensures event { (image : List ℕ → List ℕ) (plan : PlanState) (w : WorldState) (e : Event) → AreSubmitted plan w →
        AreSubmitted plan (happens image plan w e).world }
    ensures history { (image : List ℕ → List ℕ) (plan : PlanState) (events : List Event) → AreSubmitted plan (after image plan events) }
{}

/// Each accepted request was made of an aggregator of the plan, for a second of the plan.
pub fn requests_are_of_plan()
    ensures { (image : List ℕ → List ℕ) (plan : PlanState) (events : List Event) → AreEvents plan events →
        (number : ℕ) (asked : Asked) → slice_get (after image plan events).requests number ≡ Some asked → IsAskedOf plan asked }
{}
