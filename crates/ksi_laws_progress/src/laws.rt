//! What may follow every history of an infrastructure. None of these functions does anything. Nothing is claimed of
//! progress, time or delivery: these events exist, and nothing says that they happen.
ghost use Rattle.std.specs.Prelude.{◌≡◌, ◌<◌, ◌≤◌, ◌+◌, ◌-◌, ◌*◌, ◌/◌, ◌^◌, ◌++◌, ◌∷◌, [], ℕ, suc, true, List, length, map, None};
ghost use Rattle.ksi_synod.specs.Ballots.{last_round};
ghost use Rattle.ksi_synod.specs.Voters.{is_voter};
ghost use Rattle.ksi_synod.specs.Rows.{greater_round};
ghost use Rattle.ksi_calendar.specs.Covered.{covered_root};
ghost use Rattle.ksi_signature.specs.declared.answer.Answer.TheVariants.{Published};
ghost use Rattle.ksi_corenode.specs.Rows.{publish_answer};
ghost use Rattle.ksi_schedule.specs.declared.event.Event.{Event};
ghost use Rattle.ksi_schedule.specs.declared.event.Event.TheVariants.{Seal, Ballot, Deliver};
ghost use Rattle.ksi_laws_progress.specs.Numbers.{numbers_from};
ghost use Rattle.ksi_schedule.specs.Plans.{PlanState, IsPlan, InRange};
ghost use Rattle.ksi_schedule.specs.Events.{History, AreEvents};
ghost use Rattle.ksi_schedule.specs.Schedules.{IsSchedule};
ghost use Rattle.ksi_world.specs.declared.outcome.Asked.{Asked};
ghost use Rattle.ksi_world.specs.Histories.{WorldState, held_in, after, world_of};
ghost use Rattle.ksi_laws_progress.specs.Majorities.{IsMajority, IsLeast, greatest_from, root_by};
ghost use Rattle.ksi_laws_progress.specs.Deciding.{voters_on, vote_in, own_candidate, IsAhead, VotedFor, ballot_events, tries, ballot_length, HoldAll, HoldSeconds};
ghost use Rattle.ksi_laws_progress.specs.Runs.{three_cores, one_request, asked_once};
ghost use Rattle.ksi_laws_progress.specs.Issuing.{IsWaiting, IsJoinedTo, HasWon, IsUndecided, CanBeJoined, CanBeIssued, CanBeIssuedOrMissed};

use ksi_calendar::laws::one_first_missing;
use ksi_synod::laws::voters_are_cores;
use ksi_world::laws::{
    agreement, closed_is_submitted, held_stays, requests_are_of_plan, seconds_are_kept,
};

/// A ballot decides, after every history. Its core goes beyond all that some majority of the second's voters promised,
/// and this majority answers. Then each core holds one root.
///
/// The root is the core's own candidate, if the core held nothing and this majority voted for nothing else. For a
/// majority of the least size, if the core held nothing, it is the imprint of the greatest vote that was cast there, or
/// the candidate if there was no vote. The core has a round left.
///
/// The events are two at the core, four deliveries for each core of the majority, and one for each core that is sent the
/// root. Two messages are sent for each voter, two for each core of the majority, and one for each core. If all voters
/// answer, the deliveries are of all messages sent since, each once, in order.
pub fn a_ballot_decides()
    ensures decides { (image : List ℕ → List ℕ) (plan : PlanState) (events : List Event) → IsPlan plan → AreEvents plan events →
        (core second : ℕ) (some : List ℕ) → core < plan.cores → InRange plan second → IsMajority (voters_on plan second) some →
        IsAhead (after image plan events) core second some →
        (root : List ℕ) × HoldAll image plan events (ballot_events plan (after image plan events) core second some) second root }
    ensures wins { (image : List ℕ → List ℕ) (plan : PlanState) (events : List Event) → IsPlan plan → AreEvents plan events →
        (core second : ℕ) (some : List ℕ) → core < plan.cores → InRange plan second → IsMajority (voters_on plan second) some →
        IsAhead (after image plan events) core second some → held_in (after image plan events) core second ≡ None →
        VotedFor (after image plan events) second some (own_candidate image (after image plan events) core second) →
        HoldAll image plan events (ballot_events plan (after image plan events) core second some) second
        (own_candidate image (after image plan events) core second) }
    ensures root { (image : List ℕ → List ℕ) (plan : PlanState) (events : List Event) → IsPlan plan → AreEvents plan events →
        (core second : ℕ) (some : List ℕ) → core < plan.cores → InRange plan second →
        IsMajority (voters_on plan second) some → IsLeast (voters_on plan second) some →
        IsAhead (after image plan events) core second some → held_in (after image plan events) core second ≡ None →
        HoldAll image plan events (ballot_events plan (after image plan events) core second some) second
        (root_by (greatest_from (λ k. (vote_in (after image plan events) k second).vote) None some)
        (own_candidate image (after image plan events) core second)) }
    ensures messages { (image : List ℕ → List ℕ) (plan : PlanState) (events : List Event) → IsPlan plan → AreEvents plan events →
        (core second : ℕ) (some : List ℕ) → core < plan.cores → InRange plan second → IsMajority (voters_on plan second) some →
        IsAhead (after image plan events) core second some →
        length (after image plan (events ++ ballot_events plan (after image plan events) core second some)).wire ≡
        length (after image plan events).wire + (2 * length (voters_on plan second) + 2 * length some + plan.cores) }
    ensures events { (plan : PlanState) (w : WorldState) (core second : ℕ) (some : List ℕ) →
        length (ballot_events plan w core second some) ≡ 2 + 4 * length some + plan.cores }
    ensures all { (plan : PlanState) (w : WorldState) (core second : ℕ) → IsPlan plan →
        ballot_events plan w core second (voters_on plan second) ≡
        Seal core second ∷ Ballot core second ∷ map Deliver (numbers_from (length w.wire) (4 * length (voters_on plan second) + plan.cores)) }
{
    agreement();
    held_stays();
    voters_are_cores();
    seconds_are_kept();
}

/// No second is stuck: for any majority of its voters, one core of this majority can try a ballot that gives each core one
/// root. It is enough that this majority answers. After every schedule at most `2 + 5N` events do it, which are 47 for nine
/// cores. The history before has fewer than 2^32 - 1 events, since rounds end there.
pub fn no_second_is_stuck()
    ensures majority { (image : List ℕ → List ℕ) (history : History) → IsPlan history.plan → AreEvents history.plan history.events →
        length history.events < last_round → (second : ℕ) → InRange history.plan second →
        (some : List ℕ) → IsMajority (voters_on history.plan second) some →
        (core : ℕ) × (is_voter some core ≡ true) × ((root : List ℕ) ×
        HoldAll image history.plan history.events (ballot_events history.plan (world_of image history) core second some) second root) }
    ensures schedule { (image : List ℕ → List ℕ) (history : History) → IsSchedule history → (second : ℕ) → InRange history.plan second →
        (later : List Event) × (length later ≤ ballot_length history.plan) × ((root : List ℕ) ×
        HoldAll image history.plan history.events later second root) }
{
    agreement();
    held_stays();
    voters_are_cores();
    seconds_are_kept();
}

/// Any core that has rounds left can decide, also one that does not vote. It tries as many ballots more as some majority's
/// promises are rounds beyond its own tried and promised ones, or more. Its own candidate wins where it held nothing and this
/// majority voted for nothing else.
pub fn any_core_decides()
    ensures decides { (image : List ℕ → List ℕ) (plan : PlanState) (events : List Event) → IsPlan plan → AreEvents plan events →
        (core second n : ℕ) (some : List ℕ) → core < plan.cores → InRange plan second → IsMajority (voters_on plan second) some →
        ((k : ℕ) → is_voter some k ≡ true → (vote_in (after image plan events) k second).promised / 16 ≤ greater_round (vote_in (after image plan events) core second) + n) →
        greater_round (vote_in (after image plan events) core second) + n < last_round →
        (root : List ℕ) × HoldAll image plan events (tries core second n ++
        ballot_events plan (after image plan (events ++ tries core second n)) core second some) second root }
    ensures wins { (image : List ℕ → List ℕ) (plan : PlanState) (events : List Event) → IsPlan plan → AreEvents plan events →
        (core second n : ℕ) (some : List ℕ) → core < plan.cores → InRange plan second → IsMajority (voters_on plan second) some →
        ((k : ℕ) → is_voter some k ≡ true → (vote_in (after image plan events) k second).promised / 16 ≤ greater_round (vote_in (after image plan events) core second) + n) →
        greater_round (vote_in (after image plan events) core second) + n < last_round →
        held_in (after image plan events) core second ≡ None →
        VotedFor (after image plan events) second some (own_candidate image (after image plan events) core second) →
        HoldAll image plan events (tries core second n ++
        ballot_events plan (after image plan (events ++ tries core second n)) core second some) second
        (own_candidate image (after image plan events) core second) }
{
    agreement();
    held_stays();
    voters_are_cores();
    seconds_are_kept();
}

/// All cores can hold all seconds to any one of the plan, after every schedule, by at most `2 + 5N` events for each. Each
/// core then answers `publish` of that second with the root of its calendar.
pub fn all_seconds_can_be_held()
    ensures { (image : List ℕ → List ℕ) (history : History) → IsSchedule history → (p : ℕ) → InRange history.plan p →
        (later : List Event) × (length later ≤ (suc p - history.plan.start) * ballot_length history.plan) ×
        HoldSeconds image history.plan history.events later history.plan.start (suc p) ×
        ((core : ℕ) → core < history.plan.cores →
        publish_answer image (held_in (after image history.plan (history.events ++ later)) core) history.plan.start p ≡
        Published (covered_root image (held_in (after image history.plan (history.events ++ later)) core) history.plan.start p)) }
{
    agreement();
    held_stays();
    voters_are_cores();
    seconds_are_kept();
    one_first_missing();
}

/// A request that waits can be joined: at most three events, and two for each step up, lead to the core's sealed items.
/// It waits if its item is in its aggregator's round, each node above has an item of the one below or would take it, and
/// no round on the path has a response. Nobody votes in these events.
pub fn waiting_requests_can_be_joined()
    ensures { (image : List ℕ → List ℕ) (plan : PlanState) (events : List Event) → IsPlan plan → AreEvents plan events →
        (core steps number : ℕ) (asked : Asked) → core < plan.cores → IsWaiting plan (after image plan events) core steps number asked →
        (later : List Event) × (length later ≤ 3 + 2 * steps) × CanBeJoined image plan events later core steps number asked }
{
    seconds_are_kept();
    closed_is_submitted();
    requests_are_of_plan();
}

/// A joined request can be issued, where the core holds its own candidate, not the zero imprint, and all seconds to it. It
/// takes one event at the core, one delivery for each step, and one for the request's aggregator.
pub fn joined_requests_can_be_issued()
    ensures { (image : List ℕ → List ℕ) (plan : PlanState) (events : List Event) → IsPlan plan → AreEvents plan events →
        (core steps number : ℕ) (asked : Asked) → core < plan.cores → IsJoinedTo plan (after image plan events) core steps number asked →
        HasWon image plan (after image plan events) core asked.second →
        (later : List Event) × (length later ≤ 2 + steps) × CanBeIssued image plan events later number }
{
    requests_are_of_plan();
    one_first_missing();
}

/// A request that waits can be issued, after every schedule. Its core holds nothing for its second, and some majority of the
/// second's voters cast no vote. What follows leads to one of two: it is issued, or the core holds the zero imprint.
pub fn requests_can_be_issued()
    ensures { (image : List ℕ → List ℕ) (history : History) → IsSchedule history → (core steps number : ℕ) (asked : Asked) (some : List ℕ) →
        core < history.plan.cores → steps ≤ 8 → IsWaiting history.plan (world_of image history) core steps number asked →
        IsUndecided history.plan (world_of image history) core asked.second some →
        (later : List Event) × CanBeIssuedOrMissed image history.plan history.events later core asked.second number }
{
    agreement();
    closed_is_submitted();
    requests_are_of_plan();
    held_stays();
    voters_are_cores();
    seconds_are_kept();
    one_first_missing();
}

/// Events that may follow a schedule make a schedule with it, within its million events. What is so short can be replayed.
pub fn schedules_go_on()
    ensures { (history : History) (later : List Event) → IsSchedule history → AreEvents history.plan later →
        length history.events + length later ≤ 1000000 → IsSchedule (record { plan = history.plan; events = history.events ++ later }) }
{}

/// The laws are not empty: after this schedule of one request, the request waits below two aggregators, and its second is
/// undecided.
pub fn a_request_waits()
    ensures schedule { (imprint : List ℕ) → IsSchedule (one_request imprint) }
    ensures waits { (image : List ℕ → List ℕ) (imprint : List ℕ) →
        IsWaiting three_cores (world_of image (one_request imprint)) 0 1 0 (asked_once imprint) }
    ensures undecided { (image : List ℕ → List ℕ) (imprint : List ℕ) →
        IsUndecided three_cores (world_of image (one_request imprint)) 0 10 (1 ∷ 2 ∷ []) }
{}
