//! What holds of the vote on one second after every history: whichever messages are lost, repeated, late or out of order,
//! and whichever cores restart, at any moment. Each law is the contract of a function that does nothing.

ghost use Rattle.std.specs.Prelude.{◌≡◌, ℕ, ◌<◌, ◌≤◌, ◌+◌, ◌*◌, ◌^◌, ◌++◌, List, length, Bool, IsTrue, true, Some};
ghost use Rattle.std.specs.List.{filter, count_by, AllByRecursion};
ghost use Rattle.ksi_synod.specs.Voters.{cores_below, is_voter, is_flagged, is_majority};
ghost use Rattle.ksi_synod.specs.VoteState.{VoteState, fresh_vote, IsVoteStateOf};
ghost use Rattle.ksi_synod.specs.Rows.{seal, try_ballot, receive, restarted};
ghost use Rattle.ksi_synod.specs.declared.messages.SynodMessage.{SynodMessage};
ghost use Rattle.ksi_synod.specs.declared.messages.SynodMessage.TheVariants.{BeginBallot, Voted};
ghost use Rattle.ksi_synod.specs.Chosen.{IsChosen};
ghost use Rattle.ksi_synod.specs.Reached.{Said, says, Has, Reached};
ghost use Rattle.ksi_synod.specs.History.{SetUp, Event, IsHistory, after, held_by, candidate_of};
ghost use Rattle.ksi_synod.specs.Runs.{three, taken_over, one_of_three, one_votes};
ghost use Rattle.ksi_synod.specs.CorePlans.{CorePlanState, voters_of, AreRising, AreVoters, IsCorePlan, has_room, with_voters};

use crate::voters::Voters;

/// Agreement: two cores that hold a decree hold the same.
pub fn agreement()
    ensures { (set_up : SetUp) (events : List Event) → IsHistory set_up events → (one other : ℕ) (d e : List ℕ) →
        held_by (after set_up events) one ≡ Some d → held_by (after set_up events) other ≡ Some e → d ≡ e }
{}

/// Validity: the decree that a core holds is the candidate that one of the cores sealed.
pub fn validity()
    ensures { (set_up : SetUp) (events : List Event) → IsHistory set_up events → (core : ℕ) (d : List ℕ) →
        held_by (after set_up events) core ≡ Some d →
        (owner : ℕ) × (owner < set_up.cores) × (candidate_of (after set_up events) owner ≡ Some d) }
{}

/// Agreement and validity of all that single steps can reach, whoever delivers the messages. The layers above, whose
/// histories have more than one second, show each second to be reached.
pub fn steps_agree()
    ensures agreement { (voters : List ℕ) (states : ℕ → VoteState) (said : List Said) → Reached voters states said →
        (one other : ℕ) (d e : List ℕ) → (states one).held ≡ Some d → (states other).held ≡ Some e → d ≡ e }
    ensures validity { (voters : List ℕ) (states : ℕ → VoteState) (said : List Said) → Reached voters states said →
        (core : ℕ) (d : List ℕ) → (states core).held ≡ Some d → (owner : ℕ) × ((states owner).candidate ≡ Some d) }
{}

/// Chosen: where a majority of the voters cast one vote in one ballot, no other decree is ever held, at this moment or later.
/// It is enough that the messages were sent, whatever is lost of them.
pub fn chosen()
    ensures history { (set_up : SetUp) (events later : List Event) → IsHistory set_up (events ++ later) → (ballot : ℕ) (d : List ℕ) →
        IsChosen set_up (after set_up events) ballot d →
        (core : ℕ) (e : List ℕ) → held_by (after set_up (events ++ later)) core ≡ Some e → e ≡ d }
    ensures steps { (voters : List ℕ) (states : ℕ → VoteState) (said : List Said) → Reached voters states said →
        (ballot : ℕ) (d : List ℕ) (who : ℕ → Bool) → length voters < 2 * count_by who voters →
        (by : ℕ) → Has said (says by (BeginBallot ballot d)) → ((x : ℕ) → who x ≡ true → Has said (says x (Voted ballot))) →
        (core : ℕ) (e : List ℕ) → (states core).held ≡ Some e → e ≡ d }
{}

/// A core's state stays its own, after every history: its number and its voters are those that it began with. Its vote, if
/// any, is of no ballot beyond its promise.
pub fn states_are_kept()
    ensures history { (set_up : SetUp) (events : List Event) → IsHistory set_up events →
        (core : ℕ) → IsVoteStateOf set_up.voters core ((after set_up events).states core) }
    ensures steps { (voters : List ℕ) (states : ℕ → VoteState) (said : List Said) → Reached voters states said →
        (core : ℕ) → IsVoteStateOf voters core (states core) }
{}

/// Each row leaves a state its core's own. A ballot and each message leave its candidate, too.
pub fn rows_keep_states()
    ensures first { (voters : List ℕ) (core : ℕ) → IsVoteStateOf voters core (fresh_vote core voters) }
    ensures seal { (voters : List ℕ) (core : ℕ) (s : VoteState) (candidate : List ℕ) → IsVoteStateOf voters core s →
        IsVoteStateOf voters core (seal s candidate) }
    ensures ballot { (voters : List ℕ) (core : ℕ) (s : VoteState) → IsVoteStateOf voters core s →
        IsVoteStateOf voters core (try_ballot s).0 × ((try_ballot s).0.candidate ≡ s.candidate) }
    ensures message { (voters : List ℕ) (core : ℕ) (s : VoteState) (from : ℕ) (m : SynodMessage) → IsVoteStateOf voters core s →
        IsVoteStateOf voters core (receive s from m).0 × ((receive s from m).0.candidate ≡ s.candidate) }
    ensures restart { (voters : List ℕ) (core : ℕ) (s : VoteState) → IsVoteStateOf voters core s → IsVoteStateOf voters core (restarted s) }
{}

/// Nothing is unsaid: what a core holds, and its candidate, stay for ever, over restarts too. With agreement, no two cores
/// hold different decrees even at different moments.
pub fn stability()
    ensures held { (set_up : SetUp) (events later : List Event) (core : ℕ) (d : List ℕ) →
        held_by (after set_up events) core ≡ Some d → held_by (after set_up (events ++ later)) core ≡ Some d }
    ensures candidate { (set_up : SetUp) (events later : List Event) (core : ℕ) (d : List ℕ) →
        candidate_of (after set_up events) core ≡ Some d → candidate_of (after set_up (events ++ later)) core ≡ Some d }
{}

/// Two majorities of the same voters share a voter.
pub fn majorities_meet()
    ensures { (voters : List ℕ) (one other : List Bool) → IsTrue (is_majority voters one) → IsTrue (is_majority voters other) →
        (core : ℕ) × IsTrue (is_voter voters core) × IsTrue (is_flagged one core) × IsTrue (is_flagged other core) }
{}

/// The laws are not empty: in this history of three cores, core 0 comes to hold its candidate, its Success is lost, and
/// core 2, which has another candidate, comes to hold the decree of core 0 by a ballot of its own.
pub fn decrees_are_taken_over()
    ensures history { (a b : List ℕ) → IsHistory three (taken_over a b) }
    ensures candidate { (a b : List ℕ) → candidate_of (after three (taken_over a b)) 2 ≡ Some b }
    ensures first { (a b : List ℕ) → held_by (after three (taken_over a b)) 0 ≡ Some a }
    ensures second { (a b : List ℕ) → held_by (after three (taken_over a b)) 2 ≡ Some a }
{}

/// A core that does not vote may bring about the decree: in this history of three cores, of which core 1 alone votes, core 0
/// seals, tries a ballot and comes to hold its candidate. Seven messages are sent, the last three of them to all cores.
pub fn one_voter_decides()
    ensures history { (a : List ℕ) → IsHistory one_of_three (one_votes a) }
    ensures held { (a : List ℕ) → held_by (after one_of_three (one_votes a)) 0 ≡ Some a }
    ensures messages { (a : List ℕ) → length (after one_of_three (one_votes a)).wire ≡ 7 }
{}

/// Who votes on a second is at least one
/// core, and no core that is not there.
pub fn voters_are_cores()
    ensures voters { (plan : CorePlanState) (second : ℕ) → IsCorePlan plan → AreVoters plan.cores (voters_of plan second) }
    ensures listed { (cores : ℕ) (voters : List ℕ) → AreVoters cores voters → filter (is_voter voters) (cores_below cores) ≡ voters }
    ensures few { (cores : ℕ) (voters : List ℕ) → AreVoters cores voters → length voters ≤ cores }
    ensures more { (plan : CorePlanState) (second : ℕ) (voters : List ℕ) → IsCorePlan plan → has_room plan second ≡ true →
        plan.start ≤ second → second < plan.start + 2 ^ 24 → AreVoters plan.cores voters → IsCorePlan (with_voters plan second voters) }
{}

/// Voters rise, and are among the cores 0 to 8.
pub fn voters_rise(voters: &Voters)
    ensures rising { AreRising voters.now }
    ensures few { AllByRecursion (λ voter. voter < 9) voters.now }
{
    let _flags = voters.flags();
}
