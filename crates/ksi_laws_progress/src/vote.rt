//! What may follow every history of the vote on one second. None of these functions does anything.
ghost use Rattle.std.specs.Prelude.{◌≡◌, ◌≢◌, ◌<◌, ◌≤◌, ◌+◌, ◌*◌, ◌++◌, ◌∷◌, [], true, ℕ, List, length, Some, None};
ghost use Rattle.ksi_synod.specs.Ballots.{last_round};
ghost use Rattle.ksi_synod.specs.Voters.{is_voter};
ghost use Rattle.ksi_synod.specs.CorePlans.{AreVoters};
ghost use Rattle.ksi_synod.specs.Rows.{greater_round};
ghost use Rattle.ksi_synod.specs.History.{SetUp, Event, Moment, IsHistory, after, held_by};
ghost use Rattle.ksi_laws_progress.specs.Majorities.{IsMajority, greatest_from};
ghost use Rattle.ksi_laws_progress.specs.Vote.{IsAhead, ballot_events, in_trouble, begun_among, late_answers, old_ballot_wins, Decides};
ghost use Rattle.ksi_synod.specs.Runs.{three, one_of_three};

use ksi_synod::laws::{agreement, states_are_kept};

/// A ballot decides, after every history, where it is beyond the promises of a majority that answers: all cores hold one root
/// then. Some core of any list that is not empty is beyond all
/// promises of this list.
pub fn a_ballot_decides()
    ensures decides { (set_up : SetUp) (events : List Event) → IsHistory set_up events → AreVoters set_up.cores set_up.voters →
        (core : ℕ) (candidate some : List ℕ) → core < set_up.cores → IsMajority set_up.voters some →
        greater_round ((after set_up events).states core) ≢ last_round → IsAhead (after set_up events) core some →
        Decides set_up events (ballot_events set_up (after set_up events) core candidate some) }
    ensures events { (set_up : SetUp) (m : Moment) (core : ℕ) (candidate some : List ℕ) →
        length (ballot_events set_up m core candidate some) ≡ 2 + 4 * length some + set_up.cores }
    ensures ahead { (m : Moment) (core : ℕ) (cores : List ℕ) → (one : ℕ) × (is_voter (core ∷ cores) one ≡ true) × IsAhead m one (core ∷ cores) }
{
    agreement();
    states_are_kept();
}

/// The laws are not empty: of three cores that vote two decide, and so does core 1 alone where it alone votes. After lost
/// messages and two restarts, one majority takes over the vote that was cast. Another one, of which nobody voted, decides for
/// another candidate.
pub fn examples()
    ensures two { (a : List ℕ) → held_by (after three (ballot_events three (after three []) 2 a (1 ∷ 2 ∷ []))) 0 ≡ Some a }
    ensures taken_over { (a b c : List ℕ) →
        held_by (after three (in_trouble a b ++ ballot_events three (after three (in_trouble a b)) 1 c (1 ∷ 2 ∷ []))) 0 ≡ Some a }
    ensures won { (a b c : List ℕ) →
        held_by (after three (in_trouble a b ++ ballot_events three (after three (in_trouble a b)) 2 c (0 ∷ 2 ∷ []))) 1 ≡ Some b }
    ensures one { (a : List ℕ) → held_by (after one_of_three (ballot_events one_of_three (after one_of_three []) 1 a (1 ∷ []))) 2 ≡ Some a }
{}

/// Votes and BeginBallots do not tell which candidates can still win. In this history of three cores the greatest vote of each
/// majority is for `a` or `b`, and nobody began `c`. But two answers to an old ballot are on their way, and by them all cores
/// can come to hold `c`.
pub fn answers_on_their_way()
    ensures votes { (a b c : List ℕ) →
        (greatest_from (λ k. ((after three (late_answers a b c)).states k).vote) None (0 ∷ 1 ∷ []) ≡ Some (record { ballot = 33; imprint = b })) ×
        (greatest_from (λ k. ((after three (late_answers a b c)).states k).vote) None (0 ∷ 2 ∷ []) ≡ Some (record { ballot = 16; imprint = a })) ×
        (greatest_from (λ k. ((after three (late_answers a b c)).states k).vote) None (1 ∷ 2 ∷ []) ≡ Some (record { ballot = 33; imprint = b })) }
    ensures begun { (a b c : List ℕ) → begun_among (after three (late_answers a b c)).wire ≡ a ∷ a ∷ a ∷ b ∷ b ∷ b ∷ [] }
    ensures wins { (a b c : List ℕ) →
        (held_by (after three (old_ballot_wins a b c)) 0 ≡ Some c) ×
        (held_by (after three (old_ballot_wins a b c)) 1 ≡ Some c) ×
        (held_by (after three (old_ballot_wins a b c)) 2 ≡ Some c) }
    ensures history { (a b c : List ℕ) → IsHistory three (old_ballot_wins a b c) }
{}
