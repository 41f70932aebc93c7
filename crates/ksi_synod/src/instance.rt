ghost use Rattle.std.specs.Prelude.{◌≡◌, ℕ, ◌<◌, ◌≤◌, ◌↔◌, IsTrue, IsNone, IsSome, IfSome, false};
ghost use Rattle.ksi_synod.specs.Ballots.{IsBallot, last_round, some_ballot};
ghost use Rattle.ksi_synod.specs.declared.messages.Begun.TheVariants.{Unsealed, Last, Next};
ghost use Rattle.ksi_synod.specs.declared.messages.Took.TheVariants.{Nothing};
ghost use Rattle.ksi_synod.specs.VoteState.{fresh_vote, stable_of, vote_of};
ghost use Rattle.ksi_synod.specs.Rows.{sealed_with, greater_round, try_ballot, on_next, counts_last, on_last, is_older, on_begin, voted_for, on_voted, on_success, restarted};

use crate::hand::InHand;
use crate::messages::{Begun, LastVote, Took, Vote};
use crate::stable::Stable;
use crate::voters::Voters;
use ksi_imprint::Imprint;
use std::marker::Model;

/// The greatest round of a ballot.
const LAST_ROUND: u64 = 4_294_967_295;

/// One core's part in the vote on one second. A ballot is `16 * round + core`, with rounds from 1 to 2^32 - 1; a message's
/// sender is one of the cores 0 to 8.
#[derive(Drop)]
pub struct Instance {
    me: u8,
    voters: Voters,
    candidate: Option<Imprint>,
    tried: u64,
    promised: u64,
    vote: Option<Vote>,
    held: Option<Imprint>,
    hand: Option<InHand>,
}

impl Model for Instance {
    ghost use Rattle.ksi_synod.specs.VoteState.{VoteState};

    ghost Value = { VoteState };

    ghost use Rattle.ksi_synod.specs.Instance.{state_of, IsInstance};

    ghost view = { state_of };

    ghost invariant = { IsInstance };
}

impl Instance {
    /// The part of core `me`, which may be no voter, where these cores vote, before anything came.
    #[tactic(auto, unfolding(crate::specs::Instance::state_of, crate::specs::VoteState::fresh_vote))]
    pub fn new(me: u8, voters: Voters) -> Self
        requires { me ≤ 8 }
        ensures { result ≡ fresh_vote me voters }
    {
        Instance {
            me,
            voters,
            candidate: None,
            tried: 0,
            promised: 0,
            vote: None,
            held: None,
            hand: None,
        }
    }

    /// The part of core `me` where these cores vote, of its stable part and the ballot in hand.
    #[tactic(auto, unfolding(crate::specs::Instance::state_of))]
    pub fn of(me: u8, voters: Voters, stable: &Stable, hand: Option<InHand>) -> Self
        requires { me ≤ 8 }
        ensures { result ≡ vote_of me voters stable.now hand }
    {
        Instance {
            me,
            voters,
            candidate: stable.candidate,
            tried: stable.tried,
            promised: stable.promised,
            vote: stable.vote,
            held: stable.held,
            hand,
        }
    }

    /// What a restart leaves of it.
    #[tactic(auto, unfolding(crate::specs::Instance::state_of))]
    pub fn stable(&self) -> Stable
        ensures { result ≡ stable_of self.now }
    {
        Stable {
            candidate: self.candidate,
            tried: self.tried,
            promised: self.promised,
            vote: self.vote,
            held: self.held,
        }
    }

    /// The ballot in hand, which a restart forgets.
    #[tactic(auto, unfolding(crate::specs::Instance::state_of))]
    pub fn hand(&self) -> Option<InHand>
        ensures { result ≡ self.now.hand }
    {
        self.hand
    }

    /// The decree that this core holds.
    #[tactic(auto, unfolding(crate::specs::Instance::state_of))]
    pub fn held(&self) -> Option<Imprint>
        ensures { result ≡ self.now.held }
    {
        self.held
    }

    /// The last ballot that this core tried.
    #[tactic(auto, unfolding(crate::specs::Instance::state_of))]
    pub fn tried(&self) -> Option<u64>
        ensures { result ≡ some_ballot self.now.tried }
    {
        if self.tried == 0 {
            None
        } else {
            Some(self.tried)
        }
    }

    /// The greatest ballot that this core promised.
    #[tactic(auto, unfolding(crate::specs::Instance::state_of))]
    pub fn promised(&self) -> Option<u64>
        ensures { result ≡ some_ballot self.now.promised }
    {
        if self.promised == 0 {
            None
        } else {
            Some(self.promised)
        }
    }

    /// This core's vote of the greatest ballot.
    #[tactic(auto, unfolding(crate::specs::Instance::state_of))]
    pub fn voted(&self) -> Option<Vote>
        ensures { result ≡ self.now.vote }
    {
        self.vote
    }

    /// This core's candidate.
    #[tactic(auto, unfolding(crate::specs::Instance::state_of))]
    pub fn sealed(&self) -> Option<Imprint>
        ensures { result ≡ self.now.candidate }
    {
        self.candidate
    }

    /// Sets the candidate: the decree that this core begins if no LastVote had a vote. It is set once.
    #[tactic(auto, unfolding(crate::specs::Instance::state_of))]
    pub fn candidate(&mut self, imprint: Imprint)
        requires unsealed { IsNone self.old.candidate }
        ensures { self.new ≡ sealed_with self.old imprint }
    {
        self.candidate = Some(imprint);
    }

    /// Tries a ballot: its own of the next round beyond what it tried and promised. NextBallot is to be sent to all voters.
    #[tactic(auto, unfolding(crate::specs::Instance::state_of, crate::specs::Rows::try_ballot))]
    pub fn try_ballot(&mut self) -> Begun
        ensures after { self.new ≡ (try_ballot self.old).0 }
        ensures answer { result ≡ (try_ballot self.old).1 }
        ensures unsealed { (result ≡ Unsealed) ↔ IsNone self.old.candidate }
        ensures last { (result ≡ Last) ↔ (IsSome self.old.candidate × (greater_round self.old ≡ last_round)) }
        ensures ballot { (ballot : ℕ) → result ≡ Next ballot → IsBallot ballot }
    {
        if self.candidate.is_none() {
            return Begun::Unsealed;
        }
        let round = (self.tried / 16).max(self.promised / 16);
        if round == LAST_ROUND {
            return Begun::Last;
        }
        let ballot = 16 * (round + 1) + self.me as u64;
        self.tried = ballot;
        self.hand = Some(InHand::new(ballot));
        Begun::Next(ballot)
    }

    /// Takes up again what is stored of it: a ballot that it tried. It is not in hand.
    #[tactic(auto, unfolding(crate::specs::Instance::state_of))]
    pub fn restore_tried(&mut self, ballot: u64)
        requires { IsBallot ballot }
        ensures { self.new ≡ record self.old { tried = ballot } }
    {
        self.tried = ballot;
    }

    /// Takes NextBallot: promises a ballot that is above its promise. The LastVote is to be sent back.
    #[tactic(auto, unfolding(crate::specs::Instance::state_of, crate::specs::Rows::on_next))]
    pub fn on_next(&mut self, ballot: u64) -> Option<LastVote>
        requires ballot { IsBallot ballot }
        ensures after { self.new ≡ (on_next self.old ballot).0 }
        ensures answer { result ≡ (on_next self.old ballot).1 }
        ensures refused { IsNone result ↔ (ballot ≤ self.old.promised) }
        ensures told { IfSome result (λ last. (last.ballot ≡ ballot) × (last.vote ≡ self.old.vote)) }
    {
        if self.promised < ballot {
            self.promised = ballot;
            Some(LastVote {
                ballot,
                vote: self.vote,
            })
        } else {
            None
        }
    }

    /// Takes LastVote: counts the sender, and begins a decree in the step in which a majority counts. BeginBallot with that
    /// decree is to be sent to all voters.
    #[tactic(auto, unfolding(crate::specs::Instance::state_of, crate::specs::Rows::on_last))]
    pub fn on_last(&mut self, from: u8, ballot: u64, vote: Option<Vote>) -> Took
        requires member { from < 9 }
        requires ballot { IsBallot ballot }
        ensures after { self.new ≡ (on_last self.old from ballot vote).0 }
        ensures answer { result ≡ (on_last self.old from ballot vote).1 }
        ensures nothing { (result ≡ Nothing) ↔ (counts_last self.old.voters self.old.hand from ballot ≡ false) }
    {
        let Some(hand) = &mut self.hand else {
            return Took::Nothing;
        };
        if !hand.counts_last(&self.voters, from, ballot) {
            return Took::Nothing;
        }
        hand.add_last(from, &vote);
        hand.begin(&self.voters, &self.candidate)
    }

    /// Takes BeginBallot: votes where the ballot is the one that it promised and it did not vote in it yet. Where it votes,
    /// Voted is to be sent back.
    #[tactic(auto, unfolding(crate::specs::Instance::state_of, crate::specs::Rows::on_begin))]
    pub fn on_begin(&mut self, ballot: u64, decree: Imprint) -> bool
        requires ballot { IsBallot ballot }
        ensures after { self.new ≡ (on_begin self.old ballot decree).0 }
        ensures answer { result ≡ (on_begin self.old ballot decree).1 }
        ensures votes { IsTrue result ↔ ((ballot ≡ self.old.promised) × IsTrue (is_older self.old.vote ballot)) }
    {
        let older = match self.vote {
            None => true,
            Some(vote) => vote.ballot < ballot,
        };
        if ballot == self.promised && older {
            self.vote = Some(Vote {
                ballot,
                imprint: decree,
            });
            true
        } else {
            false
        }
    }

    /// Takes Voted: counts the sender, and holds the decree in the step in which a majority counts for the first time.
    /// Success with that decree is to be sent to all cores.
    #[tactic(auto, unfolding(crate::specs::Instance::state_of, crate::specs::Rows::on_voted))]
    pub fn on_voted(&mut self, from: u8, ballot: u64) -> Took
        requires member { from < 9 }
        requires ballot { IsBallot ballot }
        ensures after { self.new ≡ (on_voted self.old from ballot).0 }
        ensures answer { result ≡ (on_voted self.old from ballot).1 }
        ensures nothing { (result ≡ Nothing) ↔ IsNone (voted_for self.old.voters self.old.hand from ballot) }
    {
        let Some(hand) = &mut self.hand else {
            return Took::Nothing;
        };
        let Some(decree) = hand.voted_for(&self.voters, from, ballot) else {
            return Took::Nothing;
        };
        if !hand.add_voted(&self.voters, from) {
            return Took::Added;
        }
        self.held = Some(self.held.unwrap_or(decree));
        Took::Decree(decree)
    }

    /// Takes Success: holds the decree where it held none, and answers whether it does so now.
    #[tactic(auto, unfolding(crate::specs::Instance::state_of, crate::specs::Rows::on_success))]
    pub fn on_success(&mut self, decree: Imprint) -> bool
        ensures after { self.new ≡ (on_success self.old decree).0 }
        ensures answer { result ≡ (on_success self.old decree).1 }
        ensures holds { IsTrue result ↔ IsNone self.old.held }
    {
        match self.held {
            None => {
                self.held = Some(decree);
                true
            }
            Some(_) => false,
        }
    }

    /// Forgets the ballot in hand, as a restart does: its LastVotes and Voteds count no more. All else is stable.
    #[tactic(auto, unfolding(crate::specs::Instance::state_of))]
    pub fn restart(&mut self)
        ensures { self.new ≡ restarted self.old }
    {
        self.hand = None;
    }
}
