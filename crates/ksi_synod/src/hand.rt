ghost use Rattle.std.specs.Prelude.{◌≡◌, ◌<◌, Some};
ghost use Rattle.ksi_synod.specs.VoteState.{new_hand};
ghost use Rattle.ksi_synod.specs.Rows.{counts_last, with_last, decree_now, took_of, voted_for, with_voted, completes, greater_vote, decree_of};

use crate::messages::{Took, Vote};
use crate::voters::Voters;
use ksi_imprint::Imprint;
use std::marker::Model;

/// The ballot in hand: the cores whose LastVote and Voted counted, the greatest vote told, and the decree once begun.
#[derive(Clone, Copy)]
pub struct InHand {
    ballot: u64,
    last: [bool; 9],
    greatest: Option<Vote>,
    decree: Option<Imprint>,
    voted: [bool; 9],
}

impl Model for InHand {
    ghost use Rattle.std.specs.Prelude.{◌≡◌, length};
    ghost use Rattle.ksi_synod.specs.VoteState.{Hand};

    ghost Value = { Hand };

    ghost view = { λ hand. record { ballot = hand.ballot; last = hand.last; greatest = hand.greatest; decree = hand.decree; voted = hand.voted } };

    ghost invariant = { λ hand. (length hand.last ≡ 9) × (length hand.voted ≡ 9) };

    ghost inverse = { λ hand. record { ballot = hand.ballot; last = hand.last; greatest = hand.greatest; decree = hand.decree; voted = hand.voted } };
}

impl InHand {
    /// A ballot of which nothing was heard yet.
    pub(crate) fn new(ballot: u64) -> Self
        ensures { result ≡ new_hand ballot }
    {
        InHand {
            ballot,
            last: [false; 9],
            greatest: None,
            decree: None,
            voted: [false; 9],
        }
    }

    /// Whether a LastVote of the core in the ballot counts.
    pub(crate) fn counts_last(&self, voters: &Voters, from: u8, ballot: u64) -> bool
        requires { from < 9 }
        ensures { result ≡ counts_last voters.now (Some self.now) from ballot }
    {
        self.ballot == ballot
            && self.decree.is_none()
            && voters.contains(from)
            && !self.last[from as usize]
    }

    /// Counts a LastVote of the core with its vote.
    pub(crate) fn add_last(&mut self, from: u8, vote: &Option<Vote>)
        requires { from < 9 }
        ensures { self.new ≡ with_last self.old from vote.now }
    {
        self.last[from as usize] = true;
        self.greatest = greater(&self.greatest, vote);
    }

    /// Begins the decree, once a majority told its votes.
    pub(crate) fn begin(&mut self, voters: &Voters, candidate: &Option<Imprint>) -> Took
        ensures hand { self.new ≡ record self.old { decree = decree_now voters.now candidate.now self.old } }
        ensures answer { result ≡ took_of (decree_now voters.now candidate.now self.old) }
    {
        self.decree = if voters.is_majority(&self.last) {
            decree_by(&self.greatest, candidate)
        } else {
            None
        };
        match self.decree {
            Some(decree) => Took::Decree(decree),
            None => Took::Added,
        }
    }

    /// The decree that a Voted of the core in the ballot counts for, where it counts.
    pub(crate) fn voted_for(&self, voters: &Voters, from: u8, ballot: u64) -> Option<Imprint>
        requires { from < 9 }
        ensures { result ≡ voted_for voters.now (Some self.now) from ballot }
    {
        if self.ballot == ballot && voters.contains(from) && !self.voted[from as usize] {
            self.decree
        } else {
            None
        }
    }

    /// Counts a Voted of the core: whether it completes a majority.
    pub(crate) fn add_voted(&mut self, voters: &Voters, from: u8) -> bool
        requires { from < 9 }
        ensures hand { self.new ≡ with_voted self.old from }
        ensures first { result ≡ completes voters.now self.old self.new }
    {
        let before = voters.is_majority(&self.voted);
        self.voted[from as usize] = true;
        voters.is_majority(&self.voted) && !before
    }
}

// Of equal ballots the vote that came first.
fn greater(old: &Option<Vote>, new: &Option<Vote>) -> Option<Vote>
    ensures { result ≡ greater_vote old.now new.now }
{
    match (*old, *new) {
        (None, new) => new,
        (Some(old), None) => Some(old),
        (Some(old), Some(new)) => Some(if old.ballot < new.ballot { new } else { old }),
    }
}

fn decree_by(greatest: &Option<Vote>, candidate: &Option<Imprint>) -> Option<Imprint>
    ensures { result ≡ decree_of greatest.now candidate.now }
{
    match *greatest {
        None => *candidate,
        Some(vote) => Some(vote.imprint),
    }
}
