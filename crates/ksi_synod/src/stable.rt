ghost use Rattle.std.specs.Prelude.{◌≡◌, IfSome};
ghost use Rattle.ksi_synod.specs.VoteState.{fresh_stable, is_bare, bare_stable};

use crate::messages::Vote;
use ksi_imprint::Imprint;
use std::marker::Model;

/// The part of an [`Instance`](crate::Instance) that survives a restart: its candidate, the last ballot that it tried and
/// the greatest that it promised, its vote, and the decree that it holds.
#[derive(Clone, Copy)]
pub struct Stable {
    pub(crate) candidate: Option<Imprint>,
    pub(crate) tried: u64,
    pub(crate) promised: u64,
    pub(crate) vote: Option<Vote>,
    pub(crate) held: Option<Imprint>,
}

impl Model for Stable {
    ghost use Rattle.std.specs.Prelude.{◌<◌, ◌^◌};
    ghost use Rattle.ksi_synod.specs.VoteState.{StableVote};

    ghost Value = { StableVote };

    ghost view = { λ s. record { candidate = s.candidate; tried = s.tried; promised = s.promised; vote = s.vote; held = s.held } };

    ghost invariant = { λ s. (s.tried < 2 ^ 36) × (s.promised < 2 ^ 36) };

    ghost inverse = { λ s. record { candidate = s.candidate; tried = s.tried; promised = s.promised; vote = s.vote; held = s.held } };
}

impl Stable {
    /// The part before any event.
    pub fn new() -> Self
        ensures { result ≡ fresh_stable }
    {
        Stable {
            candidate: None,
            tried: 0,
            promised: 0,
            vote: None,
            held: None,
        }
    }

    /// The part with a decree and nothing else.
    pub fn bare(decree: Imprint) -> Self
        ensures { result ≡ bare_stable decree }
    {
        Stable {
            candidate: None,
            tried: 0,
            promised: 0,
            vote: None,
            held: Some(decree),
        }
    }

    /// Whether a decree is held, and there is no vote, tried ballot or promise. A candidate may be set.
    pub fn is_bare(&self) -> bool
        ensures { result ≡ is_bare self.now }
    {
        self.held.is_some() && self.vote.is_none() && self.tried == 0 && self.promised == 0
    }

    /// The decree, if there is nothing else.
    pub fn bare_root(&self) -> Option<Imprint>
        ensures { IfSome result (λ decree. self.now ≡ bare_stable decree) }
    {
        if self.candidate.is_some()
            || self.vote.is_some()
            || self.tried != 0
            || self.promised != 0
        {
            return None;
        }
        self.held
    }

    /// The decree that is held.
    pub fn held(&self) -> Option<Imprint>
        ensures { result ≡ self.now.held }
    {
        self.held
    }

    /// The candidate.
    pub fn candidate(&self) -> Option<Imprint>
        ensures { result ≡ self.now.candidate }
    {
        self.candidate
    }
}
