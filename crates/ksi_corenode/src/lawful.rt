//! Which facts a core may store.
ghost use Rattle.std.specs.Prelude.{◌≡◌, ◌↔◌, ℕ, ◌≤◌, ◌<◌, ◌^◌, nat_le, is_some, IsTrue, Option};
ghost use Rattle.std.specs.List.{list_all};
ghost use Rattle.ksi_aggtree.specs.Rounds.{IsRound, leaf_level, highest_item};
ghost use Rattle.ksi_aggtree.specs.Entries.{items_of};
ghost use Rattle.ksi_synod.specs.Ballots.{IsBallot, some_ballot};
ghost use Rattle.ksi_synod.specs.Rows.{is_older};
ghost use Rattle.ksi_corenode.specs.SecondState.{SecondState};
ghost use Rattle.ksi_corenode.specs.Facts.{stable_state};
ghost use Rattle.ksi_corenode.specs.Lawful.{AreSubmitted, is_submitted, is_fit, IsLawful, MayStore};
ghost use Rattle.ksi_corenode.specs.Owners.{IsOwned, StoresOwned};
ghost use Rattle.ksi_corenode.specs.CoreState.{state_of};

use crate::fact::{Fact, What};
use crate::node::Core;
use ksi_aggtree::{Entry, HIGHEST_ITEM, Item, MOST_ITEMS, Origin};
use ksi_imprint::Compress;
use ksi_synod::{Instance, Vote};

/// The first second that is too late.
const LATE: u64 = 9_223_372_036_854_775_808;

/// The first number that is too great for a ballot.
const GREAT: u64 = 68_719_476_736;

impl<C: Compress> Core<C> {
    /// Whether a fact is lawful after what this core stored.
    pub fn may_store(&self, fact: &Fact) -> bool
        ensures { IsTrue result ↔ IsLawful self.now.plan.cores self.now.start (stable_state (state_of self.now fact.now.second)) fact.now }
    {
        let second = fact.second;
        let sealed = self.seconds().is_sealed(second);
        let vote = self.seconds().vote(second);
        self.start() <= second
            && second < LATE
            && stores_owned(self.seconds().plan().cores(), &fact.what)
            && may_store(sealed, &vote, &fact.what)
    }
}

/// Whether the ballot that is stored, if any, is of one of this many cores.
fn stores_owned(cores: u8, what: &What) -> bool
    ensures { IsTrue result ↔ StoresOwned cores what.now }
{
    match what {
        What::Tried(ballot) | What::Promised(ballot) => is_owned(cores, *ballot),
        What::Cast(cast) => is_owned(cores, cast.ballot),
        What::Sealed(_) | What::Holds(_) => true,
    }
}

fn is_owned(cores: u8, ballot: u64) -> bool
    ensures { IsTrue result ↔ IsOwned cores ballot }
{
    ballot % 16 < u64::from(cores)
}

/// Whether this may be stored of a second, which is sealed or not, where this is the part in the vote on it.
fn may_store(sealed: bool, vote: &Instance, what: &What) -> bool
    ensures { (s : SecondState) → s.vote ≡ vote.now → is_some s.sealed ≡ sealed → IsTrue result ↔ MayStore (stable_state s) what.now }
{
    match what {
        What::Sealed(items) => !sealed && is_round(items.as_slice()),
        What::Tried(ballot) => sealed && number_of(vote.tried()) < *ballot && is_ballot(*ballot),
        What::Promised(ballot) => number_of(vote.promised()) < *ballot && is_ballot(*ballot),
        What::Cast(cast) => {
            cast.ballot == number_of(vote.promised())
                && is_older(vote.voted(), cast.ballot)
                && is_ballot(cast.ballot)
        }
        What::Holds(_) => vote.held().is_none(),
    }
}

/// The number of a ballot, or 0 if there is none.
fn number_of(ballot: Option<u64>) -> u64
    ensures { (number : ℕ) → ballot ≡ some_ballot number → result ≡ number }
{
    ballot.unwrap_or(0)
}

fn is_ballot(number: u64) -> bool
    ensures { IsTrue result ↔ IsBallot number }
{
    16 <= number && number < GREAT
}

/// Whether the vote, if any, is of a smaller ballot.
fn is_older(vote: Option<Vote>, ballot: u64) -> bool
    ensures { result ≡ is_older vote ballot }
{
    match vote {
        None => true,
        Some(vote) => vote.ballot < ballot,
    }
}

/// Whether the items make a round that aggregators submitted.
fn is_round(items: &[Entry]) -> bool
    ensures { IsTrue result ↔ (IsRound (items_of items.now) × AreSubmitted items.now) }
{
    items.len() <= MOST_ITEMS && are_fit(items)
}

/// Whether each of the items is fit for a core's round.
fn are_fit(items: &[Entry]) -> bool
    ensures { result ≡ list_all is_fit items.now }
{
    items.iter().all(|entry| is_fit(entry))
}

/// Whether the item's leaf is of a level that a round takes, and an aggregator submitted it.
fn is_fit(entry: &Entry) -> bool
    ensures { result ≡ is_fit entry.now }
{
    is_low(&entry.item) && is_submitted(&entry.origin)
}

fn is_low(item: &Item) -> bool
    ensures { result ≡ nat_le (leaf_level item.now) highest_item }
{
    match &item.name {
        None => item.level <= HIGHEST_ITEM,
        Some(_) => item.level < HIGHEST_ITEM,
    }
}

fn is_submitted(origin: &Origin) -> bool
    ensures { result ≡ is_submitted origin.now }
{
    match origin {
        Origin::Request(_) => false,
        Origin::Aggregator(_) => true,
    }
}
