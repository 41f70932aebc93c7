ghost use Rattle.std.specs.Prelude.{◌≡◌, ◌≤◌, ◌<◌, ◌^◌, ◌↔◌, ◌⊎◌, ℕ, length, IsSome, IsTrue, IfOk, IfSome, IfNone, OnErr};
ghost use Rattle.ksi_aggtree.specs.Rounds.{leaf_level, highest_item};
ghost use Rattle.ksi_aggregator.specs.Rows.{fresh_round, round_request, round_submission, round_close, round_response, round_restarted};
ghost use Rattle.ksi_aggregator.specs.Rounds.{rounds_of, items_in, IsNew, HasPlace, SameRounds, IsTurn};
ghost use Rattle.ksi_aggregator.specs.Responses.{has_lower};
ghost use Rattle.ksi_aggregator.specs.Refusals.{IsFull, IsKnown, IsFullFor, AwaitsResponse};
ghost use Rattle.ksi_aggregator.specs.Issuing.{IsIssued, NotIssued};

use crate::place::Place;
use crate::rounds::Rounds;
use crate::step::Step;
use ksi_aggtree::{Entry, Item, Name};
use ksi_imprint::{Bytes, Compress, Imprint, NoMemory};
use ksi_signature::{Above, Answer};
use std::alloc::Global;
use std::collections::BTreeMap;
use std::marker::Model;

/// An aggregator. A contract sees its number and its round of each second, which is a fresh one where nothing came.
#[derive(Drop)]
pub struct Aggregator<C: Compress> {
    me: u32,
    rounds: Rounds<C>,
    requests: BTreeMap<u64, Place>,
}

impl<C: Compress> Model for Aggregator<C> {
    ghost use Rattle.std.specs.Ordering.{nat_cmp};
    ghost use Rattle.std.specs.BTreeMap.{get};
    ghost use Rattle.ksi_aggregator.specs.Rounds.{AggregatorState, round_at};
    ghost use Rattle.ksi_aggregator.specs.Issuing.{AreFound, AreEarly};

    ghost Value = { AggregatorState };

    ghost view = { λ a. record { me = a.me; kept = a.rounds } };

    ghost invariant = { λ a. AreFound (round_at a.rounds) (get nat_cmp a.requests) × AreEarly (get nat_cmp a.requests) };
}

impl<C: Compress> Aggregator<C> {
    /// The aggregator of this number, with nothing in it.
    pub fn new(alloc: Global, me: u32) -> Self
        ensures me { result.me ≡ me }
        ensures fresh { (t : ℕ) → rounds_of result t ≡ fresh_round }
    {
        Aggregator {
            me,
            rounds: Rounds::new(alloc),
            requests: BTreeMap::new(alloc),
        }
    }

    /// Its number.
    pub fn me(&self) -> u32
        ensures { result ≡ self.now.me }
    {
        self.me
    }

    /// Whether the number is new to its rounds: no round, open or closed, has an item of the request.
    pub fn is_new(&self, number: u64) -> bool
        ensures { IsTrue result ↔ IsNew number (rounds_of self.now) }
    {
        match self.requests.get(&number) {
            Some(place) => !self.rounds.has_request(number, place.second, place.place),
            None => true,
        }
    }

    /// How many items the round of a second has, open or closed.
    pub fn count(&self, second: u64) -> usize
        ensures { result ≡ length (items_in (rounds_of self.now second)) }
    {
        self.rounds.count(second)
    }

    /// The items of the round of a second, if it is not closed; else none. They are those that a closing stores.
    ///
    /// # Errors
    /// `NoMemory`.
    pub fn open_items(&self, second: u64) -> Result<Vec<Entry>, NoMemory>
        ensures { IfOk result (λ items. items.items ≡ (rounds_of self.now second).open_items) }
    {
        self.rounds.open_items(second)
    }

    /// Whether the round of a second has an item of a lower aggregator. A response to it then has at most 7 chains. It
    /// looks at each item until it finds one.
    pub fn has_lower(&self, second: u64) -> bool
        ensures { result ≡ has_lower (items_in (rounds_of self.now second)) }
    {
        self.rounds.has_lower(second)
    }

    /// Takes the request of a number for a second: an item of level 0 of the round, with the request's name where it has
    /// one. The number is new to its rounds, and the second is before 2^63. The answer is that number, `Late` where the
    /// round is closed, else `Full` where it has 65,536 items.
    ///
    /// # Errors
    /// `NoMemory`: all is as it was.
    pub fn request(
        &mut self,
        number: u64,
        second: u64,
        imprint: Imprint,
        name: Option<Name>,
    ) -> Result<Step, NoMemory>
        requires new { IsNew number (rounds_of self.old) }
        requires early { second < 2 ^ 63 }
        ensures me { self.new.me ≡ self.old.me }
        ensures step { IfOk result (IsTurn (rounds_of self.old) (rounds_of self.new) second (round_request number imprint name (rounds_of self.old second))) }
        ensures late { IfOk result (λ step. (step.answer ≡ Answer.Late) ↔ IsSome (rounds_of self.old second).closed) }
        ensures full { IfOk result (λ step. (step.answer ≡ Answer.Full) ↔ IsFull (rounds_of self.old second)) }
        ensures unchanged { OnErr result (SameRounds (rounds_of self.old) (rounds_of self.new)) }
    {
        let place = self.rounds.count(second);
        self.requests.insert(number, Place { second, place })?;
        self.rounds.request(number, second, imprint, name)
    }

    /// Takes an item of a level to 239, with a name to 238, that an aggregator submits for a second before 2^63. The
    /// answer is `Done`, `Late` where the round is closed, else `Known` where an item of that aggregator is there, else
    /// `Full` where it has 65,536 items.
    ///
    /// # Errors
    /// `NoMemory`: all is as it was.
    pub fn submission(&mut self, aggregator: u32, second: u64, item: Item) -> Result<Step, NoMemory>
        requires early { second < 2 ^ 63 }
        requires level { leaf_level item ≤ highest_item }
        ensures me { self.new.me ≡ self.old.me }
        ensures step { IfOk result (IsTurn (rounds_of self.old) (rounds_of self.new) second (round_submission aggregator item (rounds_of self.old second))) }
        ensures late { IfOk result (λ step. (step.answer ≡ Answer.Late) ↔ IsSome (rounds_of self.old second).closed) }
        ensures known { IfOk result (λ step. (step.answer ≡ Answer.Known) ↔ IsKnown aggregator (rounds_of self.old second)) }
        ensures full { IfOk result (λ step. (step.answer ≡ Answer.Full) ↔ IsFullFor aggregator (rounds_of self.old second)) }
        ensures unchanged { OnErr result (SameRounds (rounds_of self.old) (rounds_of self.new)) }
    {
        self.rounds.submission(aggregator, second, item)
    }

    /// Closes the round of a second before 2^63, and submits its tree's item to the parent where it has items. The answer
    /// is `Done`, or `Closed` where it is closed already.
    ///
    /// # Errors
    /// `NoMemory`: all is as it was.
    pub fn close(&mut self, second: u64) -> Result<Step, NoMemory>
        requires { second < 2 ^ 63 }
        ensures me { self.new.me ≡ self.old.me }
        ensures step { IfOk result (IsTurn (rounds_of self.old) (rounds_of self.new) second (round_close C.image (rounds_of self.old second))) }
        ensures closed { IfOk result (λ step. (step.answer ≡ Answer.Closed) ↔ IsSome (rounds_of self.old second).closed) }
        ensures unchanged { OnErr result (SameRounds (rounds_of self.old) (rounds_of self.new)) }
    {
        self.rounds.close(second)
    }

    /// Takes the response to its round of a second before 2^63, and sends the path to the root to the lower aggregators
    /// whose items are there. If there are such items, the response has at most 7 chains. The answer is `Done`, or
    /// `Nothing` if the round is not closed, has no items or has a response already.
    ///
    /// # Errors
    /// `NoMemory`: nothing has changed.
    pub fn response(&mut self, second: u64, above: &Above) -> Result<Step, NoMemory>
        requires early { second < 2 ^ 63 }
        requires chains { HasPlace (rounds_of self.old second) above.now }
        ensures me { self.new.me ≡ self.old.me }
        ensures step { IfOk result (IsTurn (rounds_of self.old) (rounds_of self.new) second (round_response C.image above.now (rounds_of self.old second))) }
        ensures done { IfOk result (λ step. (step.answer ≡ Answer.Done) ↔ AwaitsResponse (rounds_of self.old second)) }
        ensures nothing { IfOk result (λ step. (step.answer ≡ Answer.Done) ⊎ (step.answer ≡ Answer.Nothing)) }
        ensures unchanged { OnErr result (SameRounds (rounds_of self.old) (rounds_of self.new)) }
    {
        self.rounds.response(second, above)
    }

    /// Forgets the rounds that are not closed.
    pub fn restart(&mut self)
        ensures me { self.new.me ≡ self.old.me }
        ensures rounds { (t : ℕ) → rounds_of self.new t ≡ round_restarted (rounds_of self.old t) }
    {
        self.rounds.restart();
    }

    /// The signature of the request of this number, or none exactly if no closed round that has a response has an item of
    /// it. It has at most 10,000 bytes.
    ///
    /// # Errors
    /// `NoMemory`: nothing has changed.
    pub fn issued(&self, number: u64) -> Result<Option<Bytes>, NoMemory>
        ensures some { IfOk result (λ found. IfSome found (IsIssued C.image (rounds_of self.now) number)) }
        ensures short { IfOk result (λ found. IfSome found (λ bytes. length bytes ≤ 10000)) }
        ensures none { IfOk result (λ found. IfNone found (NotIssued (rounds_of self.now) number)) }
    {
        match self.requests.get(&number) {
            Some(place) => self.rounds.issued(number, place.second, place.place),
            None => Ok(None),
        }
    }
}
