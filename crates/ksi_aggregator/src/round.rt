//! The round of one second.
ghost use Rattle.std.specs.Prelude.{◌≡◌, ◌≤◌, ◌<◌, ◌^◌, ◌↔◌, length, slice_get, option_map, is_some, Some, IsTrue, IfOk, IfSome, IfNone, OnErr};
ghost use Rattle.ksi_aggtree.specs.declared.item.Item.{Item};
ghost use Rattle.ksi_aggtree.specs.Rounds.{leaf_level, highest_item};
ghost use Rattle.ksi_aggregator.specs.Rows.{fresh_round, round_request, round_submission, round_close, round_response};
ghost use Rattle.ksi_aggregator.specs.Rounds.{items_in, fact_of, StandsAt, HasPlace};
ghost use Rattle.ksi_aggregator.specs.Responses.{is_lower, has_lower};
ghost use Rattle.ksi_aggregator.specs.Issuing.{IsIssuedAt, NotIssuedAt, from_request, issued_text};

use crate::copies::copies_of;
use crate::fact::{ClosedItems, Fact, RoundFact};
use crate::responses::responses;
use crate::step::{Send, Step};
use ksi_aggtree::laws::metas_are_even;
use ksi_aggtree::{AddRefusal, Entries, Entry, Item, Name, Origin};
use ksi_imprint::{Bytes, Compress, Imprint, NoMemory, Refused};
use ksi_signature::{Above, Answer, Sends, issue};
use std::alloc::Global;
use std::marker::Model;

/// The items of a second, whether these are closed, and then the first response. A contract sees the round's state.
#[derive(Drop)]
pub(crate) struct Round<C: Compress> {
    entries: Entries<C>,
    is_closed: bool,
    response: Option<Above>,
}

impl<C: Compress> Model for Round<C> {
    ghost use Rattle.std.specs.Prelude.{if◌then◌else◌, [], Some, None};
    ghost use Rattle.ksi_aggregator.specs.Rows.{RoundState};

    ghost Value = { RoundState };

    ghost view = { λ r. record {
      open_items = if r.is_closed then [] else r.entries;
      closed = if r.is_closed then Some r.entries else None;
      answered = if r.is_closed then r.response else None;
    } };
}

impl<C: Compress> Round<C> {
    /// A round without items.
    pub(crate) fn new(alloc: Global) -> Result<Self, NoMemory>
        ensures { IfOk result (λ round. round ≡ fresh_round) }
    {
        Ok(Round {
            entries: Entries::new(alloc)?,
            is_closed: false,
            response: None,
        })
    }

    /// Whether the round is closed.
    pub(crate) fn is_closed(&self) -> bool
        ensures { result ≡ is_some self.now.closed }
    {
        self.is_closed
    }

    /// How many items there are.
    pub(crate) fn count(&self) -> usize
        ensures { result ≡ length (items_in self.now) }
    {
        self.entries.count()
    }

    /// The items, if the round is not closed; else none.
    pub(crate) fn open_items(&self, alloc: Global) -> Result<Vec<Entry>, NoMemory>
        ensures { IfOk result (λ items. items.items ≡ self.now.open_items) }
    {
        if self.is_closed {
            Ok(Vec::new(alloc))
        } else {
            self.entries.to_vec()
        }
    }

    /// Whether an item of a lower aggregator is there.
    pub(crate) fn has_lower(&self) -> bool
        ensures { result ≡ has_lower (items_in self.now) }
    {
        has_lower(&self.entries)
    }

    /// Whether the item at a place is one of the request.
    pub(crate) fn has_request(&self, number: u64, place: usize) -> bool
        ensures { IsTrue result ↔ StandsAt number (items_in self.now) place }
    {
        stands_at(&self.entries, number, place)
    }

    /// Takes the request of a number.
    #[tactic(auto, unfolding(crate::specs::Rows::round_request))]
    pub(crate) fn request(
        &mut self,
        number: u64,
        imprint: Imprint,
        name: Option<Name>,
    ) -> Result<Answer, NoMemory>
        ensures after { IfOk result (λ answer. self.new ≡ (round_request number imprint name self.old).after) }
        ensures answer { IfOk result (λ answer. answer ≡ (round_request number imprint name self.old).answer) }
        ensures unchanged { OnErr result (self.new ≡ self.old) }
    {
        if self.is_closed {
            return Ok(Answer::Late);
        }
        let entry = Entry {
            origin: Origin::Request(number),
            item: Item::new(imprint, 0).with_name(name),
        };
        match self.entries.add(entry) {
            Ok(_) => Ok(Answer::Number(number)),
            Err(Refused::Fault(AddRefusal::Full)) => Ok(Answer::Full),
            Err(Refused::NoMemory) => Err(NoMemory),
        }
    }

    /// Takes the item of an aggregator.
    #[tactic(auto, unfolding(crate::specs::Rows::round_submission))]
    pub(crate) fn submission(&mut self, from: u32, item: Item) -> Result<Answer, NoMemory>
        requires { leaf_level item ≤ highest_item }
        ensures after { IfOk result (λ answer. self.new ≡ (round_submission from item self.old).after) }
        ensures answer { IfOk result (λ answer. answer ≡ (round_submission from item self.old).answer) }
        ensures unchanged { OnErr result (self.new ≡ self.old) }
    {
        if self.is_closed {
            return Ok(Answer::Late);
        }
        if self.entries.has_from(from) {
            return Ok(Answer::Known);
        }
        let entry = Entry {
            origin: Origin::Aggregator(from),
            item,
        };
        match self.entries.add(entry) {
            Ok(_) => Ok(Answer::Done),
            Err(Refused::Fault(AddRefusal::Full)) => Ok(Answer::Full),
            Err(Refused::NoMemory) => Err(NoMemory),
        }
    }

    /// Closes the round, which is one of this second.
    #[tactic(auto, unfolding(crate::specs::Rows::round_close))]
    pub(crate) fn close(&mut self, alloc: Global, second: u64) -> Result<Step, NoMemory>
        ensures after { IfOk result (λ step. self.new ≡ (round_close C.image self.old).after) }
        ensures answer { IfOk result (λ step. step.answer ≡ (round_close C.image self.old).answer) }
        ensures fact { IfOk result (λ step. step.fact ≡ option_map (fact_of second) (round_close C.image self.old).fact) }
        ensures sends { IfOk result (λ step. step.sends ≡ (round_close C.image self.old).sends) }
        ensures unchanged { OnErr result (self.new ≡ self.old) }
    {
        if self.is_closed {
            return Ok(Step::without_sends(alloc, Answer::Closed));
        }
        let mut sends = Vec::new(alloc);
        if let Some(root) = self.entries.root() {
            sends.push(Send::Submission(Item::of(root)))?;
        }
        let items = self.entries.to_vec()?;
        self.response = None;
        self.is_closed = true;
        Ok(Step {
            answer: Answer::Done,
            fact: Some(Fact {
                second,
                what: RoundFact::Closed(ClosedItems::from_vec(items)),
            }),
            sends: Sends::from_vec(sends),
        })
    }

    /// Takes the response to the round, which is one of this second.
    #[tactic(auto, unfolding(crate::specs::Rows::round_response))]
    pub(crate) fn response(
        &mut self,
        alloc: Global,
        second: u64,
        above: &Above,
    ) -> Result<Step, NoMemory>
        requires { HasPlace self.old above.now }
        ensures after { IfOk result (λ step. self.new ≡ (round_response C.image above.now self.old).after) }
        ensures answer { IfOk result (λ step. step.answer ≡ (round_response C.image above.now self.old).answer) }
        ensures fact { IfOk result (λ step. step.fact ≡ option_map (fact_of second) (round_response C.image above.now self.old).fact) }
        ensures sends { IfOk result (λ step. step.sends ≡ (round_response C.image above.now self.old).sends) }
        ensures unchanged { OnErr result (self.new ≡ self.old) }
    {
        if !self.is_closed || self.entries.count() == 0 || self.response.is_some() {
            return Ok(Step::without_sends(alloc, Answer::Nothing));
        }
        let sends = responses(alloc, &self.entries, above)?;
        let (first, stored) = copies_of(alloc, above)?;
        self.response = Some(first);
        Ok(Step {
            answer: Answer::Done,
            fact: Some(Fact {
                second,
                what: RoundFact::Answered(stored),
            }),
            sends,
        })
    }

    /// The signature of the request whose item is at a place, where the round is closed and has a response; none
    /// where no item of it stands there, or no response.
    pub(crate) fn issued(
        &self,
        alloc: Global,
        number: u64,
        second: u64,
        place: usize,
    ) -> Result<Option<Bytes>, NoMemory>
        requires { second < 2 ^ 63 }
        ensures some { IfOk result (λ found. IfSome found (λ bytes. IsIssuedAt C.image self.now number second place bytes)) }
        ensures short { IfOk result (λ found. IfSome found (λ bytes. length bytes ≤ 10000)) }
        ensures none { IfOk result (λ found. IfNone found (NotIssuedAt self.now number place)) }
    {
        if !self.is_closed {
            return Ok(None);
        }
        match &self.response {
            None => Ok(None),
            Some(above) => issued_by(alloc, &self.entries, number, second, place, above),
        }
    }
}

/// The signature of the request whose item is at a place among these, by their response.
fn issued_by<C: Compress>(
    alloc: Global,
    entries: &Entries<C>,
    number: u64,
    second: u64,
    place: usize,
    above: &Above,
) -> Result<Option<Bytes>, NoMemory>
    requires { second < 2 ^ 63 }
    ensures some { IfOk result (λ found. IfSome found (λ bytes.
        (item : Item) × (slice_get entries.now place ≡ Some (from_request number item))
        × (bytes ≡ issued_text C.image second entries.now place item above.now))) }
    ensures short { IfOk result (λ found. IfSome found (λ bytes. length bytes ≤ 10000)) }
    ensures none { IfOk result (λ found. IfNone found (
        (item : Item) → slice_get entries.now place ≡ Some (from_request number item) → ⊥)) }
{
    if place >= entries.count() {
        return Ok(None);
    }
    let entry = entries.entry(place);
    if !is_request(&entry.origin, number) {
        return Ok(None);
    }
    metas_are_even();
    let links = entries.path(place)?;
    let bytes = issue(alloc, second, &entry.item.imprint, links.as_slice(), above)?;
    Ok(Some(bytes))
}

/// Whether the item at a place among these is one of the request.
fn stands_at<C: Compress>(entries: &Entries<C>, number: u64, place: usize) -> bool
    ensures { IsTrue result ↔ StandsAt number entries.now place }
{
    if place >= entries.count() {
        return false;
    }
    let entry = entries.entry(place);
    is_request(&entry.origin, number)
}

/// Whether an item of a lower aggregator is among these.
fn has_lower<C: Compress>(entries: &Entries<C>) -> bool
    ensures { result ≡ has_lower entries.now }
{
    'looking: for k in 0..entries.count() {
        let entry = entries.entry(k);
        if is_lower(&entry.origin) {
            return true;
        }
    }
    false
}

fn is_lower(origin: &Origin) -> bool
    ensures { result ≡ is_lower origin.now }
{
    match origin {
        Origin::Request(_) => false,
        Origin::Aggregator(_) => true,
    }
}

/// Whether this is the request of the number.
fn is_request(origin: &Origin, number: u64) -> bool
    ensures { IsTrue result ↔ (origin.now ≡ Origin.Request number) }
{
    matches!(origin, Origin::Request(n) if *n == number)
}
