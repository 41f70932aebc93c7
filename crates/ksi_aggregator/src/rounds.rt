//! The rounds of all seconds.
ghost use Rattle.std.specs.Prelude.{◌≡◌, ◌≤◌, ◌<◌, ◌==◌, ◌^◌, ℕ, true, false, if◌then◌else◌, length, Some, IsTrue, ◌↔◌, IfOk, IfSome, IfNone, OnOk, OnErr};
ghost use Rattle.std.specs.Ordering.{nat_cmp};
ghost use Rattle.std.specs.BTreeMap.{get};
ghost use Rattle.ksi_aggtree.specs.Rounds.{leaf_level, highest_item};
ghost use Rattle.ksi_aggregator.specs.Rows.{fresh_round, round_request, round_submission, round_close, round_response, round_restarted};
ghost use Rattle.ksi_aggregator.specs.Rounds.{round_at, items_in, HasPlace, SameRounds, IsTurn, StandsAt};
ghost use Rattle.ksi_aggregator.specs.Responses.{has_lower};
ghost use Rattle.ksi_aggregator.specs.Issuing.{IsIssuedAt, NotIssuedAt};
ghost use Rattle.ksi_aggregator.specs.Listed.{is_among};

use crate::round::Round;
use crate::step::Step;
use ksi_aggtree::{Entry, Item, Name};
use ksi_imprint::{Bytes, Compress, Imprint, NoMemory};
use ksi_signature::{Above, Answer};
use std::alloc::Global;
use std::collections::BTreeMap;
use std::marker::Model;

/// The rounds that are kept. The round of a second that nothing is kept of is a fresh one. Listed are the seconds whose first
/// item came since the last restart, so that the next one looks at no others.
#[derive(Drop)]
pub(crate) struct Rounds<C: Compress> {
    alloc: Global,
    map: BTreeMap<u64, Round<C>>,
    listed: Vec<u64>,
}

impl<C: Compress> Model for Rounds<C> {
    ghost use Rattle.std.specs.Prelude.{ℕ, List};
    ghost use Rattle.ksi_aggregator.specs.Rows.{RoundState};
    ghost use Rattle.ksi_aggregator.specs.Listed.{AreListed};

    ghost Value = { List (ℕ × RoundState) };

    ghost view = { λ rounds. rounds.map.entries };

    ghost invariant = { λ rounds. AreListed rounds.listed.items rounds.map.entries };
}

impl<C: Compress> Rounds<C> {
    pub(crate) fn new(alloc: Global) -> Self
        ensures { (t : ℕ) → round_at result t ≡ fresh_round }
    {
        Rounds {
            alloc,
            map: BTreeMap::new(alloc),
            listed: Vec::new(alloc),
        }
    }

    /// How many items the round of a second has.
    pub(crate) fn count(&self, second: u64) -> usize
        ensures { result ≡ length (items_in (round_at self.now second)) }
    {
        match self.map.get(&second) {
            Some(round) => round.count(),
            None => 0,
        }
    }

    /// The items of the round of a second, if it is not closed; else none.
    pub(crate) fn open_items(&self, second: u64) -> Result<Vec<Entry>, NoMemory>
        ensures { IfOk result (λ items. items.items ≡ (round_at self.now second).open_items) }
    {
        match self.map.get(&second) {
            Some(round) => round.open_items(self.alloc),
            None => Ok(Vec::new(self.alloc)),
        }
    }

    /// Whether an item of a lower aggregator is in the round of a second.
    pub(crate) fn has_lower(&self, second: u64) -> bool
        ensures { result ≡ has_lower (items_in (round_at self.now second)) }
    {
        match self.map.get(&second) {
            Some(round) => round.has_lower(),
            None => false,
        }
    }

    /// Whether the item at a place in the round of a second is one of the request.
    pub(crate) fn has_request(&self, number: u64, second: u64, place: usize) -> bool
        ensures { IsTrue result ↔ StandsAt number (items_in (round_at self.now second)) place }
    {
        match self.map.get(&second) {
            Some(round) => round.has_request(number, place),
            None => false,
        }
    }

    /// Takes a request.
    pub(crate) fn request(
        &mut self,
        number: u64,
        second: u64,
        imprint: Imprint,
        name: Option<Name>,
    ) -> Result<Step, NoMemory>
        ensures step { IfOk result (IsTurn (round_at self.old) (round_at self.new) second (round_request number imprint name (round_at self.old second))) }
        ensures unchanged { OnErr result (SameRounds (round_at self.old) (round_at self.new)) }
    {
        let count = self.count(second);
        list(&mut self.listed, second, count)?;
        make_room(self.alloc, &mut self.map, second)?;
        match self.map.get_mut(&second) {
            Some(round) => {
                let answer = round.request(number, imprint, name)?;
                Ok(Step::without_sends(self.alloc, answer))
            }
            None => unreachable!(),
        }
    }

    /// Takes an item of an aggregator.
    pub(crate) fn submission(
        &mut self,
        aggregator: u32,
        second: u64,
        item: Item,
    ) -> Result<Step, NoMemory>
        requires { leaf_level item ≤ highest_item }
        ensures step { IfOk result (IsTurn (round_at self.old) (round_at self.new) second (round_submission aggregator item (round_at self.old second))) }
        ensures unchanged { OnErr result (SameRounds (round_at self.old) (round_at self.new)) }
    {
        let count = self.count(second);
        list(&mut self.listed, second, count)?;
        make_room(self.alloc, &mut self.map, second)?;
        match self.map.get_mut(&second) {
            Some(round) => {
                let answer = round.submission(aggregator, item)?;
                Ok(Step::without_sends(self.alloc, answer))
            }
            None => unreachable!(),
        }
    }

    /// Closes a round.
    pub(crate) fn close(&mut self, second: u64) -> Result<Step, NoMemory>
        ensures step { IfOk result (IsTurn (round_at self.old) (round_at self.new) second (round_close C.image (round_at self.old second))) }
        ensures unchanged { OnErr result (SameRounds (round_at self.old) (round_at self.new)) }
    {
        make_room(self.alloc, &mut self.map, second)?;
        match self.map.get_mut(&second) {
            Some(round) => round.close(self.alloc, second),
            None => unreachable!(),
        }
    }

    /// Takes a response.
    #[tactic(auto, unfolding(crate::specs::Rows::round_response))]
    pub(crate) fn response(&mut self, second: u64, above: &Above) -> Result<Step, NoMemory>
        requires { HasPlace (round_at self.old second) above.now }
        ensures step { IfOk result (IsTurn (round_at self.old) (round_at self.new) second (round_response C.image above.now (round_at self.old second))) }
        ensures unchanged { OnErr result (SameRounds (round_at self.old) (round_at self.new)) }
    {
        match self.map.get_mut(&second) {
            Some(round) => round.response(self.alloc, second, above),
            None => Ok(Step::without_sends(self.alloc, Answer::Nothing)),
        }
    }

    /// Forgets the rounds that are not closed.
    pub(crate) fn restart(&mut self)
        ensures { (t : ℕ) → round_at self.new t ≡ round_restarted (round_at self.old t) }
    {
        'forgetting: while let Some(second) = self.listed.pop() {
            forget_open(&mut self.map, second);
        }
    }

    /// What is issued of an item of a round.
    pub(crate) fn issued(
        &self,
        number: u64,
        second: u64,
        place: usize,
    ) -> Result<Option<Bytes>, NoMemory>
        requires { second < 2 ^ 63 }
        ensures some { IfOk result (λ found. IfSome found (IsIssuedAt C.image (round_at self.now second) number second place)) }
        ensures short { IfOk result (λ found. IfSome found (λ bytes. length bytes ≤ 10000)) }
        ensures none { IfOk result (λ found. IfNone found (NotIssuedAt (round_at self.now second) number place)) }
    {
        match self.map.get(&second) {
            Some(round) => round.issued(self.alloc, number, second, place),
            None => Ok(None),
        }
    }
}

/// Makes room for the round of a second, which changes nothing that is seen.
fn make_room<C: Compress>(
    alloc: Global,
    map: &mut BTreeMap<u64, Round<C>>,
    second: u64,
) -> Result<(), NoMemory>
    ensures same { SameRounds (round_at map.old.entries) (round_at map.new.entries) }
    ensures there { OnOk result (get nat_cmp map.new second ≡ Some (round_at map.old.entries second)) }
{
    if map.contains_key(&second) {
        return Ok(());
    }
    let fresh = Round::new(alloc)?;
    map.insert(second, fresh)?;
    Ok(())
}

/// Lists a second to which the first item comes.
fn list(listed: &mut Vec<u64>, second: u64, count: usize) -> Result<(), NoMemory>
    ensures more { (t : ℕ) → is_among t listed.new.items ≡ false → is_among t listed.old.items ≡ false }
    ensures there { OnOk result (count ≡ 0 → is_among second listed.new.items ≡ true) }
{
    if count == 0 {
        listed.push(second)?;
    }
    Ok(())
}

/// Forgets the round of a second, unless it is closed.
fn forget_open<C: Compress>(map: &mut BTreeMap<u64, Round<C>>, second: u64)
    ensures { (t : ℕ) → round_at map.new.entries t ≡ (if t == second then round_restarted (round_at map.old.entries second) else round_at map.old.entries t) }
{
    let is_open = match map.get(&second) {
        Some(round) => !round.is_closed(),
        None => false,
    };
    if is_open {
        map.remove(&second);
    }
}
