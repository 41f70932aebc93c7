//! How a core answers the aggregators whose items it sealed.
ghost use Rattle.std.specs.Prelude.{◌≡◌, ◌↔◌, ℕ, ◌<◌, ◌≤◌, ◌+◌, ◌^◌, ◌++◌, ◌∷◌, [], length, IfOk, IfSome, OnOk, IsSome, IsNone, Some, None, slice_get};
ghost use Rattle.ksi_aggtree.specs.declared.entries.Entry.{Entry};
ghost use Rattle.ksi_aggtree.specs.Entries.{items_of};
ghost use Rattle.ksi_aggtree.specs.Rounds.{IsRound, most_items, leaf_level, highest_item};
ghost use Rattle.ksi_aggtree.specs.Paths.{chain_of};
ghost use Rattle.ksi_calendar.specs.Calendar.{Seconds, calendar_path};
ghost use Rattle.ksi_signature.specs.declared.answer.Answer.TheVariants.{Unsealed, Undecided, NotMine};
ghost use Rattle.ksi_calendar.specs.Covered.{IsFirstMissing, covered_seconds};
ghost use Rattle.ksi_corenode.specs.Settled.{IsCalendarOf};
ghost use Rattle.ksi_corenode.specs.Rows.{respond_row, is_mine, IsNotMine, responses_from, response_to, above_item};
ghost use Rattle.ksi_corenode.specs.CoreState.{state_of, held_by, IsTurn};

use crate::node::Core;
use crate::step::{Send, Step};
use ksi_aggtree::laws::metas_are_even;
use ksi_aggtree::{AddRefusal, Builder, Entry, Item, Origin, RoundPaths};
use ksi_calendar::laws::{one_covered, one_first_missing};
use ksi_calendar::{Calendar, SecondPath};
use ksi_imprint::{Compress, Imprint, NoMemory, Refused};
use ksi_signature::{Above, AboveChain, AboveChains, AboveLinks, Answer, CalendarLinks, Sends};
use std::alloc::Global;

impl<C: Compress> Core<C> {
    /// Answers the aggregators whose items were sealed for a second, which is at or after the start and below 2^63: a
    /// Response for each item in order, with the way from it to the calendar of this second.
    ///
    /// The answer is Unsealed where the second is not sealed, Undecided with the first second from the start to it that
    /// nothing is held for, NotMine where the held root is not this core's candidate or is the zero imprint, else Done.
    ///
    /// # Errors
    /// `NoMemory`: all is as it was.
    #[tactic(auto, unfolding(crate::specs::Rows::respond_row))]
    pub fn respond(&self, second: u64) -> Result<Step, NoMemory>
        requires from { self.now.start ≤ second }
        requires below { second < 2 ^ 63 }
        ensures turn { IfOk result (λ step. IsTurn self.now self.now second
            (respond_row C.image (held_by self.now) self.now.start second (state_of self.now second)) step) }
        ensures unsealed { IfOk result (λ step. (step.answer ≡ Unsealed) ↔ IsNone (state_of self.now second).sealed) }
        ensures undecided { IfOk result (λ step. (t : ℕ) → (step.answer ≡ Undecided t) ↔
            (IsSome (state_of self.now second).sealed × IsFirstMissing (held_by self.now) self.now.start second t)) }
        ensures not_mine { IfOk result (λ step. (step.answer ≡ NotMine) ↔
            IsNotMine C.image (held_by self.now) self.now.start second (state_of self.now second)) }
    {
        one_first_missing();
        let step = self.responded(second)?;
        Ok(step)
    }

    #[tactic(auto, unfolding(crate::specs::Rows::respond_row))]
    fn responded(&self, second: u64) -> Result<Step, NoMemory>
        requires from { self.now.start ≤ second }
        requires below { second < 2 ^ 63 }
        ensures answer { IfOk result (λ step. step.answer ≡
            (respond_row C.image (held_by self.now) self.now.start second (state_of self.now second)).answer) }
        ensures fact { IfOk result (λ step. step.fact ≡ None) }
        ensures sends { IfOk result (λ step. step.sends ≡
            (respond_row C.image (held_by self.now) self.now.start second (state_of self.now second)).sends) }
    {
        let alloc = self.alloc();
        let Some(entries) = self.sealed(second) else {
            return Ok(Step::without_sends(alloc, Answer::Unsealed));
        };
        let calendar = match self.covering(second) {
            Ok(calendar) => calendar,
            Err(missing) => return Ok(Step::without_sends(alloc, Answer::Undecided(missing))),
        };
        let Some(root) = self.held(second) else {
            return Ok(Step::without_sends(alloc, Answer::Undecided(second)));
        };
        if !self.is_mine(second, &root) {
            return Ok(Step::without_sends(alloc, Answer::NotMine));
        }
        let sends = self.sends(calendar, second, entries, &root)?;
        Ok(Step {
            answer: Answer::Done,
            fact: None,
            sends: Sends::from_vec(sends),
        })
    }

    /// Whether the root is the candidate for a second, and no missed second's.
    fn is_mine(&self, second: u64, root: &Imprint) -> bool
        ensures { IfSome (state_of self.now second).sealed (λ entries. result ≡ is_mine C.image entries root.now) }
    {
        match self.candidate(second) {
            Some(candidate) => candidate == *root && *root != Imprint::ZERO,
            None => false,
        }
    }

    /// The responses for the items that were sealed for a second, where the calendar covers it.
    fn sends(
        &self,
        calendar: &Calendar<C>,
        second: u64,
        entries: &[Entry],
        root: &Imprint,
    ) -> Result<Vec<Send>, NoMemory>
        requires below { second < 2 ^ 63 }
        requires kept { IsCalendarOf (held_by self.now) self.now.start calendar.now }
        requires covered { second < calendar.now.start + length calendar.now.roots }
        requires round { IsRound (items_of entries.now) }
        ensures { IfOk result (λ sends. sends.items ≡ responses_from
            (above_item C.image (covered_seconds (held_by self.now) self.now.start second) second root.now (items_of entries.now)) 0 entries.now) }
    {
        one_covered();
        let links = calendar.chain_to(second, second)?;
        let sends = responses::<C>(self.alloc(), entries, root, &links)?;
        Ok(sends)
    }
}

/// A response for each item that an aggregator submitted, in their order.
fn responses<C: Compress>(
    alloc: Global,
    entries: &[Entry],
    root: &Imprint,
    links: &SecondPath,
) -> Result<Vec<Send>, NoMemory>
    requires round { IsRound (items_of entries.now) }
    requires few { length links.now ≤ 63 }
    ensures { IfOk result (λ sends. (seconds : Seconds) (second : ℕ) →
        links.now ≡ calendar_path C.image seconds second second →
        sends.items ≡ responses_from (above_item C.image seconds second root.now (items_of entries.now)) 0 entries.now) }
{
    if entries.is_empty() {
        return Ok(Vec::new(alloc));
    }
    let round = round_of::<C>(alloc, entries)?;
    let paths = round.paths()?;
    responses_along(alloc, entries, &paths, root, links)
}

/// The tree of the items.
pub(crate) fn round_of<C: Compress>(
    alloc: Global,
    entries: &[Entry],
) -> Result<Builder<C>, NoMemory>
    requires { IsRound (items_of entries.now) }
    ensures { IfOk result (λ round. round ≡ items_of entries.now) }
{
    let mut round = Builder::new(alloc)?;
    'adding: for k in 0..entries.len() {
        let entry = entry_at(entries, k);
        add(&mut round, &entry.item)?;
    }
    Ok(round)
}

/// Item `k` with its origin.
fn entry_at(entries: &[Entry], k: usize) -> Entry
    requires { k < length entries.now }
    ensures { slice_get entries.now k ≡ Some result }
{
    entries[k]
}

/// Adds an item, where the round is not full.
fn add<C: Compress>(round: &mut Builder<C>, item: &Item) -> Result<(), NoMemory>
    requires level { leaf_level item.now ≤ highest_item }
    requires few { length round.old < most_items }
    ensures { OnOk result (round.new ≡ round.old ++ item.now ∷ []) }
{
    match round.add(*item) {
        Ok(_) => Ok(()),
        Err(Refused::NoMemory) => Err(NoMemory),
        Err(Refused::Fault(AddRefusal::Full)) => unreachable!(),
    }
}

/// The same, with the paths of the items.
fn responses_along<C: Compress>(
    alloc: Global,
    entries: &[Entry],
    paths: &RoundPaths<'_, C>,
    root: &Imprint,
    links: &SecondPath,
) -> Result<Vec<Send>, NoMemory>
    requires paths { paths.now ≡ items_of entries.now }
    requires few { length links.now ≤ 63 }
    ensures { IfOk result (λ sends. (seconds : Seconds) (second : ℕ) →
        links.now ≡ calendar_path C.image seconds second second →
        sends.items ≡ responses_from (above_item C.image seconds second root.now (items_of entries.now)) 0 entries.now) }
{
    let mut sends = Vec::new(alloc);
    'answering: for k in 0..entries.len() {
        put_response(alloc, entries, paths, k, root, links, &mut sends)?;
    }
    Ok(sends)
}

/// The response for item `k`, where an aggregator submitted it.
fn put_response<C: Compress>(
    alloc: Global,
    entries: &[Entry],
    paths: &RoundPaths<'_, C>,
    k: usize,
    root: &Imprint,
    links: &SecondPath,
    sends: &mut Vec<Send>,
) -> Result<(), NoMemory>
    requires paths { paths.now ≡ items_of entries.now }
    requires there { k < length entries.now }
    requires few { length links.now ≤ 63 }
    ensures { OnOk result ((entry : Entry) (seconds : Seconds) (second : ℕ) → slice_get entries.now k ≡ Some entry →
        links.now ≡ calendar_path C.image seconds second second → sends.new.items ≡
        sends.old.items ++ response_to entry.origin (above_item C.image seconds second root.now (items_of entries.now) k)) }
{
    match entry_at(entries, k).origin {
        Origin::Request(_) => Ok(()),
        Origin::Aggregator(from) => {
            let above = above(alloc, entries, paths, k, root, links)?;
            sends.push(Send::Response(from, above))?;
            Ok(())
        }
    }
}

/// The path above item `k`.
fn above<C: Compress>(
    alloc: Global,
    entries: &[Entry],
    paths: &RoundPaths<'_, C>,
    k: usize,
    root: &Imprint,
    links: &SecondPath,
) -> Result<Above, NoMemory>
    requires paths { paths.now ≡ items_of entries.now }
    requires there { k < length entries.now }
    requires few { length links.now ≤ 63 }
    ensures { IfOk result (λ above. (seconds : Seconds) (second : ℕ) →
        links.now ≡ calendar_path C.image seconds second second →
        above ≡ above_item C.image seconds second root.now (items_of entries.now) k) }
{
    let chain = AboveChain {
        input: entry_at(entries, k).item.imprint,
        links: round_links(paths, k)?,
    };
    let mut chains = Vec::with_capacity(alloc, 1)?;
    chains.push(chain)?;
    Ok(Above {
        root: *root,
        chains: AboveChains::from_vec(chains),
        calendar: CalendarLinks::from_vec(links.as_slice().to_vec(alloc)?),
    })
}

/// The links from item `k` up to the root of the items.
fn round_links<C: Compress>(paths: &RoundPaths<'_, C>, k: usize) -> Result<AboveLinks, NoMemory>
    requires { k < length paths.now }
    ensures { IfOk result (λ links. links ≡ chain_of C.image paths.now k) }
{
    metas_are_even();
    let links = paths.path(k)?;
    Ok(AboveLinks::from_vec(links.into_vec()))
}
