//! The seconds of a core, each of a stable and a volatile part.
ghost use Rattle.std.specs.Prelude.{◌≡◌, ◌↔◌, ◌==◌, ℕ, List, ◌<◌, ◌≤◌, ◌+◌, ◌++◌, [], if◌then◌else◌, length, false, is_some, IsTrue, IfOk, OnOk, OnErr, IfSome, IsSome, IsNone, Some, option_map};
ghost use Rattle.std.specs.Option.{option_copied};
ghost use Rattle.std.specs.Ordering.{nat_cmp};
ghost use Rattle.std.specs.BTreeMap.{is_at};
ghost use Rattle.std.specs.Map.{lookup};
ghost use Rattle.ksi_aggtree.specs.Rounds.{IsRound, leaf_level, highest_item};
ghost use Rattle.ksi_aggtree.specs.Entries.{items_of, candidate_of};
ghost use Rattle.ksi_corenode.specs.SecondState.{fresh_second};
ghost use Rattle.ksi_corenode.specs.Rows.{taken, submission_row, seal_row, sealed_now, restart_row};
ghost use Rattle.ksi_corenode.specs.Stored.{items_from, has_place, volatile_at, part_of};
ghost use Rattle.ksi_corenode.specs.Settled.{IsSettled};
ghost use Rattle.ksi_corenode.specs.Kept.{Keeps};
ghost use Rattle.ksi_corenode.specs.Next.{IsNext, held_or_sealed};
ghost use Rattle.ksi_corenode.specs.Restored.{sealed_second};
ghost use Rattle.ksi_corenode.specs.Bare.{is_bare};
ghost use Rattle.ksi_corenode.specs.CoreState.{state_of, stable_at, held_by, IsSame, IsChange};

use crate::fact::{SealedItems, What};
use crate::stable::StablePart;
use crate::stable_parts::StableParts;
use crate::volatile::VolatilePart;
use crate::volatile_parts::{count_open, forget_items, hand_of, open_items, put_hand, submit};
use ksi_aggtree::{Entry, Item};
use ksi_imprint::{Compress, Imprint, NoMemory};
use ksi_signature::Answer;
use ksi_split::Steps;
use ksi_synod::{CorePlan, Instance};
use std::alloc::Global;
use std::collections::BTreeMap;
use std::marker::{Brand, Model};
use std::sync::ledger::{Blank, Ledger};

/// The seconds of core `me` of a plan: the stable parts, all sealed items, and the volatile parts of those seconds that
/// have a ballot in hand or open items.
#[derive(Drop)]
pub(crate) struct Seconds<C: Compress> {
    alloc: Global,
    me: u8,
    plan: CorePlan,
    stable_parts: StableParts,
    items: Vec<Entry>,
    volatile_parts: BTreeMap<u64, VolatilePart<C>>,
}

impl<C: Compress> Model for Seconds<C> {
    ghost use Rattle.std.specs.Prelude.{ℕ, ◌<◌, ◌≤◌};
    ghost use Rattle.ksi_corenode.specs.CoreState.{CoreState};
    ghost use Rattle.ksi_corenode.specs.Stored.{IsSealedWell, part_of};

    ghost Value = { CoreState };

    ghost view = { λ s. record { me = s.me; plan = s.plan; start = s.stable_parts.start; bare = s.stable_parts.bare; settled = s.stable_parts.settled; unsettled = s.stable_parts.unsettled; items = s.items.items; volatile_parts = s.volatile_parts.entries } };

    ghost invariant = { λ s. (s.me < s.plan.cores) × (s.plan.cores ≤ 9)
        × ((t : ℕ) → IsSealedWell C.image s.items.items (part_of s.stable_parts t)) };
}

impl<C: Compress> Seconds<C> {
    /// The seconds before anything came.
    #[tactic(auto, unfolding(crate::specs::CoreState::state_of, crate::specs::Stored::second_of, crate::specs::Stored::volatile_at, crate::specs::SecondState::fresh_second, ksi_synod::specs::VoteState::fresh_vote))]
    pub fn new(alloc: Global, me: u8, plan: &CorePlan) -> Self
        requires { me < plan.now.cores }
        ensures me { result.me ≡ me }
        ensures plan { result.plan ≡ plan.now }
        ensures start { result.start ≡ plan.now.start }
        ensures seconds { (t : ℕ) → state_of result t ≡ fresh_second me plan.now t }
    {
        Seconds {
            alloc,
            me,
            plan: *plan,
            stable_parts: StableParts::new(alloc, plan.start()),
            items: Vec::new(alloc),
            volatile_parts: BTreeMap::new(alloc),
        }
    }

    /// The core's number.
    pub fn me(&self) -> u8
        ensures me { result ≡ self.now.me }
        ensures mine { result < self.now.plan.cores }
    {
        self.me
    }

    /// The plan of the cores.
    pub fn plan(&self) -> &CorePlan
        ensures { result.now ≡ self.now.plan }
    {
        &self.plan
    }

    /// The first second.
    pub fn start(&self) -> u64
        ensures { result ≡ self.now.start }
    {
        self.stable_parts.start()
    }

    /// How many seconds from the start on are settled, in one step.
    #[tactic(auto, unfolding(crate::specs::CoreState::state_of, crate::specs::Stored::second_of))]
    pub fn settled<L: Ledger>(&self, steps: &mut Steps<L>) -> u64
        ensures settled { IsSettled (held_by self.now) self.now.start result }
        ensures step { steps.new ≡ steps.old + 1 }
    {
        self.stable_parts.settled(steps)
    }

    /// The first second from this one on that something is held or sealed for.
    pub fn next_from(&self, from: u64) -> Option<u64>
        ensures next { IfSome result (IsNext (λ t. held_or_sealed (state_of self.now t)) from) }
        ensures none { IsNone result → (t : ℕ) → from ≤ t → held_or_sealed (state_of self.now t) ≡ false }
    {
        self.stable_parts.next_from(from)
    }

    /// What is held for a second.
    #[tactic(auto, unfolding(crate::specs::CoreState::state_of, crate::specs::Stored::second_of))]
    pub fn held(&self, second: u64) -> Option<Imprint>
        ensures { result ≡ held_by self.now second }
    {
        self.part(second).vote.held()
    }

    /// The candidate, none where the second is not sealed.
    #[tactic(auto, unfolding(crate::specs::CoreState::state_of, crate::specs::Stored::second_of), using(crate::proofs::Changes::candidate_is))]
    pub fn candidate(&self, second: u64) -> Option<Imprint>
        ensures vote { result ≡ (state_of self.now second).vote.candidate }
        ensures sealed { result ≡ option_map (candidate_of C.image) (state_of self.now second).sealed }
    {
        let _ = &self.items;
        self.part(second).vote.candidate()
    }

    /// Whether the second is sealed.
    #[tactic(auto, unfolding(crate::specs::CoreState::state_of), using(crate::proofs::Changes::is_sealed))]
    pub fn is_sealed(&self, second: u64) -> bool
        ensures { result ≡ is_some (state_of self.now second).sealed }
    {
        self.part(second).vote.candidate().is_some()
    }

    /// Whether a root is held, and nothing else is stored.
    #[tactic(auto, unfolding(crate::specs::CoreState::state_of, crate::specs::Stored::second_of), using(crate::proofs::Changes::is_sealed))]
    pub fn is_bare(&self, second: u64) -> bool
        ensures { result ≡ is_bare (state_of self.now second) }
    {
        !self.is_sealed(second) && self.part(second).vote.is_bare()
    }

    /// The sealed items with their origins, none where the second is not sealed.
    #[tactic(auto, unfolding(crate::specs::CoreState::state_of, crate::specs::Stored::second_of))]
    pub fn sealed(&self, second: u64) -> Option<&[Entry]>
        ensures sealed { option_copied result ≡ (state_of self.now second).sealed }
        ensures round { IfSome result (λ entries. IsRound (items_of entries.now)) }
    {
        let part = self.part(second);
        match part.vote.candidate() {
            Some(_) => Some(items_at(&self.items, part.first, part.count)),
            None => None,
        }
    }

    /// Takes an item of an aggregator.
    #[tactic(auto, unfolding(crate::specs::Rows::submission_row))]
    pub fn submission(
        &mut self,
        second: u64,
        aggregator: u32,
        item: &Item,
    ) -> Result<Answer, NoMemory>
        requires { leaf_level item.now ≤ highest_item }
        ensures change { OnOk result (IsChange self.old self.new second (submission_row aggregator item.now (state_of self.old second)).after) }
        ensures answer { IfOk result (λ answer. answer ≡ (submission_row aggregator item.now (state_of self.old second)).answer) }
        ensures unchanged { OnErr result (IsSame self.old self.new) }
    {
        if self.is_sealed(second) {
            return Ok(Answer::Late);
        }
        self.make_volatile(second)?;
        self.add_item(second, aggregator, item)
    }

    /// Seals the open items: the imprint of their tree is the candidate.
    #[tactic(auto, unfolding(crate::specs::Rows::seal_row))]
    pub fn seal(&mut self, second: u64) -> Result<(Answer, Option<What>), NoMemory>
        ensures change { OnOk result (IsChange self.old self.new second (seal_row C.image (state_of self.old second)).after) }
        ensures answer { IfOk result (λ told. told.0 ≡ (seal_row C.image (state_of self.old second)).answer) }
        ensures fact { IfOk result (λ told. told.1 ≡ (seal_row C.image (state_of self.old second)).fact) }
        ensures unchanged { OnErr result (IsSame self.old self.new) }
    {
        if self.is_sealed(second) {
            return Ok((Answer::Sealed, None));
        }
        let items = self.seal_open(second)?;
        Ok((
            Answer::Done,
            Some(What::Sealed(SealedItems::from_vec(items))),
        ))
    }

    /// Forgets the ballots in hand and the open items.
    #[tactic(auto, unfolding(crate::specs::CoreState::state_of, crate::specs::Stored::second_of, crate::specs::Stored::volatile_at))]
    pub fn restart(&mut self)
        ensures me { self.new.me ≡ self.old.me }
        ensures plan { self.new.plan ≡ self.old.plan }
        ensures start { self.new.start ≡ self.old.start }
        ensures seconds { (t : ℕ) → state_of self.new t ≡ restart_row (state_of self.old t) }
    {
        self.volatile_parts.clear();
    }

    /// The stable part of a second.
    fn part(&self, second: u64) -> StablePart
        ensures { result ≡ stable_at self.now second }
    {
        part_from::<Brand>(&self.stable_parts, second, Blank::new(1))
    }

    /// How many items of a second are open.
    #[tactic(auto, unfolding(crate::specs::CoreState::state_of, crate::specs::Stored::second_of))]
    pub fn count_open(&self, second: u64) -> usize
        ensures { result ≡ length (state_of self.now second).open_items }
    {
        count_open(&self.volatile_parts, second)
    }

    /// This core's part in the vote on a second.
    #[tactic(auto, unfolding(crate::specs::CoreState::state_of, crate::specs::Stored::second_of))]
    pub fn vote(&self, second: u64) -> Instance
        ensures { result ≡ (state_of self.now second).vote }
    {
        let hand = hand_of(&self.volatile_parts, second);
        let part = self.part(second);
        Instance::of(self.me, self.plan.voters_of(second), &part.vote, hand)
    }

    /// Takes an item of an aggregator among the open ones, where there is a place.
    fn add_item(&mut self, second: u64, aggregator: u32, item: &Item) -> Result<Answer, NoMemory>
        requires level { leaf_level item.now ≤ highest_item }
        requires there { IsSome (lookup (is_at (nat_cmp second)) self.old.volatile_parts) }
        ensures change { OnOk result (IsChange self.old self.new second (record (state_of self.old second) { open_items = (taken aggregator item.now (state_of self.old second).open_items).0 })) }
        ensures answer { IfOk result (λ answer. answer ≡ (taken aggregator item.now (state_of self.old second).open_items).1) }
        ensures unchanged { OnErr result (IsSame self.old self.new) }
    {
        let answer = submit(
            &mut self.volatile_parts,
            second,
            self.alloc,
            aggregator,
            item,
        )?;
        Ok(answer)
    }

    /// Puts this core's part in the vote on a second, where there is a place for both parts: the candidate is the same, and what
    /// was held is held still.
    #[tactic(auto, unfolding(crate::specs::CoreState::state_of))]
    pub fn write_vote(&mut self, second: u64, vote: &Instance)
        requires keeps { Keeps (state_of self.old second).vote vote.now }
        requires place { IsTrue (has_place self.old.start self.old.bare self.old.settled self.old.unsettled second) }
        requires room { IsSome vote.now.hand → IsSome (lookup (is_at (nat_cmp second)) self.old.volatile_parts) }
        ensures { IsChange self.old self.new second (record (state_of self.old second) { vote = vote.now }) }
    {
        let old = self.part(second);
        let part = StablePart {
            vote: vote.stable(),
            first: old.first,
            count: old.count,
        };
        self.stable_parts.put(second, &part);
        put_hand(&mut self.volatile_parts, second, vote.hand());
    }

    /// Seals the open items of a second that is not sealed, and gives a copy of them.
    fn seal_open(&mut self, second: u64) -> Result<Vec<Entry>, NoMemory>
        requires { is_some (state_of self.old second).sealed ≡ false }
        ensures change { OnOk result (IsChange self.old self.new second (sealed_now C.image (state_of self.old second)).after) }
        ensures items { IfOk result (λ items. items.items ≡ (state_of self.old second).open_items) }
        ensures unchanged { OnErr result (IsSame self.old self.new) }
    {
        let (items, candidate) = self.open_items(second)?;
        self.seal_with(second, &items, candidate)?;
        self.forget_open(second);
        Ok(items)
    }

    /// A copy of the open items of a second in order, which make a round, and the imprint of their tree.
    #[tactic(auto, unfolding(crate::specs::CoreState::state_of, crate::specs::Stored::second_of))]
    fn open_items(&self, second: u64) -> Result<(Vec<Entry>, Imprint), NoMemory>
        ensures items { IfOk result (λ copied. copied.0.items ≡ (state_of self.now second).open_items) }
        ensures candidate { IfOk result (λ copied. copied.1 ≡ candidate_of C.image (state_of self.now second).open_items) }
        ensures round { IsRound (items_of (state_of self.now second).open_items) }
    {
        open_items(&self.volatile_parts, second, self.alloc)
    }

    /// Leaves no item of a second open.
    fn forget_open(&mut self, second: u64)
        ensures { IsChange self.old self.new second (record (state_of self.old second) { open_items = [] }) }
    {
        forget_items(&mut self.volatile_parts, second);
    }

    /// Seals a second that is not sealed with the items of a round, whose tree has this imprint. The open items stay.
    ///
    /// # Errors
    /// `NoMemory`: all is as it was.
    #[tactic(auto, unfolding(crate::specs::CoreState::state_of))]
    pub fn seal_with(
        &mut self,
        second: u64,
        items: &[Entry],
        candidate: Imprint,
    ) -> Result<(), NoMemory>
        requires unsealed { is_some (state_of self.old second).sealed ≡ false }
        requires round { IsRound (items_of items.now) }
        requires candidate { candidate ≡ candidate_of C.image items.now }
        ensures change { OnOk result (IsChange self.old self.new second (sealed_second C.image items.now (state_of self.old second))) }
        ensures unchanged { OnErr result (IsSame self.old self.new) }
    {
        let mut vote = self.vote(second);
        self.stable_parts.make_place(second)?;
        let first = self.items.len();
        self.items.extend_from_slice(items)?;
        vote.candidate(candidate);
        let part = StablePart {
            vote: vote.stable(),
            first,
            count: items.len(),
        };
        self.stable_parts.put(second, &part);
        Ok(())
    }

    /// Makes a place for the stable part of a second, and where so asked for its volatile part, which changes nothing that
    /// is seen.
    #[tactic(auto, unfolding(crate::specs::CoreState::state_of))]
    pub fn make_room(&mut self, second: u64, volatile: bool) -> Result<(), NoMemory>
        ensures same { IsSame self.old self.new }
        ensures place { OnOk result (IsTrue (has_place self.new.start self.new.bare self.new.settled self.new.unsettled second)) }
        ensures there { OnOk result (IsTrue volatile → IsSome (lookup (is_at (nat_cmp second)) self.new.volatile_parts)) }
    {
        self.stable_parts.make_place(second)?;
        if volatile {
            self.make_volatile(second)?;
        }
        Ok(())
    }

    /// Makes a place for the volatile part of a second, which changes nothing that is seen.
    #[tactic(auto, unfolding(crate::specs::CoreState::state_of, crate::specs::Stored::volatile_at))]
    fn make_volatile(&mut self, second: u64) -> Result<(), NoMemory>
        ensures same { IsSame self.old self.new }
        ensures places { (t : ℕ) → has_place self.new.start self.new.bare self.new.settled self.new.unsettled t ≡ has_place self.old.start self.old.bare self.old.settled self.old.unsettled t }
        ensures there { OnOk result (IsSome (lookup (is_at (nat_cmp second)) self.new.volatile_parts)) }
    {
        if self.volatile_parts.contains_key(&second) {
            return Ok(());
        }
        let fresh = VolatilePart::new();
        self.volatile_parts.insert(second, fresh)?;
        Ok(())
    }
}

/// The stable part of a second, with a count of its own.
fn part_from<L: Ledger>(stable_parts: &StableParts, second: u64, blank: Blank) -> StablePart
    requires name { blank.name ≡ L.name }
    requires parts { blank.parts ≡ L.parts }
    requires one { blank.parts ≡ 1 }
    ensures { result ≡ part_of stable_parts.now second }
{
    let mut steps = Steps::<L>::open(blank);
    stable_parts.get(second, &mut steps)
}

/// This many of the items, from the first on.
fn items_at(items: &[Entry], first: usize, count: usize) -> &[Entry]
    requires { first + count ≤ length items.now }
    ensures { result.now ≡ items_from items.now first count }
{
    let (_, rest) = items.split_at(first);
    let (part, _) = rest.split_at(count);
    part
}
