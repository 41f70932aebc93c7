ghost use Rattle.std.specs.Prelude.{◌≡◌, ◌↔◌, ◌⊎◌, ℕ, ◌<◌, ◌≤◌, ◌+◌, ◌^◌, None, Some, IfOk, IfSome, IsSome, IsNone, length};
ghost use Rattle.ksi_imprint.specs.Imprints.{zero_imprint};
ghost use Rattle.ksi_aggtree.specs.Rounds.{IsRound, tree_of};
ghost use Rattle.ksi_journal.specs.Journal.{contents, IsJournal, root_at, items_at, tree_at};
ghost use Rattle.ksi_calendar.specs.Covered.{IsFirstMissing, first_missing};
ghost use Rattle.ksi_journal.specs.Calendar.{calendar_of};

use crate::calendar::calendar;
use crate::finding::find;
use crate::parts::Parts;
use ksi_aggtree::{Item, Second, Tree};
use ksi_calendar::laws::one_first_missing;
use ksi_calendar::{Calendar, Steps};
use ksi_imprint::{Bytes, Compress, Imprint, NoMemory};
use ksi_synod::VotersFrom;
use std::alloc::Global;
use std::marker::{Brand, Model};
use std::sync::ledger::{Blank, Ledger};

/// What cores kept: the start, the voters, the kept seconds with their roots and items, the issued signatures, and the
/// publications. A contract sees a record of lists; the tree of each second has its root.
#[derive(Drop)]
pub struct Journal<C: Compress> {
    parts: Parts,
    // of the covered seconds
    calendar: Calendar<C>,
}

impl<C: Compress> Model for Journal<C> {
    ghost use Rattle.std.specs.Prelude.{◌≡◌};
    ghost use Rattle.ksi_journal.specs.Journal.{Contents, contents, IsJournal};
    ghost use Rattle.ksi_journal.specs.Calendar.{calendar_of};

    ghost Value = { Contents };

    ghost view = { λ j. contents j.parts };

    ghost invariant = { λ j. IsJournal C.image (contents j.parts) × (j.calendar ≡ calendar_of (contents j.parts)) };
}

impl<C: Compress> Journal<C> {
    /// The journal of these parts, which are not copied. All times are below 2^63, the seconds of voters, kept seconds,
    /// numbers and published times rise, and the tree of each second has its root.
    ///
    /// # Errors
    /// `NoMemory`: no journal is made.
    #[tactic(auto, unfolding(crate::specs::Calendar::calendar_of))]
    pub fn new(alloc: Global, parts: Parts) -> Result<Self, NoMemory>
        requires { IsJournal C.image (contents parts) }
        ensures { IfOk result (λ journal. journal ≡ contents parts) }
    {
        let calendar = calendar(alloc, parts.start, &parts.seconds)?;
        Ok(Journal { parts, calendar })
    }

    /// The first second of the calendar.
    pub fn start(&self) -> u64
        ensures start { result ≡ self.now.start }
        ensures journal { IsJournal C.image self.now }
    {
        self.parts.start
    }

    /// From which second on which cores vote, in order.
    pub fn voters(&self) -> &[VotersFrom]
        ensures { result.now ≡ self.now.voters }
    {
        &self.parts.voters
    }

    /// The kept seconds, in order.
    pub fn seconds(&self) -> &[Second]
        ensures { result.now ≡ self.now.seconds }
    {
        &self.parts.seconds
    }

    /// The number and the bytes of each issued signature, in order.
    pub fn issued(&self) -> &[(u64, Bytes)]
        ensures { result.now ≡ self.now.issued }
    {
        &self.parts.issued
    }

    /// Each published time with the root of the calendar to it, in order.
    pub fn publications(&self) -> &[(u64, Imprint)]
        ensures { result.now ≡ self.now.publications }
    {
        &self.parts.publications
    }

    /// The calendar of the seconds from the start up to the first one that is not kept.
    pub fn calendar(&self) -> &Calendar<C>
        ensures { result.now ≡ calendar_of self.now }
    {
        &self.calendar
    }

    /// The root of a second, none where it is not kept.
    pub fn root(&self, second: u64) -> Option<Imprint>
        ensures { result ≡ root_at self.now second }
    {
        root_from::<C, Brand>(self, second, Blank::new(1))
    }

    /// The same, with its step: one search among the kept seconds.
    #[tactic(auto, unfolding(crate::specs::Journal::root_at))]
    pub fn root_counted<L: Ledger>(&self, second: u64, steps: &mut Steps<L>) -> Option<Imprint>
        ensures root { result ≡ root_at self.now second }
        ensures step { steps.new ≡ steps.old + 1 }
    {
        match find(self.parts.start, &self.parts.seconds, second, steps) {
            Some(kept) => Some(kept.root),
            None => None,
        }
    }

    /// The items of a second, in order, none where it is not kept or its root is the zero imprint.
    pub fn items(&self, second: u64) -> &[Item]
        ensures { result.now ≡ items_at self.now second }
    {
        items_from::<C, Brand>(self, second, Blank::new(1))
    }

    /// The same, with its step: one search among the kept seconds.
    #[tactic(auto, unfolding(crate::specs::Journal::items_at))]
    pub fn items_counted<L: Ledger>(&self, second: u64, steps: &mut Steps<L>) -> &[Item]
        ensures items { result.now ≡ items_at self.now second }
        ensures step { steps.new ≡ steps.old + 1 }
    {
        match find(self.parts.start, &self.parts.seconds, second, steps) {
            Some(kept) => kept.items.as_slice(),
            None => &[],
        }
    }

    /// The tree of a second over its items, none exactly where it is not kept or its root is the zero imprint. Each call of
    /// the tree computes what it gives anew, and takes no memory.
    pub fn tree(&self, second: u64) -> Option<Tree<'_, C>>
        ensures tree { result ≡ tree_at self.now second }
        ensures root { IfSome result (λ items. root_at self.now second ≡ Some (tree_of C.image items).imprint) }
        ensures none { (result ≡ None) ↔
            ((root_at self.now second ≡ None) ⊎ (root_at self.now second ≡ Some zero_imprint)) }
    {
        Tree::over(self.round(second))
    }

    /// The items of a second, which make a round.
    fn round(&self, second: u64) -> &[Item]
        ensures items { result.now ≡ items_at self.now second }
        ensures round { IsRound result.now }
        ensures journal { IsJournal C.image self.now }
    {
        let _ = &self.calendar;
        self.items(second)
    }

    /// The first second from the start to `p` that is not kept, none where all are.
    pub fn first_missing(&self, p: u64) -> Option<u64>
        ensures value { result ≡ first_missing (root_at self.now) self.now.start p }
        ensures some { (second : ℕ) → (result ≡ Some second) ↔ IsFirstMissing (root_at self.now) self.now.start p second }
        ensures none { (result ≡ None) ↔
            ((t : ℕ) → self.now.start ≤ t → t ≤ p → IsSome (root_at self.now t)) }
    {
        one_first_missing();
        self.behind(p)
    }

    /// The second behind the calendar, where it is at most `p`.
    #[tactic(auto, unfolding(crate::specs::Calendar::calendar_of))]
    fn behind(&self, p: u64) -> Option<u64>
        ensures some { IfSome result (λ second.
            (second ≡ self.now.start + length (calendar_of self.now).roots) × (second ≤ p)) }
        ensures none { IsNone result → p < self.now.start + length (calendar_of self.now).roots }
        ensures journal { IsJournal C.image self.now }
    {
        let behind = self.parts.start + self.calendar.count();
        if behind <= p { Some(behind) } else { None }
    }
}

// The calls that count nothing: each opens a count of its own, and leaves it.

fn root_from<C: Compress, L: Ledger>(
    journal: &Journal<C>,
    second: u64,
    blank: Blank,
) -> Option<Imprint>
    requires name { blank.name ≡ L.name }
    requires parts { blank.parts ≡ L.parts }
    requires one { blank.parts ≡ 1 }
    ensures { result ≡ root_at journal.now second }
{
    let mut steps = Steps::<L>::open(blank);
    journal.root_counted(second, &mut steps)
}

fn items_from<C: Compress, L: Ledger>(journal: &Journal<C>, second: u64, blank: Blank) -> &[Item]
    requires name { blank.name ≡ L.name }
    requires parts { blank.parts ≡ L.parts }
    requires one { blank.parts ≡ 1 }
    ensures { result.now ≡ items_at journal.now second }
{
    let mut steps = Steps::<L>::open(blank);
    journal.items_counted(second, &mut steps)
}
