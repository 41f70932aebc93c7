ghost use Rattle.std.specs.Prelude.{◌≡◌, ℕ, ◌<◌, ◌≤◌, ◌↔◌, [], length, vec_capacity, IfOk, OnOk, OnErr, IfSome, IsTrue, IsSome, IsNone, Some, false, option_map};
ghost use Rattle.std.specs.Option.{option_copied};
ghost use Rattle.ksi_corenode.specs.SecondState.{fresh_second};
ghost use Rattle.ksi_aggtree.specs.Rounds.{IsRound, most_items, leaf_level, highest_item};
ghost use Rattle.ksi_aggtree.specs.Entries.{items_of, has_from, candidate_of};
ghost use Rattle.ksi_signature.specs.declared.answer.Answer.TheVariants.{Late, Known, Full, Unsealed, Sealed, Undecided, Nothing, Last};
ghost use Rattle.ksi_synod.specs.Ballots.{last_round};
ghost use Rattle.ksi_synod.specs.Rows.{greater_round, ballot_told, OfBallot};
ghost use Rattle.ksi_corenode.specs.Rows.{submission_row, seal_row, ballot_answer, ballot_fact, ballot_row, receive_row, tell_row, restart_row, is_news};
ghost use Rattle.ksi_corenode.specs.CoreState.{state_of, held_by, IsSame, IsChange, IsTurn};
ghost use Rattle.ksi_corenode.specs.Kept.{Keeps};
ghost use Rattle.ksi_corenode.specs.Settled.{IsCalendarOf};
ghost use Rattle.ksi_corenode.specs.ItemsLeft.{items_left};
ghost use Rattle.ksi_corenode.specs.Bare.{is_bare};

use crate::fact::{What, fact_of};
use crate::growing::lengthen;
use crate::lazy_calendar::LazyCalendar;
use crate::lent_items::LentItems;
use crate::receiving::receive;
use crate::seconds::Seconds;
use crate::sending::{push_all, push_told};
use crate::step::{Send, Step};
use ksi_aggtree::{Entry, Item};
use ksi_imprint::{Compress, Imprint, NoMemory};
use ksi_signature::{Answer, Sends};
use ksi_synod::{Begun, CorePlan, Instance, SynodMessage};
use std::alloc::Global;
use std::marker::Model;

/// A core: its seconds, and the calendar of those that are settled. A contract sees all but the calendar.
#[derive(Drop)]
pub struct Core<C: Compress> {
    alloc: Global,
    pub(crate) seconds: Seconds<C>,
    calendar: LazyCalendar<C>,
}

impl<C: Compress> Model for Core<C> {
    ghost use Rattle.ksi_corenode.specs.CoreState.{CoreState, held_by};
    ghost use Rattle.ksi_corenode.specs.Settled.{IsCalendarOf};

    ghost Value = { CoreState };

    ghost view = { λ c. c.seconds };

    ghost invariant = { λ c. IsCalendarOf (held_by c.seconds) c.seconds.start c.calendar };
}

impl<C: Compress> Core<C> {
    /// Core `me` of a plan, before anything came.
    pub fn new(alloc: Global, me: u8, plan: &CorePlan) -> Self
        requires { me < plan.now.cores }
        ensures me { result.me ≡ me }
        ensures plan { result.plan ≡ plan.now }
        ensures start { result.start ≡ plan.now.start }
        ensures seconds { (t : ℕ) → state_of result t ≡ fresh_second me plan.now t }
    {
        Core {
            alloc,
            seconds: Seconds::new(alloc, me, plan),
            calendar: LazyCalendar::new(plan.start()),
        }
    }

    /// The root that this core holds for a second.
    pub fn held(&self, second: u64) -> Option<Imprint>
        ensures { result ≡ held_by self.now second }
    {
        self.seconds.held(second)
    }

    /// The candidate of this core for a second: the imprint of the tree of its sealed items, the zero imprint where it
    /// sealed none. None where the second is not sealed.
    pub fn candidate(&self, second: u64) -> Option<Imprint>
        ensures { result ≡ option_map (candidate_of C.image) (state_of self.now second).sealed }
    {
        self.seconds.candidate(second)
    }

    /// The sealed items of a second, in order, and where each came from; none where the second is not sealed.
    pub fn sealed(&self, second: u64) -> Option<&[Entry]>
        ensures sealed { option_copied result ≡ (state_of self.now second).sealed }
        ensures round { IfSome result (λ entries. IsRound (items_of entries.now)) }
    {
        self.seconds.sealed(second)
    }

    /// The sealed items of a second in order, lent without where they came from; none where the second is not sealed.
    pub fn items(&self, second: u64) -> Option<LentItems<'_>>
        ensures { option_map items_left result ≡ option_map items_of (state_of self.now second).sealed }
    {
        match self.sealed(second) {
            Some(entries) => Some(LentItems::new(entries)),
            None => None,
        }
    }

    /// Whether a root is held for a second, and nothing else is stored for it.
    pub fn is_bare(&self, second: u64) -> bool
        ensures { result ≡ is_bare (state_of self.now second) }
    {
        self.seconds.is_bare(second)
    }

    /// The first second.
    pub(crate) fn start(&self) -> u64
        ensures { result ≡ self.now.start }
    {
        self.seconds.start()
    }

    /// The seconds.
    pub(crate) fn seconds(&self) -> &Seconds<C>
        ensures { result.now ≡ self.now }
    {
        &self.seconds
    }

    /// Room for a message to each core.
    fn room(&self) -> Result<Vec<Send>, NoMemory>
        ensures none { IfOk result (λ sends. sends.items ≡ []) }
        ensures room { IfOk result (λ sends. self.now.plan.cores ≤ vec_capacity sends) }
        ensures some { 1 ≤ self.now.plan.cores }
    {
        Vec::with_capacity(self.alloc, self.seconds.plan().cores() as usize)
    }

    /// What the memory is taken from.
    pub(crate) fn alloc(&self) -> Global {
        self.alloc
    }

    /// The calendar of the settled seconds.
    pub(crate) fn calendar(&self) -> &LazyCalendar<C>
        ensures { IsCalendarOf (held_by self.now) self.now.start result.now }
    {
        &self.calendar
    }

    /// Takes an item of an aggregator for a second; its level is at most 239, with a name at most 238.
    ///
    /// The answer is Late where the second is sealed, Known where an open item of that aggregator is there, Full where
    /// there are 65,536 of them, else Done.
    ///
    /// # Errors
    /// `NoMemory`: all is as it was.
    #[tactic(auto, unfolding(crate::specs::Rows::submission_row))]
    pub fn submission(&mut self, aggregator: u32, second: u64, item: Item) -> Result<Step, NoMemory>
        requires level { leaf_level item ≤ highest_item }
        ensures turn { IfOk result (λ step.
            IsTurn self.old self.new second (submission_row aggregator item (state_of self.old second)) step) }
        ensures late { IfOk result (λ step. (step.answer ≡ Late) ↔ IsSome (state_of self.old second).sealed) }
        ensures known { IfOk result (λ step. (step.answer ≡ Known) ↔ (IsNone (state_of self.old second).sealed ×
            IsTrue (has_from aggregator (state_of self.old second).open_items))) }
        ensures full { IfOk result (λ step. (step.answer ≡ Full) ↔ (IsNone (state_of self.old second).sealed ×
            (has_from aggregator (state_of self.old second).open_items ≡ false) ×
            (length (state_of self.old second).open_items ≡ most_items))) }
        ensures unchanged { OnErr result (IsSame self.old self.new) }
    {
        let answer = self.seconds.submission(second, aggregator, &item)?;
        Ok(Step::without_sends(self.alloc, answer))
    }

    /// Seals a second: its open items are the sealed ones, and the imprint of their tree is the candidate. The answer is
    /// Sealed where the second is sealed already, else Done.
    ///
    /// # Errors
    /// `NoMemory`: all is as it was.
    #[tactic(auto, unfolding(crate::specs::Rows::seal_row))]
    pub fn seal(&mut self, second: u64) -> Result<Step, NoMemory>
        ensures turn { IfOk result (λ step.
            IsTurn self.old self.new second (seal_row C.image (state_of self.old second)) step) }
        ensures sealed { IfOk result (λ step. (step.answer ≡ Sealed) ↔ IsSome (state_of self.old second).sealed) }
        ensures unchanged { OnErr result (IsSame self.old self.new) }
    {
        let (answer, what) = self.seconds.seal(second)?;
        Ok(Step {
            answer,
            fact: fact_of(second, what),
            sends: Sends::from_vec(Vec::new(self.alloc)),
        })
    }

    /// Tries this core's next ballot for a second: NextBallot goes to the voters. The answer is Unsealed where the second
    /// is not sealed, Last where no round is left, else Done.
    ///
    /// # Errors
    /// `NoMemory`: all is as it was.
    #[tactic(auto, unfolding(crate::specs::Rows::ballot_row), using(crate::proofs::Keeping::try_keeps))]
    pub fn ballot(&mut self, second: u64) -> Result<Step, NoMemory>
        ensures turn { IfOk result (λ step. IsTurn self.old self.new second
            (ballot_row self.old.plan second self.old.me (state_of self.old second)) step) }
        ensures unsealed { IfOk result (λ step. (step.answer ≡ Unsealed) ↔ IsNone (state_of self.old second).sealed) }
        ensures last { IfOk result (λ step. (step.answer ≡ Last) ↔ (IsSome (state_of self.old second).sealed ×
            (greater_round (state_of self.old second).vote ≡ last_round))) }
        ensures unchanged { OnErr result (IsSame self.old self.new) }
    {
        let mut sends = self.room()?;
        let mut vote = self.seconds.vote(second);
        let (answer, what, call) = called(vote.try_ballot());
        self.put_vote(second, &vote)?;
        push_told(
            self.seconds.plan(),
            second,
            self.seconds.me(),
            &call,
            &mut sends,
        );
        Ok(Step {
            answer,
            fact: fact_of(second, what),
            sends: Sends::from_vec(sends),
        })
    }

    /// Takes a message of the vote on a second from a core, which is below 9; the message's ballot is one. LastVote and
    /// Voted go back to the sender, BeginBallot to the voters, Success to all cores. The answer is Nothing where the
    /// message changes nothing, else Done.
    ///
    /// # Errors
    /// `NoMemory`: all is as it was.
    #[tactic(auto, unfolding(crate::specs::Rows::receive_row), using(crate::proofs::Keeping::receive_keeps))]
    pub fn receive(
        &mut self,
        from: u8,
        second: u64,
        message: &SynodMessage,
    ) -> Result<Step, NoMemory>
        requires member { from < 9 }
        requires ballot { OfBallot message.now }
        ensures turn { IfOk result (λ step. IsTurn self.old self.new second
            (receive_row self.old.plan second from message.now (state_of self.old second)) step) }
        ensures nothing { IfOk result (λ step. (step.answer ≡ Nothing) ↔
            (is_news (state_of self.old second).vote from message.now ≡ false)) }
        ensures unchanged { OnErr result (IsSame self.old self.new) }
    {
        let mut sends = self.room()?;
        let mut vote = self.seconds.vote(second);
        let (answer, what, reply) = receive(&mut vote, from, message);
        self.put_vote(second, &vote)?;
        push_told(self.seconds.plan(), second, from, &reply, &mut sends);
        Ok(Step {
            answer,
            fact: fact_of(second, what),
            sends: Sends::from_vec(sends),
        })
    }

    /// Puts this core's part in the vote on a second, and the roots of the seconds that settle by it into the calendar.
    pub(crate) fn put_vote(&mut self, second: u64, vote: &Instance) -> Result<(), NoMemory>
        requires keeps { Keeps (state_of self.old second).vote vote.now }
        ensures change { OnOk result (IsChange self.old self.new second (record (state_of self.old second) { vote = vote.now })) }
        ensures unchanged { OnErr result (IsSame self.old self.new) }
    {
        self.seconds.make_room(second, vote.hand().is_some())?;
        lengthen(
            self.alloc,
            &self.seconds,
            &mut self.calendar,
            second,
            vote.held(),
        )?;
        self.seconds.write_vote(second, vote);
        Ok(())
    }

    /// Tells what is held for a second: Success goes to all cores. The answer is Undecided with the second where nothing
    /// is held, else Done.
    ///
    /// # Errors
    /// `NoMemory`: all is as it was.
    #[tactic(auto, unfolding(crate::specs::Rows::tell_row))]
    pub fn tell(&self, second: u64) -> Result<Step, NoMemory>
        ensures turn { IfOk result (λ step. IsTurn self.now self.now second
            (tell_row self.now.plan second self.now.me (state_of self.now second)) step) }
        ensures undecided { IfOk result (λ step. (step.answer ≡ Undecided second) ↔ IsNone (held_by self.now second)) }
    {
        let mut sends = self.room()?;
        let answer = match self.held(second) {
            None => Answer::Undecided(second),
            Some(root) => {
                push_all(
                    self.seconds.plan().cores(),
                    &SynodMessage::Success(root),
                    &mut sends,
                );
                Answer::Done
            }
        };
        Ok(Step {
            answer,
            fact: None,
            sends: Sends::from_vec(sends),
        })
    }

    /// Forgets every ballot in hand and all open items, as a restart does.
    pub fn restart(&mut self)
        ensures me { self.new.me ≡ self.old.me }
        ensures plan { self.new.plan ≡ self.old.plan }
        ensures start { self.new.start ≡ self.old.start }
        ensures seconds { (t : ℕ) → state_of self.new t ≡ restart_row (state_of self.old t) }
    {
        self.seconds.restart();
    }
}

/// What comes of the command to try a ballot: NextBallot goes out where one is tried.
fn called(begun: Begun) -> (Answer, Option<What>, Option<SynodMessage>)
    ensures answer { result.0 ≡ ballot_answer begun }
    ensures fact { result.1 ≡ ballot_fact begun }
    ensures sends { result.2 ≡ ballot_told begun }
    ensures unsealed { (result.0 ≡ Unsealed) ↔ (begun ≡ Begun.Unsealed) }
    ensures last { (result.0 ≡ Last) ↔ (begun ≡ Begun.Last) }
{
    match begun {
        Begun::Unsealed => (Answer::Unsealed, None, None),
        Begun::Last => (Answer::Last, None, None),
        Begun::Next(ballot) => (
            Answer::Done,
            Some(What::Tried(ballot)),
            Some(SynodMessage::NextBallot(ballot)),
        ),
    }
}
