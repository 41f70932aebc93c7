//! A core comes back with its facts.
ghost use Rattle.std.specs.Prelude.{◌≡◌, ◌<◌, false, IfOk, OnOk, OnErr, is_some};
ghost use Rattle.ksi_aggtree.specs.Rounds.{IsRound};
ghost use Rattle.ksi_aggtree.specs.Entries.{items_of, candidate_of};
ghost use Rattle.ksi_corenode.specs.Facts.{stable_state};
ghost use Rattle.ksi_corenode.specs.Lawful.{AreLawful, IsLawful, MayStoreVote};
ghost use Rattle.ksi_corenode.specs.Restored.{IsOfFacts, sealed_second, second_with, vote_with};
ghost use Rattle.ksi_corenode.specs.CoreState.{state_of, IsChange, IsSame};

use crate::fact::{Fact, What};
use crate::node::Core;
use crate::responding::round_of;
use ksi_aggtree::Entry;
use ksi_imprint::{Compress, Imprint, NoMemory};
use ksi_synod::{CorePlan, Instance};
use std::alloc::Global;

impl<C: Compress> Core<C> {
    /// Core `me` of a plan after these facts, each of which is lawful after those before it: no ballot is in hand, and no
    /// item is open.
    ///
    /// # Errors
    /// `NoMemory`: no core is made.
    pub fn from_facts(
        alloc: Global,
        me: u8,
        plan: &CorePlan,
        facts: &[Fact],
    ) -> Result<Self, NoMemory>
        requires member { me < plan.now.cores }
        requires lawful { AreLawful plan.now.cores plan.now.start facts.now }
        ensures { IfOk result (IsOfFacts C.image me plan.now facts.now) }
    {
        let mut core = Core::new(alloc, me, plan);
        'storing: for k in 0..facts.len() {
            core.store(&facts[k])?;
        }
        Ok(core)
    }

    /// Stores a fact that is lawful after what this core stored. The ballot in hand and the open items stay.
    ///
    /// # Errors
    /// `NoMemory`: all is as it was.
    pub fn store(&mut self, fact: &Fact) -> Result<(), NoMemory>
        requires { IsLawful self.old.plan.cores self.old.start (stable_state (state_of self.old fact.now.second)) fact.now }
        ensures stored { OnOk result (IsChange self.old self.new fact.now.second (second_with C.image fact.now.what (state_of self.old fact.now.second))) }
        ensures unchanged { OnErr result (IsSame self.old self.new) }
    {
        match &fact.what {
            What::Sealed(items) => self.store_items(fact.second, items.as_slice()),
            what => self.store_vote(fact.second, what),
        }
    }

    /// Stores the items that were sealed for a second.
    fn store_items(&mut self, second: u64, items: &[Entry]) -> Result<(), NoMemory>
        requires unsealed { is_some (state_of self.old second).sealed ≡ false }
        requires round { IsRound (items_of items.now) }
        ensures change { OnOk result (IsChange self.old self.new second (sealed_second C.image items.now (state_of self.old second))) }
        ensures unchanged { OnErr result (IsSame self.old self.new) }
    {
        let candidate = candidate_of::<C>(self.alloc(), items)?;
        self.seconds.seal_with(second, items, candidate)
    }

    /// Stores what a fact says of the vote on a second.
    fn store_vote(&mut self, second: u64, what: &What) -> Result<(), NoMemory>
        requires { MayStoreVote (state_of self.old second).vote what.now }
        ensures change { OnOk result (IsChange self.old self.new second (record (state_of self.old second) { vote = vote_with what.now (state_of self.old second).vote })) }
        ensures unchanged { OnErr result (IsSame self.old self.new) }
    {
        let mut vote = self.seconds.vote(second);
        store_in(&mut vote, what);
        self.put_vote(second, &vote)
    }
}

/// What a fact says of a core's part in the vote is so.
#[tactic(auto, unfolding(ksi_synod::specs::Rows::on_next, ksi_synod::specs::Rows::on_begin, ksi_synod::specs::Rows::on_success))]
fn store_in(vote: &mut Instance, what: &What)
    requires { MayStoreVote vote.old what.now }
    ensures { vote.new ≡ vote_with what.now vote.old }
{
    match what {
        What::Sealed(_) => {}
        What::Tried(ballot) => vote.restore_tried(*ballot),
        What::Promised(ballot) => {
            vote.on_next(*ballot);
        }
        What::Cast(cast) => {
            vote.on_begin(cast.ballot, cast.imprint);
        }
        What::Holds(root) => {
            vote.on_success(*root);
        }
    }
}

/// The imprint of the tree of the items, or the zero imprint if there are none.
fn candidate_of<C: Compress>(alloc: Global, items: &[Entry]) -> Result<Imprint, NoMemory>
    requires { IsRound (items_of items.now) }
    ensures { IfOk result (λ candidate. candidate ≡ candidate_of C.image items.now) }
{
    let round = round_of::<C>(alloc, items)?;
    match round.root() {
        Some(root) => Ok(root.imprint),
        None => Ok(Imprint::ZERO),
    }
}
