//! The thousand events of a core whose facts are kept: the core that comes back with them is the one that restarted.
ghost use Rattle.std.specs.Prelude.{◌≡◌, ◌<◌, ◌≤◌, ◌^◌, IfOk};
ghost use Rattle.ksi_corenode.specs.CoreState.{CoreState};
ghost use Rattle.ksi_corenode.specs.Events.{MayTake};

use crate::generated::{event, next};
use crate::same::same;
use crate::steps::are_alike;
use ksi_aggtree::Entry;
use ksi_corenode::laws::{facts_one_by_one, one_core_of_facts};
use ksi_corenode::{Core, CoreEvent, CorePlan, Fact, NoMemory, SecondCounts, Step};
use ksi_imprint::{Compress, Imprint, Sha};
use std::alloc::Global;
use std::marker::Model;
use std::process::Abort;

const T: u64 = 1_700_000_000;

/// Lawful facts of core 0 of a plan that begins at second T, and the core that they make.
#[derive(Drop)]
struct Kept<C: Compress> {
    plan: CorePlan,
    facts: Vec<Fact>,
    core: Core<C>,
}

impl<C: Compress> Model for Kept<C> {
    ghost use Rattle.std.specs.Prelude.{◌≡◌, ◌<◌, List};
    ghost use Rattle.ksi_corenode.specs.declared.fact.Fact as fact;
    ghost use Rattle.ksi_corenode.specs.Lawful.{AreLawful};
    ghost use Rattle.ksi_corenode.specs.Restored.{IsOfFacts};

    ghost Value = { List fact.Fact };

    ghost view = { λ kept. kept.facts.items };

    ghost invariant = { λ kept. (0 < kept.plan.cores) × (kept.plan.start ≡ 1700000000)
        × AreLawful kept.plan.cores kept.plan.start kept.facts.items
        × IsOfFacts C.image 0 kept.plan kept.facts.items kept.core };
}

impl<C: Compress> Kept<C> {
    fn new(alloc: Global) -> Self {
        one_core_of_facts();
        facts_one_by_one();
        let plan = CorePlan::new(3, T);
        Kept {
            plan,
            facts: Vec::new(alloc),
            core: Core::new(alloc, 0, &plan),
        }
    }

    /// Keeps a fact where it is lawful.
    fn keep(&mut self, fact: Fact) -> Result<bool, NoMemory> {
        one_core_of_facts();
        facts_one_by_one();
        if !self.core.may_store(&fact) {
            return Ok(false);
        }
        self.facts.reserve(1)?;
        self.core.store(&fact)?;
        self.facts.push_reserved(fact);
        Ok(true)
    }

    /// The core that comes back with the facts.
    fn come_back(&self, alloc: Global) -> Result<Core<C>, NoMemory>
        ensures { IfOk result (λ core. core.start ≡ 1700000000) }
    {
        Core::from_facts(alloc, 0, &self.plan, &self.facts)
    }
}

/// A core, and what it kept.
#[derive(Drop)]
struct Node {
    core: Core<Sha>,
    kept: Kept<Sha>,
}

impl Model for Node {
    ghost use Rattle.std.specs.Prelude.{◌≡◌};
    ghost use Rattle.ksi_corenode.specs.CoreState.{CoreState};

    ghost Value = { CoreState };

    ghost view = { λ node. node.core };

    ghost invariant = { λ node. node.core.start ≡ 1700000000 };
}

impl Node {
    fn new(alloc: Global) -> Self {
        Node {
            core: Core::new(alloc, 0, &CorePlan::new(3, T)),
            kept: Kept::new(alloc),
        }
    }

    /// Takes an event, and keeps its fact: whether that was lawful.
    fn take(&mut self, event: &CoreEvent) -> Result<bool, NoMemory>
        requires { (core : CoreState) → core.start ≡ 1700000000 → MayTake core event.now }
    {
        let Step { fact, .. } = self.core.take(*event)?;
        match fact {
            Some(fact) => self.kept.keep(fact),
            None => Ok(true),
        }
    }

    /// Restarts. Whether the core that comes back is the same, and takes the events by these numbers as it does.
    fn restart(&mut self, alloc: Global, n: u64) -> Result<bool, NoMemory> {
        self.core.restart();
        let mut other = self.kept.come_back(alloc)?;
        let same = are_same(&self.core, &other);
        let alike = go_on(alloc, &mut self.core, &mut other, n);
        Ok(same && alike)
    }
}

/// Twenty events in both cores by the numbers that follow this one: whether they did the same.
fn go_on(alloc: Global, one: &mut Core<Sha>, other: &mut Core<Sha>, first: u64) -> bool
    requires one { one.old.start ≡ 1700000000 }
    requires other { other.old.start ≡ 1700000000 }
    ensures one { one.new.start ≡ 1700000000 }
{
    let mut same = true;
    let mut n = first;
    'going: for _ in 0..20usize {
        n = next(n);
        let event = event_of(one, n / 65_536);
        let alike = takes_alike(alloc, one, other, &event);
        same = same && alike;
    }
    same && are_same(one, other)
}

/// An event in both cores: whether they did the same.
fn takes_alike(alloc: Global, one: &mut Core<Sha>, other: &mut Core<Sha>, event: &CoreEvent) -> bool
    requires one { one.old.start ≡ 1700000000 }
    requires other { other.old.start ≡ 1700000000 }
    requires may { (core : CoreState) → core.start ≡ 1700000000 → MayTake core event.now }
    ensures one { one.new.start ≡ 1700000000 }
    ensures other { other.new.start ≡ 1700000000 }
{
    let taken = one.take(*event);
    let also = other.take(*event);
    are_alike(alloc, &taken, &also)
}

/// An event for one of four seconds from the start on.
fn event_of(core: &Core<Sha>, n: u64) -> CoreEvent
    ensures { (core : CoreState) → core.start ≡ 1700000000 → MayTake core result }
{
    let t = T + n % 4;
    let candidate = core.candidate(t).unwrap_or(Imprint::ZERO);
    event(t, candidate, n / 4)
}

fn are_entries(ones: Option<&[Entry]>, others: Option<&[Entry]>) -> bool {
    match (ones, others) {
        (Some(ones), Some(others)) => ones == others,
        (None, None) => true,
        _ => false,
    }
}

/// Whether both hold and sealed the same for each second, as many are settled, and they count as many as a plain look does.
fn are_same(one: &Core<Sha>, other: &Core<Sha>) -> bool {
    let mut same = one.settled() == other.settled();
    let mut counts = SecondCounts { sealed: 0, held: 0 };
    for t in T - 2..T + 6 {
        same = same
            && one.held(t) == other.held(t)
            && one.candidate(t) == other.candidate(t)
            && are_entries(one.sealed(t), other.sealed(t));
        counts.sealed = counts
            .sealed
            .saturating_add(u64::from(one.sealed(t).is_some()));
        counts.held = counts.held.saturating_add(u64::from(one.held(t).is_some()));
    }
    same && one.counts() == counts && other.counts() == counts
}

/// A hundred events by the numbers that follow this one: the last number, and whether each fact was lawful and the core
/// came back.
fn takes_hundred(alloc: Global, node: &mut Node, first: u64) -> Result<(u64, bool), NoMemory> {
    let mut n = first;
    let mut lawful = true;
    for _ in 0..100usize {
        n = next(n);
        let event = event_of(&node.core, n / 65_536);
        lawful = node.take(&event)? && lawful;
    }
    let back = node.restart(alloc, n)?;
    Ok((n, lawful && back))
}

/// The same of a new core.
fn hundred(alloc: Global, first: u64) -> Result<(u64, bool), NoMemory> {
    let mut node = Node::new(alloc);
    takes_hundred(alloc, &mut node, first)
}

#[test]
fn a_core_comes_back_with_its_facts(rt: HostRuntime) {
    let mut n: u64 = 31;
    for run in 0..10usize {
        let (last, back) = match hundred(rt.alloc(), n) {
            Ok(told) => told,
            Err(_) => (n, false),
        };
        n = last;
        same(&rt, run, back, true);
    }
}
