//! A node, and what it says to the entries of a log.
ghost use Rattle.std.specs.Prelude.{◌≡◌, IfOk};
ghost use Rattle.ksi_schedule.specs.Plans.{PlanState};
ghost use Rattle.ksi_records.specs.Node.Runs.{first_state, restarted, NodeState};
ghost use Rattle.ksi_records.specs.Node.Steps.{Fits, FitsHead, IsAt, IsHeld, IsNode, IsSaid, IsThere};
ghost use Rattle.ksi_records.specs.declared.node.head.Given.TheVariants as given;

use crate::node::head::{Given, Head};
use crate::node::steps::{core_block, is_due, round_block};
use crate::telling::is;
use ksi_aggregator::{Aggregator, RoundEvent};
use ksi_corenode::{Core, CoreEvent};
use ksi_imprint::{Bytes, Compress, NoMemory};
use ksi_schedule::{Actor, Plan};
use std::alloc::Global;

/// A core or an aggregator.
#[derive(Drop)]
pub(crate) enum Node<C: Compress> {
    Core(Core<C>),
    Aggregator(Aggregator<C>),
}

/// What came of an entry.
#[derive(Clone, Copy)]
pub(crate) enum Held {
    /// Its block is what the node says.
    Told,
    /// Its block is another.
    Differs,
    /// The number of its request is that of another request.
    Taken,
}

impl<C: Compress> Node<C> {
    /// A node of the plan, before anything came.
    pub(crate) fn new(alloc: Global, plan: &Plan, me: Actor) -> Node<C>
        requires { IsThere plan.now me }
        ensures { IsAt plan.now me result (first_state plan.now me) }
    {
        match me {
            Actor::Core(core) => Node::Core(Core::new(alloc, core, plan.core_plan())),
            Actor::Aggregator(aggregator) => Node::Aggregator(Aggregator::new(alloc, aggregator)),
        }
    }

    /// Whether the block of an entry is what the node says. The node takes what the entry's first line says.
    ///
    /// # Errors
    /// `NoMemory`.
    pub(crate) fn hold(
        &mut self,
        alloc: Global,
        plan: &Plan,
        me: Actor,
        head: Head,
        block: &[u8],
    ) -> Result<Held, NoMemory>
        requires there { IsThere plan.now me }
        requires node { IsNode plan.now me self.old }
        requires fits { FitsHead plan.now me head }
        ensures { IfOk result (λ held. (it : NodeState) → IsAt plan.now me self.old it → IsHeld C.image plan.now me it head block.now self.new held) }
    {
        match head {
            Head::Said(given) => match self.take(alloc, plan, me, given)? {
                Some(text) => {
                    if is(text.as_slice(), block) {
                        Ok(Held::Told)
                    } else {
                        Ok(Held::Differs)
                    }
                }
                None => Ok(Held::Taken),
            },
            Head::Unsaid(given) => match self.take(alloc, plan, me, given)? {
                Some(_) => Ok(Held::Told),
                None => Ok(Held::Taken),
            },
            Head::Restarted => {
                self.restart();
                Ok(Held::Told)
            }
        }
    }

    /// The node's block for what it takes. Nothing if the number of a request is that of another request.
    fn take(
        &mut self,
        alloc: Global,
        plan: &Plan,
        me: Actor,
        given: Given,
    ) -> Result<Option<Bytes>, NoMemory>
        requires there { IsThere plan.now me }
        requires node { IsNode plan.now me self.old }
        requires fits { Fits plan.now me given }
        ensures { IfOk result (λ said. (it : NodeState) → IsAt plan.now me self.old it → IsSaid C.image plan.now me it given self.new said) }
    {
        match given {
            Given::ToCore(core, event) => self.take_at_core(alloc, plan, me, core, event),
            Given::ToAggregator(aggregator, event) => {
                self.take_at_aggregator(alloc, plan, me, aggregator, event)
            }
        }
    }

    fn take_at_core(
        &mut self,
        alloc: Global,
        _plan: &Plan,
        _me: Actor,
        number: u8,
        event: CoreEvent,
    ) -> Result<Option<Bytes>, NoMemory>
        requires node { IsNode _plan.now _me self.old }
        requires fits { Fits _plan.now _me (given.ToCore number event) }
        ensures { IfOk result (λ said. (it : NodeState) → IsAt _plan.now _me self.old it → IsSaid C.image _plan.now _me it (given.ToCore number event) self.new said) }
    {
        match self {
            Node::Core(core) => {
                let text = core_block(alloc, number, core, event)?;
                Ok(Some(Bytes::from_vec(text)))
            }
            // no core's line is given to an aggregator
            Node::Aggregator(_) => Ok(None),
        }
    }

    fn take_at_aggregator(
        &mut self,
        alloc: Global,
        plan: &Plan,
        _me: Actor,
        number: u32,
        event: RoundEvent,
    ) -> Result<Option<Bytes>, NoMemory>
        requires there { IsThere plan.now _me }
        requires fits { Fits plan.now _me (given.ToAggregator number event) }
        ensures { IfOk result (λ said. (it : NodeState) → IsAt plan.now _me self.old it → IsSaid C.image plan.now _me it (given.ToAggregator number event) self.new said) }
    {
        match self {
            Node::Aggregator(aggregator) => {
                if !is_due(aggregator, &event) {
                    return Ok(None);
                }
                let text = round_block(alloc, plan, number, aggregator, event)?;
                Ok(Some(Bytes::from_vec(text)))
            }
            // no aggregator's line is given to a core
            Node::Core(_) => Ok(None),
        }
    }

    /// The node's process is started again.
    fn restart(&mut self)
        ensures { (plan : PlanState) (me : Actor) (it : NodeState) → IsAt plan me self.old it → IsAt plan me self.new (restarted it) }
    {
        match self {
            Node::Core(core) => core.restart(),
            Node::Aggregator(aggregator) => aggregator.restart(),
        }
    }
}
