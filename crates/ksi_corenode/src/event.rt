//! A core's calls as values, and the one call that takes them.
ghost use Rattle.std.specs.Prelude.{◌≡◌, IfOk, OnErr};
ghost use Rattle.ksi_corenode.specs.Bare.{asks_roots, is_taken};
ghost use Rattle.ksi_corenode.specs.Events.{event_second, MayTake, core_row};
ghost use Rattle.ksi_corenode.specs.CoreState.{state_of, IsSame, IsTurn};

use crate::node::Core;
use crate::step::Step;
use ksi_aggtree::Item;
use ksi_imprint::{Compress, NoMemory};
use ksi_synod::SynodMessage;

/// An event of a core other than a restart: one of its calls, with that call's arguments in order.
#[derive(Clone, Copy, PartialEq, Eq, Debug)]
pub enum CoreEvent {
    /// An aggregator submits an item for a second.
    Submission(u32, u64, Item),
    /// Seal a second.
    Seal(u64),
    /// Try the next ballot for a second.
    Ballot(u64),
    /// A core's message of the vote on a second is delivered.
    Receive(u8, u64, SynodMessage),
    /// Send the root that is held for a second.
    Tell(u64),
    /// Answer the aggregators whose items were sealed for a second.
    Respond(u64),
    /// Return the root of the calendar to a second.
    Publish(u64),
}

impl<C: Compress> Core<C> {
    /// Takes an event by the call that it is, under that call's condition.
    ///
    /// # Errors
    /// `NoMemory`: nothing has changed.
    pub fn take(&mut self, event: CoreEvent) -> Result<Step, NoMemory>
        requires { MayTake self.old event }
        ensures turn { IfOk result (λ step. IsTurn self.old self.new (event_second event) (core_row C.image self.old event) step) }
        ensures unchanged { OnErr result (IsSame self.old self.new) }
    {
        match event {
            CoreEvent::Submission(from, second, item) => self.submission(from, second, item),
            CoreEvent::Seal(second) => self.seal(second),
            CoreEvent::Ballot(second) => self.ballot(second),
            CoreEvent::Receive(from, second, message) => self.receive(from, second, &message),
            CoreEvent::Tell(second) => self.tell(second),
            CoreEvent::Respond(second) => self.respond(second),
            CoreEvent::Publish(second) => self.publish(second),
        }
    }
    /// Whether a core that forgets takes the event: if only the root of its second is left, it takes `Tell` and `Publish` alone.
    pub fn is_taken(&self, event: &CoreEvent) -> bool
        ensures { result ≡ is_taken (state_of self.now) event.now }
    {
        asks_roots(event) || !self.is_bare(second_of(event))
    }
}

/// Whether the event needs only the held roots.
fn asks_roots(event: &CoreEvent) -> bool
    ensures { result ≡ asks_roots event.now }
{
    match event {
        CoreEvent::Tell(_) => true,
        CoreEvent::Publish(_) => true,
        _ => false,
    }
}

/// The second of an event.
fn second_of(event: &CoreEvent) -> u64
    ensures { result ≡ event_second event.now }
{
    match event {
        CoreEvent::Submission(_, second, _) => *second,
        CoreEvent::Seal(second) => *second,
        CoreEvent::Ballot(second) => *second,
        CoreEvent::Receive(_, second, _) => *second,
        CoreEvent::Tell(second) => *second,
        CoreEvent::Respond(second) => *second,
        CoreEvent::Publish(second) => *second,
    }
}
