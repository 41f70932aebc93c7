use ksi_aggtree::Name;
use ksi_imprint::Imprint;

/// What may happen: one actor takes one request, one command, one delivered message or one restart. Actors are given by
/// their numbers.
#[derive(Clone, Copy, PartialEq, Eq, Debug)]
pub enum Event {
    /// The aggregator is asked to sign an imprint in a second, under a name or none.
    Request(u32, u64, Imprint, Option<Name>),
    /// The aggregator closes its round of a second.
    Close(u32, u64),
    /// The core seals a second.
    Seal(u8, u64),
    /// The core tries a ballot for a second.
    Ballot(u8, u64),
    /// The message of this number comes to its addressee.
    Deliver(u64),
    /// The core tells what it holds for a second.
    Tell(u8, u64),
    /// The core answers the aggregators whose items it sealed for a second.
    Respond(u8, u64),
    /// The core publishes the root of the calendar to a second.
    Publish(u8, u64),
    /// The core restarts.
    RestartCore(u8),
    /// The aggregator restarts.
    RestartAggregator(u32),
}
