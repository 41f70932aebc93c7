use ksi_aggregator::RoundEvent;
use ksi_corenode::CoreEvent;

/// What a node took.
#[derive(Drop)]
pub enum Given {
    /// The core of this number took this.
    ToCore(u8, CoreEvent),
    /// The aggregator of this number took this.
    ToAggregator(u32, RoundEvent),
}

/// The first line of an entry.
#[derive(Drop)]
pub enum Head {
    /// The node took this, and its block follows.
    Said(Given),
    /// The node took this and stored the result, but its reply was lost. No block follows.
    Unsaid(Given),
    /// The node was started again. No block follows.
    Restarted,
}
