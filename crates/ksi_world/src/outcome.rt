use ksi_imprint::Imprint;
use ksi_signature::Answer;

/// What came of an event.
#[derive(Clone, Copy, PartialEq, Eq)]
pub struct Outcome {
    pub answer: Answer,
    /// How many messages were sent.
    pub sent: usize,
}

/// A request that was accepted.
#[derive(Clone, Copy, PartialEq, Eq)]
pub struct Asked {
    /// The aggregator that took it.
    pub aggregator: u32,
    pub second: u64,
    pub imprint: Imprint,
}
