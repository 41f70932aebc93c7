use ksi_aggregator::Aggregator;
use ksi_imprint::Compress;

/// What was found in the file of an aggregator: the aggregator of its facts, the place of its standing gate, and how many
/// records there are.
#[derive(Drop)]
pub(crate) struct Found<C: Compress> {
    pub aggregator: Aggregator<C>,
    pub gate: u64,
    pub records: u64,
}
