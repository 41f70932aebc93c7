use ksi_aggregator::Aggregator;
use ksi_disk::{Disk, GateLog};
use ksi_imprint::Compress;
use std::alloc::Global;
use std::marker::Model;

/// An aggregator whose facts are on a disk. A contract sees the aggregator, the log of its file, and how many records there
/// are. Until a call of the disk fails its file is on the disk for good.
#[derive(Drop)]
pub struct RoundStore<C: Compress, D: Disk> {
    pub(crate) alloc: Global,
    pub(crate) aggregator: Aggregator<C>,
    pub(crate) log: GateLog<D>,
    pub(crate) records: u64,
}

impl<C: Compress, D: Disk> Model for RoundStore<C, D> {
    ghost use Rattle.ksi_roundstore.specs.StoreState.{IsKept, StoreState};

    ghost Value = { StoreState D };

    ghost view = { λ store. record { aggregator = store.aggregator; log = store.log; records = store.records } };

    ghost invariant = { λ store. IsKept D.content D.images (record { aggregator = store.aggregator; log = store.log; records = store.records }) };
}
