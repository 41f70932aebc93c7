use ksi_corenode::Core;
use ksi_disk::{Disk, GateLog};
use ksi_imprint::Compress;
use std::alloc::Global;
use std::marker::Model;

/// A core whose facts are on a disk. A contract sees the core, the log of its file, and how many records there are. Until a
/// call of the disk fails it is the store of some facts: they are in the file, and the core has stored them and no others.
#[derive(Drop)]
pub struct NodeStore<C: Compress, D: Disk> {
    pub(crate) alloc: Global,
    pub(crate) core: Core<C>,
    pub(crate) log: GateLog<D>,
    pub(crate) records: u64,
}

impl<C: Compress, D: Disk> Model for NodeStore<C, D> {
    ghost use Rattle.ksi_nodestore.specs.StoreState.{IsKept, StoreState};

    ghost Value = { StoreState D };

    ghost view = { λ store. record { core = store.core; log = store.log; records = store.records } };

    ghost invariant = { λ store. IsKept C.image D.content D.images (record { core = store.core; log = store.log; records = store.records }) };
}

/// How many records a store has, and how many seconds its core sealed and holds.
#[derive(Clone, Copy, Debug, PartialEq, Eq)]
pub struct Counts {
    pub records: u64,
    pub sealed: u64,
    pub held: u64,
}
