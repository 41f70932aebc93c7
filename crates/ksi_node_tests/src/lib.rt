//! Tests of the nodes: rounds (`ksi_aggtree`), votes (`ksi_synod`), `ksi_corenode`, `ksi_aggregator` and `ksi_world`; and
//! of disks and stores: `ksi_disk`, `ksi_nodestore` and `ksi_roundstore`.
//!
//! They are in a crate of their own, since a crate with tests is proved twice. No layer above uses it.
#![tactic(auto)]

#[cfg(test)]
mod aggregators;
#[cfg(test)]
mod ballots;
#[cfg(test)]
mod broken_files;
#[cfg(test)]
mod crashes;
#[cfg(test)]
mod disks;
#[cfg(test)]
mod entries;
#[cfg(test)]
mod facts;
#[cfg(test)]
mod generated;
#[cfg(test)]
mod headers;
#[cfg(test)]
mod host_disks;
#[cfg(test)]
mod images;
#[cfg(test)]
mod lent;
#[cfg(test)]
mod logs;
#[cfg(test)]
mod named_worlds;
#[cfg(test)]
mod names;
#[cfg(test)]
mod node_files;
#[cfg(test)]
mod printed;
#[cfg(test)]
mod requests;
#[cfg(test)]
mod rounds;
#[cfg(test)]
mod same;
#[cfg(test)]
mod steps;
#[cfg(test)]
mod stopped_aggregators;
#[cfg(test)]
mod stopped_cores;
#[cfg(test)]
mod taken;
#[cfg(test)]
mod text;
#[cfg(test)]
mod voters;
#[cfg(test)]
mod votes;
#[cfg(test)]
mod worlds;
