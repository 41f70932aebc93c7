//! The node file of a core of a history: the facts that the core stored, in their order.
//!
//! [`node_file`] runs a schedule through the nodes, and passes the events of one core to a store of `ksi_nodestore` on a
//! disk in memory. A restart of the core leaves its store as reopening would, without reading the file. No call of the disk
//! fails, since each has room and a turn. The layers above may rely on this: the bytes are the file of exactly the facts of
//! that core in the history, which survive its restarts, with one record for each, in their order.
//!
//! ```text
//! let file = node_file::<Sha>(alloc, &schedule, 0)?;
//! save(file.bytes.as_slice());
//! ```
#![tactic(auto)]

mod following;
pub mod laws;
mod making;
mod stores;

pub use making::{NodeFile, node_file};
