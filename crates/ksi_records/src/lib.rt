//! Compares records of live runs with the world of a plan, and logs of nodes with the node's own run. Each is read as a
//! stream.
//!
//! The layer above may rely on this: a record or a log has one verdict. It agrees exactly if each block is the text that the
//! world, or the node, has at its place, and a record only if each signature is the one issued and, in version 2, each line
//! that came from a node is the message that the entry names. Else the verdict is the first entry that differs, or the first
//! text that is no entry. A record that agrees is that of a history (clause `history` of [`retrace`]), and `ksi_laws_records`
//! says what follows for its signatures. For each step whose reply was lost, the world's block is written. The formats are in docs/FORMATS.md, "Records of
//! runs" and "Logs of nodes".
//!
//! ```text
//! let status = report::<Sha, _, _>(alloc, schedule.plan(), &mut record, &mut out)?;
//! let me = node_of(schedule.plan(), b"c0")?;
//! let status = node::report::<Sha, _, _>(alloc, schedule.plan(), me, &mut log, &mut out)?;
//! ```
#![tactic(auto)]

mod blocks;
mod entry;
mod fault;
mod head;
pub mod laws;
mod mark;
pub mod node;
mod printing;
mod reading;
mod reporting;
mod stream;
mod sum;
mod telling;
mod tracer;
mod verdict;
mod version;

pub use blocks::Place;
pub use fault::RecordFault;
pub use reading::node_of;
pub use reporting::report;
pub use stream::retrace;
pub use verdict::{Counts, Retraced};
pub use version::Version;
