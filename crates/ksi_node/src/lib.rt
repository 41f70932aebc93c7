//! Nodes as processes: a line is read, its fact is stored, and only then the text of the step is written.
//!
//! [`serve_core`] takes each line of a reader until it ends, and writes a block for each by an [`Outlet`]. The condition is
//! at the call that writes, so it holds for all output, whether or not the process ends: the text of a step is that of an
//! event that led to the core that the store has now, and its fact is durable in the store's file; and a refusal is written
//! only if the facts of the store are those of its file. A line that is not an event or a question is refused by its first
//! fault and changes nothing. A core refuses an event of a second of which only the root is left, except `tell` and `publish`, as
//! `forgotten`: it may have voted there and forgotten its vote. [`serve_aggregator`] serves the store of an aggregator in the same
//! way.
//!
//! The layers above may rely on this. At the end of the input the output is `ready` and the number of records, then a block
//! for each line of the input, in order: the text of the one step of its event, the answer of its question, or its refusal.
//! Either call ends with `Failure::Disk` only if a call of the disk failed, and then its count of faults rose.
//! The only precondition is what `NodeStore::open` or `RoundStore::open` ensures. [`next_line`] returns exactly the next
//! line of the input, and keeps at most 32,000 bytes of a longer one. Each text goes out by one put. [`plan_of`] returns
//! exactly the plan of its file, and [`end`] the status and the last line of a run.
//!
//! ```text
//! let mut reader = BufReader::new(rt.alloc(), rt.stdin())?;
//! let mut out = HostOutlet::new(rt.stdout());
//! serve_core(rt.alloc(), &plan, 0, &mut store, &mut reader, &mut out)?;
//! ```
#![tactic(auto)]

mod core_node;
mod failure;
mod inlet;
mod outlet;
mod program;
mod round_node;
mod said;

pub use core_node::serve_core;
pub use failure::Failure;
pub use inlet::{Came, next_line};
pub use outlet::{HostOutlet, Outlet};
pub use program::{disk_at, end, formatted_disk, plan_of};
pub use round_node::serve_aggregator;
