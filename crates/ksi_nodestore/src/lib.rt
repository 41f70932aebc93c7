//! A core with its facts on a disk: after a crash at any moment, reopening the file gives the core as after a restart.
//!
//! Each fact is encoded as the content of one record of `ksi_disk`, after a header that identifies the core and its plan.
//! [`format`] creates an empty file, and [`NodeStore::open`] a store of the facts in one. [`NodeStore::take`] takes an event of
//! the core: it reserves the record, makes the core's step, appends the record, and only then returns the step. So `NoMemory`
//! leaves everything unchanged. After a failure of the disk the store is spent: its file must be opened again.
//!
//! The layers above rely on three properties. The core that is opened is that of the facts in the file, and each refusal states
//! correctly what is wrong with the file. After a crash at any moment each image is a file of the facts acknowledged before,
//! with or without that of the event in progress. A core rebuilt from the facts in such a file is the core after a restart
//! ([`laws`]).
//!
//! ```text
//! format(0, &plan, &mut disk)?;
//! let mut store = NodeStore::<Sha, MemDisk>::open(alloc, 0, &plan, disk)?;
//! let step = store.take(CoreEvent::Seal(second))?;
//! for send in step.sends.as_slice() { deliver(send) }
//! ```
#![tactic(auto)]

mod appending;
mod entry_reading;
mod fact_reading;
mod folding;
mod formatting;
mod found;
mod heading;
mod heads;
mod in_memory;
mod inspected;
mod inspecting;
pub mod laws;
mod numbers;
mod opening;
mod reading;
mod refusal;
mod restarting;
mod room;
mod store;
mod taking;
mod writing;

pub use fact_reading::read_fact;
pub use formatting::format;
pub use heads::{HEADER, Header, HeaderFault};
pub use inspected::{Inspected, NodeFault};
pub use inspecting::inspect;
pub use reading::header;
pub use refusal::{OpenRefusal, TakeRefusal};
pub use store::{Counts, NodeStore};
