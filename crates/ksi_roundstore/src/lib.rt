//! An aggregator with its facts on a disk: after a crash at any moment, reopening the file gives the aggregator as after a
//! restart. And the compaction of its file, which forgets rounds that have a response.
//!
//! Each fact is encoded as the lines of its events, as the content of one record of `ksi_disk`, after a header that identifies
//! the aggregator and its plan. [`format`] creates an empty file, and [`RoundStore::open`] a store of the facts in one.
//! [`RoundStore::take`] takes an event of the aggregator: it makes the record of the fact, then the aggregator's step, appends
//! the record, and only then returns the step. So `NoMemory` leaves everything unchanged. After a failure of the disk the store
//! is spent: its file must be opened again. The items of a round that is not closed are in no file: a crash forgets them, as a
//! restart does.
//!
//! Of a forgotten round the file keeps that it was closed, as if it had no items. The layers above may rely on this: the facts
//! left are valid, and an aggregator rebuilt from them answers, stores and sends exactly what the original would have, for any
//! events. It no longer issues signatures of forgotten rounds, and issues all others as before. [`forget`] writes the compacted
//! file to a new disk, and writes nothing to the old one.
//!
//! ```text
//! format(0, &plan, &mut disk)?;
//! let mut store = RoundStore::<Sha, MemDisk>::open(alloc, 0, &plan, disk)?;
//! let step = store.take(RoundEvent::Close(second))?;
//! for send in step.sends.as_slice() { deliver(send) }
//! let done = forget::<Sha, MemDisk, MemDisk>(alloc, 0, &plan, second, store.into_disk(), &mut fresh)?;
//! ```
#![tactic(auto)]

mod answered;
mod appending;
mod events;
mod folding;
mod forgetting;
mod forgotten;
mod formatting;
mod found;
mod heading;
mod heads;
mod kind;
mod kinds;
mod last_line;
pub mod laws;
mod left;
mod numbers;
mod opening;
mod putting;
mod reading;
mod refusal;
mod room;
mod shape;
mod stays;
mod store;
mod taking;
mod writing;

pub use forgetting::forget;
pub use forgotten::Forgotten;
pub use formatting::format;
pub use heads::{HEADER, Header};
pub use reading::header;
pub use refusal::{ForgetRefusal, OpenRefusal, TakeRefusal};
pub use store::RoundStore;
