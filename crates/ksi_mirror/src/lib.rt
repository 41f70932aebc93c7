//! Mirrors: copies of the data of cores (replicas), which are merged in any order and turned into a journal.
//!
//! A [`Mirror`] has a start, roots by second, and by second and core the list of items that the core sealed. In contracts
//! it is a record of sorted lists; `root_of` and `list_of` look one up. The layers above may rely on this. [`merge`]
//! returns the union of two mirrors, or a reason why there is none. Merging is idempotent, commutative and associative
//! ([`laws`]), so copies may come late, twice and in any order. [`whole`] returns the journal of a mirror's roots, each
//! with the list of the lowest core whose tree has the root. [`load_mirror`] returns exactly the mirror of the file that
//! the bytes are, or the first fault in order of bytes, and it reads the result of [`write_mirror`] as the same mirror.
//!
//! ```text
//! let one = load_mirror(alloc, bytes)?;
//! let both = merge(alloc, &one, &load_mirror(alloc, others)?)?;
//! let journal = whole::<Sha>(alloc, &both)?;
//! let text = write_mirror(alloc, &both)?;
//! ```
#![tactic(auto)]

mod entries;
mod fault;
mod fields;
pub mod laws;
mod loading;
mod merging;
mod mirror;
mod parts;
mod reader;
mod refusal;
mod sealed_list;
mod stage;
mod uniting;
mod whole_journal;
mod writer;

pub use fault::MirrorFault;
pub use ksi_imprint::{NoMemory, Refused};
pub use ksi_journal::JournalFault;
pub use merging::merge;
pub use mirror::Mirror;
pub use parts::MirrorParts;
pub use reader::load_mirror;
pub use refusal::{MergeRefusal, WholeRefusal};
pub use sealed_list::SealedList;
pub use whole_journal::whole;
pub use writer::write_mirror;
