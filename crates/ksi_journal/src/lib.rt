//! Journals: files of what cores kept. A journal is a magic of eight bytes and then elements in exactly this order: a
//! start; in version 2 the voters; the kept seconds, each with its root and directly after it its items; the issued
//! signatures; the publications; and an end (docs/FORMATS.md, "Journals").
//!
//! In contracts a [`Journal`] is a record of lists. The layers above may rely on this. [`load`] returns exactly the journal
//! of the file that the bytes are, or the first fault in order of bytes, and computes each tree. In every journal the tree
//! of a second has its root. The seconds of voters, the kept seconds, the numbers and the published times rise, and no
//! second is before the start. `calendar` is the calendar of the covered seconds, `root` and `first_missing` report which
//! seconds are kept, and `tree` borrows the tree of a kept second. [`write`] returns the journal's text. The readers of a
//! journal allocate no memory. Laws on the definitions are in `laws`.
//!
//! ```text
//! let journal = load::<Sha>(alloc, bytes)?;
//! if journal.first_missing(p).is_none() {
//!     let root = journal.calendar().root_to(p);
//! }
//! let text = write(alloc, &journal)?;
//! ```
#![tactic(auto)]

mod calendar;
mod fault;
mod fields;
mod finding;
mod item;
mod journal;
pub mod laws;
mod loading;
mod loading_pairs;
mod loading_seconds;
mod parts;
mod reader;
mod stage;
mod version;
mod voters;
mod writer;

pub use fault::JournalFault;
pub use item::read_item;
pub use journal::Journal;
pub use ksi_aggtree::{Second, Tree};
pub use ksi_imprint::{NoMemory, Refused};
pub use ksi_synod::{Voters, VotersFrom};
pub use loading::named;
pub use parts::Parts;
pub use reader::load;
pub use version::Version;
pub use writer::{VersionRefusal, write, write_version};
