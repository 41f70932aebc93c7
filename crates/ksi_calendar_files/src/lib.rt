//! Calendar files: the roots of the seconds of a plan, 4,096 seconds by number to a file (docs/FORMATS.md, "Calendar files").
//!
//! A full file has exactly one subtree of the calendar, which is a tree over absolute seconds (RFC 9162, 2.1.1; Go's tiles of
//! `sumdb/tlog` are cut alike). The layer above may rely on this: [`read_file`] returns exactly the file that the bytes encode,
//! or the first fault, as the definition `file_at` says. The text of each file is read as that file ([`laws::text_is_read`]).
//!
//! ```text
//! let file = read_file(alloc, bytes)?;
//! let first = file.first_second();
//! for (place, root) in file.roots().iter().enumerate() { .. } // of second first + place
//! ```
#![tactic(auto)]

mod fault;
mod file;
mod head;
pub mod laws;
mod numbers;
mod reader;

pub use fault::FileFault;
pub use file::{CalendarFile, FILE_SECONDS};
pub use ksi_imprint::{NoMemory, Refused};
pub use reader::{FILE_BYTES, read_file};
