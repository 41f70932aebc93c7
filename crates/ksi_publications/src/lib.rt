//! Publications files: the published root hashes of calendar trees, each with its time. A file is eight bytes of magic,
//! then a header and publication records in any order: Guardtime's published format, described in docs/FORMATS.md.
//!
//! In contracts [`Publications`] is its list of times and hashes, in the order of the file. The layer above may rely on
//! this: [`read`] returns exactly the list of the file that the bytes encode, or the first fault in reading order, which
//! it finds without allocating memory; [`PublicationsView`] borrows that file from its bytes and allocates no memory;
//! `find` of either returns the first hash of a time, and the checks take either as [`Published`]; and if the times are
//! below 2^63, reading the result of [`write`] returns what was written.
//!
//! ```text
//! let file = write(alloc, creation, &[(time, root)])?;
//! let publications = read(alloc, file.as_slice())?;
//! if let Some(hash) = publications.find(time) {
//!     // hash is root
//! }
//! ```
#![tactic(auto)]

mod containers;
mod fault;
pub mod laws;
mod publications;
mod publications_view;
mod published;
mod reader;
mod writer;

pub use containers::{FileContent, HeaderContent};
pub use fault::PublicationsFault;
pub use ksi_imprint::{NoMemory, Refused};
pub use publications::Publications;
pub use publications_view::PublicationsView;
pub use published::Published;
pub use reader::read;
pub use writer::write;
