//! The checks of a signature of Keyless Signatures' Infrastructure (Buldas, Kroonmaa, Laanoja, "Keyless Signatures'
//! Infrastructure", 2013) against a hash and the published roots of the calendar.
//!
//! Fifteen checks run in this order: V1 to V6, V15, V7 to V14. They cover the hash; the indexes, shapes, levels, joints,
//! times and raw siblings of the aggregation chains; the input, the sides and the stated times of the calendar chain; and
//! the published root. Within one check the lowest chain that fails is reported, then its lowest link. The second that a
//! signature proves is the one that the sides of its calendar chain name: the stated times are only compared with it.
//!
//! The layer above may rely on this: [`verify`] returns the verdict, which is the first check that fails, with its values,
//! or the second that the signature proves, and its clause `accepted` defines an accepted signature without an order of
//! checks; [`verify_view`] does the same for a borrowed signature, by the same body, and [`verify_bytes`] for bytes, or
//! returns the first fault if they are not a signature; [`aggregate`] and [`aggregate_view`] run V2 to V6 and V15 only, and
//! return the chains' time and the node that they lead to. No call allocates memory. [`laws`] says what the checks mean,
//! whatever their order: `accepted` turns an accepted signature into the facts that make it one, and back.
//! [`verify_files`] is the whole check from bytes to verdict, over a borrowed signature file and publications file, for
//! calls from C or from the page, and returns the publication that acceptance rests on; [`find_step`] returns one step of
//! it, for display.
//!
//! ```text
//! let publications = ksi_publications::read(alloc, file)?;
//! match verify_bytes::<Sha>(bytes, &hash, &publications) {
//!     BytesVerdict::Accepted(second) => ..,
//!     BytesVerdict::Refused(refusal) => ..,
//!     BytesVerdict::Malformed(fault) => ..,
//! }
//! ```
#![tactic(auto)]

mod aggregated;
mod any_calendar;
mod any_chain;
mod bytes_checking;
mod bytes_verdict;
mod calendar;
mod chains;
mod checking;
mod difference;
mod files_checking;
mod files_verdict;
mod index;
pub mod laws;
mod lent;
mod lent_chain;
mod lent_checking;
mod owned;
mod proved;
mod publication;
mod refusal;
mod step;
mod stepping;
mod verdict;

pub use aggregated::{Aggregated, aggregate};
pub use any_chain::AnyChain;
pub use bytes_checking::verify_bytes;
pub use bytes_verdict::BytesVerdict;
pub use checking::verify;
pub use difference::RecordDifference;
pub use files_checking::verify_files;
pub use files_verdict::FilesVerdict;
pub use lent::{CalendarPart, RecordPart};
pub use lent_checking::{aggregate_view, lent_calendar, verify_lent, verify_view};
pub use owned::calendar_part;
pub use proved::Proved;
pub use refusal::Refusal;
pub use step::Step;
pub use stepping::find_step;
pub use verdict::Verdict;
