//! Signatures extended to a later second of the calendar, over the seconds that a journal keeps.
//!
//! The layers above may rely on this: [`extend`] returns exactly the bytes, or the first refusal, that the definition
//! `extended` gives for the journal's record, the signature's bytes and the second; or else `NoMemory`. The bytes are read
//! as the same signature with another calendar chain and publication record. That signature is accepted, at the time of its
//! chains and for the input hash of the first one, against all publications whose first record of the second is the
//! journal's root of the calendar to it. The given bytes are read once, as a view. Of the refusals only the one for the
//! size of the new content needs memory. [`extend_view`] does the same for a view, and [`extend_counted`] counts the reads
//! of stored parts, at most 127. The law [`laws::extended_is_accepted`] states of the definition what `extend` states of
//! its result, [`laws::covered_is_extended`] which signatures are not refused, and [`laws::extension_is_bytes`] that the
//! extension consists of bytes.
//!
//! ```text
//! let journal = load::<Sha>(alloc, file)?;
//! match extend(alloc, &journal, bytes, p) {
//!     Ok(text) => .., // to be verified against a publications file with the root of p
//!     Err(Refused::Fault(ExtendRefusal::Undecided(second))) => .., // p is not covered yet
//!     Err(refused) => ..,
//! }
//! ```
#![tactic(auto)]

mod extending;
pub mod laws;
mod refusal;

pub use extending::{extend, extend_counted, extend_view};
pub use ksi_imprint::{NoMemory, Refused};
pub use refusal::ExtendRefusal;
