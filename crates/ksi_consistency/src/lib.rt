//! Fronts of the hash calendar: consistency proofs (RFC 9162, 2.1.4; Go's `sumdb/tlog`). A front proves that the calendar
//! of the seconds from 0 to `p1` is a prefix of that of the seconds from 0 to `p2`.
//!
//! A front is a list of subtrees of the newer calendar, at most one for each level. Together with the older root they lead
//! to the newer root, and alone they lead to the older one. [`prove`] and [`check`] distinguish the same cases.
//!
//! The layers above may rely on this. [`prove`] returns exactly the list of the definition, and that list is accepted.
//! [`check`] returns the first of three refusals that applies, and allocates no memory. [`compare`] compares two kept
//! calendars: if a front is accepted between their roots, they have the same leaves to `p1`, or it returns two different
//! strings with one imprint. [`Front`] is a front with both seconds; [`read_front`] and [`write_front`] read and write its
//! file. Laws on the definitions are in [`laws`].
//!
//! ```text
//! let front = prove(alloc, &calendar, p1, p2)?;
//! assert_eq!(check::<Sha>(p1, p2, root_to_p1, root_to_p2, front.as_slice()), Ok(()));
//! match compare(alloc, &old, &new, p1, p2, front.as_slice())? {
//!     Compared::NotAccepted(refusal) => ..,
//!     Compared::Equal => ..,
//!     Compared::Clash(clash) => ..,
//! }
//! ```
#![tactic(auto)]

mod clashing;
mod compared;
mod comparing;
mod differing;
mod fault;
mod few;
mod file_checking;
mod file_refusal;
mod halves;
mod imprints;
mod join;
mod kept;
pub mod laws;
mod loading;
mod noting;
mod proving;
mod reader;
mod refusal;
mod roots;
mod stage;
mod value;
mod writer;

pub use compared::Compared;
pub use comparing::compare;
pub use fault::FrontFault;
pub use file_checking::check_file;
pub use file_refusal::FileRefusal;
pub use imprints::Imprints;
pub use ksi_imprint::{NoMemory, Refused};
pub use proving::{check, prove};
pub use reader::read_front;
pub use refusal::FrontRefusal;
pub use value::Front;
pub use writer::write_front;
