//! The hash calendar: a Merkle tree with one leaf for each second of Unix time from 0, its roots and its chains, climbing
//! along chains, and the second that their sides name.
//!
//! The leaf of a second before the start is the zero imprint, and that of a later second is the root that was appended
//! for it. The tree over the seconds from 0 to `p` is split as in `ksi_split`, and its joins have the level byte 0xff
//! (Buldas, Kroonmaa, Laanoja, "Keyless Signatures' Infrastructure", 2013). A chain is an inclusion proof of that tree: it
//! leads from the root of one second to the root of all of them. Links are listed from the bottom.
//!
//! The layer above may rely on this: `root_to` is the root of that tree; the links of `chain_to` climb from a second's
//! leaf to it along the second's path; `node` is the tree of the part that sides lead to. `climb_calendar` returns exactly
//! the imprint that links lead to; `second` returns the one second whose path the links' sides are, from the top, or at
//! which place they go below a leaf, or how many seconds more than one they leave open. Only `new`, `append`, `append_all`
//! and the chains allocate memory, and a refused `append` or `append_all` changes nothing. A chain takes at most 126
//! steps, each the read of one stored node, and at least one step for each link. Laws on the definitions and on climbing
//! are in `laws`.
//!
//! ```text
//! let mut calendar = Calendar::<Sha>::new(alloc, 2)?;
//! calendar.append(root)?;
//! let links = calendar.chain_to(2, 2)?;
//! assert_eq!(calendar.root_to(2), Some(climb_calendar::<Sha>(root, links.as_slice())));
//! assert_eq!(second(2, links.as_slice()), Ok(2));
//! assert_eq!(calendar.root_to(1), None);
//! ```
#![tactic(auto)]

mod calendar;
mod climbing;
mod join;
pub mod laws;
mod link;
mod second_path;
mod seconds;

pub use calendar::Calendar;
pub use climbing::climb_calendar;
pub use ksi_split::Steps;
pub use link::CalendarLink;
pub use second_path::SecondPath;
pub use seconds::second;
