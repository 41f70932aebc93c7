//! Audits: finds an accepted hash in the data that the cores kept, or two different strings with one imprint: a collision
//! (*clash*).
//!
//! An audit compares a signature with a journal. The string that each link hashes is compared, from the top, with the
//! string of the kept tree at that place: first along the calendar, then along the tree of the second that the calendar
//! links name. If all strings are equal, the hash is a node of that tree, or its lowest links lead to an item of it. A
//! named item is the left child of its leaf, whose string is the item's imprint, the name's metadata and the leaf's level.
//! The first string that differs has the imprint of the kept one, so the two are a collision of the hash function.
//!
//! The layers above may rely on this: [`audit`] returns exactly the answer that its definition computes, and so does
//! [`audit_view`], for a borrowed signature, by the same body. Each answer is true for every hash function whose results
//! are imprints; the proof needs no other premise about it. Only the two strings of a collision need memory, so `NoMemory`
//! occurs only if the answer would be a clash. The traversal is recursive, at most 63 links and 16 chains deep. Laws on the
//! definition are in [`laws`].
//!
//! ```text
//! let signature = ksi_signature::view(bytes)?;
//! match audit_view::<Sha>(alloc, &journal, &signature, &hash, &publications)? {
//!     Audit::Inside(second, way) => ..,
//!     Audit::Beneath(second, item, links) => ..,
//!     Audit::Clash(clash) => ..,
//!     refused => ..,
//! }
//! ```
#![tactic(auto)]

mod answer;
mod auditing;
mod calendar;
mod chains;
mod deep;
mod items;
mod laid;
pub mod laws;
mod laying;
mod links;
mod reached;

pub use answer::Audit;
pub use auditing::{audit, audit_lent, audit_view};
pub use ksi_imprint::{Clash, NoMemory};
pub use laying::lay_view;
pub use links::has_links;
