//! Compares a hash chain with a stored Merkle tree, node by node from the root (Merkle, "A Certified Digital Signature",
//! 1989).
//!
//! Links lead up from a node to the root of a tree. If the stored tree has the same root, each link's string is the one
//! that the tree has there, or the first one that differs has the image of another string: a collision (*clash*) of the
//! hash function.
//!
//! The layers above may rely on this: [`along_calendar`] and [`along_links`] return exactly the result of their definition.
//! It is the first string of a link that differs from the tree's, with the tree's; or the place at which the links end; or
//! the place at which the tree ends and links are left. A stored tree implements [`KeptTree`]. Two strings are equal if all
//! their bytes are, however each is cut into its parts: the left part is an imprint, but the right one may be metadata of
//! any length. The links of several chains are compared one chain after the other, the uppermost first. Only the two
//! strings of a collision need memory, so `NoMemory` occurs only if the answer would be a clash. Laws on the definition are
//! in [`laws`].
//!
//! ```text
//! match along_links::<Sha, Tree, Link>(alloc, &tree, Walk::At(Place::top()), &below, &links)? {
//!     Walk::At(place) => ..,
//!     Walk::Past(place) => ..,
//!     Walk::Apart(clash) => ..,
//! }
//! ```
#![tactic(auto)]

mod kept;
pub mod laws;
mod place;
mod rung;
mod walk;

pub use kept::KeptTree;
pub use ksi_aggtree::{NodeParts, OtherPart};
pub use ksi_imprint::{Clash, NoMemory};
pub use place::Place;
pub use walk::{Walk, along_calendar, along_links};
