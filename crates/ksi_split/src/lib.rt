//! How a tree over numbered leaves is split, the paths from its top to its leaves (`way`), the second that a path names,
//! and trees that grow at their end. The split is that of a Merkle tree in RFC 9162, 2.1.1.
//!
//! A tree of n leaves, n above 1, is split at the greatest power of two below n: that many leaves are in its left part,
//! the others in its right part (Buldas, Kroonmaa, Laanoja, "Keyless Signatures' Infrastructure", 2013). In the calendar
//! the leaves are the seconds from 0, and a calendar published for second `p` has `p + 1` of them.
//!
//! The layer above may rely on this: `split` and `high_bit` return exactly these powers of two; `way` returns the one path
//! to a leaf; `second_of` returns the one second whose path the sides are, or at which side they go below a leaf, or how
//! many seconds more than one they leave open. None of these allocates memory. Laws on paths are in `laws`, and laws on
//! trees, for any join of their nodes, in `trees`.
//!
//! ```
//! let sides = way(2, 6);
//! assert_eq!(sides.as_slice(), [Side::Left, Side::Right, Side::Left].as_slice());
//! assert_eq!(second_of(5, sides.as_slice()), Ok(2));
//! assert_eq!(second_of(5, &[Side::Left]), Err(ShapeFault::TooFew(3)));
//! ```
//!
//! [`Rows`] is a tree that grows, stored as rows of complete parts. The first `start` leaves are all alike and are never
//! walked: for each size `2 ^ k` up to `start`, one of their complete parts is computed. After them leaves are added one
//! by one. For each size `2 ^ k` a row has the complete parts of `2 ^ k` leaves that do not end before the start; the row
//! is made with its first part.
//!
//! The layer above may rely on this: `root`, `node` and `path` are those of the tree over all leaves to `last`, joined by
//! the implementation of [`Joins`], and only `path` allocates memory; a refused `append` or `append_all` changes nothing.
//! A step is one read of a stored part, and `path_counted` has bounds on the number of steps from both sides.
//!
//! ```text
//! let mut rows = Rows::<u64, Sums>::new(alloc, 2, 0)?;
//! rows.append(5)?;
//! rows.append(7)?;
//! assert_eq!(rows.root(3), 12);
//! assert_eq!(rows.path(2, 3)?[0].sibling, 7);
//! ```
#![tactic(auto)]

mod borders;
mod fault;
mod joins;
pub mod laws;
mod levels;
mod paths;
mod power;
mod row;
mod rows;
mod side;
mod sides;
mod steps;
mod tree_link;
pub mod trees;
mod uncounted;
mod walk;
mod zeros;

pub use fault::ShapeFault;
pub use joins::Joins;
pub use paths::Paths;
pub use power::{high_bit, split};
pub use rows::Rows;
pub use side::Side;
pub use sides::Way;
pub use std::alloc::AllocError as NoMemory;
pub use steps::Steps;
pub use tree_link::TreeLink;
pub use walk::{second_of, way};
