//! Hash chains of an aggregation: links, climbing along them, and the shape that they have. A chain is an inclusion proof
//! of a Merkle tree.
//!
//! A link says on which side of its join a node stands, what the join has beside it, and how many levels more than one
//! it goes up (Buldas, Kroonmaa, Laanoja, "Keyless Signatures' Infrastructure", 2013).
//!
//! The layer above may rely on this: `climb` gives exactly the node that the links lead to, or the first link whose
//! level passes 255; `shape` is the number that has the links' sides as its bits, below a leading one; `find_bare`
//! is the first right link whose raw sibling begins as an imprint does. No call takes memory. What holds of climbing and
//! of shapes is in `laws`.
//!
//! ```text
//! let links = [Link { side: Side::Left, correction: 0, sibling: Sibling::Imprint(sibling) }];
//! let item = climb::<Sha, Link>(input, 0, &links)?;
//! assert_eq!(item.imprint, Sha::join(input.bytes(), sibling.bytes(), 1));
//! assert_eq!(item.level, 1);
//! assert_eq!(shape(&links), 3);
//! ```
mod bare;
mod chain_link;
mod climbing;
pub mod laws;
mod link;
mod link_view;
mod node;
mod shapes;

pub use bare::{find_bare, is_bare};
pub use chain_link::ChainLink;
pub use climbing::{LevelFault, climb, climb_link};
pub use link::{Link, Sibling};
pub use link_view::LinkView;
pub use node::{HIGHEST_LEVEL, Node};
pub use shapes::{shape, with_leading_one, with_side};
