//! Masked blocks of log lines: many lines are signed as one imprint, and the proof of a line reveals nothing about its
//! neighbours.
//!
//! A line's mask is the hash of the leaf before it and the block's seed; for the first line it is that of the zero imprint
//! and the seed. A line's leaf is the join of its mask and the line's hash at level 1, and the root is that of the
//! aggregation tree over the leaves (Buldas, Truu, Laanoja, Gerhards, "Efficient Record-Level Keyless Signatures for Audit
//! Logs", 2014).
//!
//! The layers above may rely on this. `push` adds a line or returns why it cannot. `root` is the tree over the leaves.
//! `proof` returns a line's own mask and chain, which lead to the root. [`root_of`] returns the imprint that a line and a
//! proof lead to. If these lead to a kept block's root, [`locate`] returns which line of the block it is, with its own mask
//! and path, or a collision of the hash function. [`block_of`] returns the block of a log's lines, or the first line that
//! no block can have. Proof files are read and written. Lines are borrowed, not copied; a block keeps one leaf for each.
//! Only `push`, `block_of`, `proof`, `read_proof`, `write_proof` and a clash allocate memory. Laws on the definitions are
//! in [`laws`].
//!
//! ```text
//! let mut block = Block::<Sha>::new(alloc, seed);
//! block.push(line)?;
//! let proof = block.proof(0)?;
//! assert_eq!(root_of::<Sha>(line, &proof).ok(), block.root().map(|root| root.imprint));
//! ```
#![tactic(auto)]

mod beneath;
mod block;
mod climbing;
mod hashing;
mod kept;
pub mod laws;
mod line_proof;
mod locating;
mod logs;
mod over;
mod proof_fault;
mod reading;
mod said;
mod writing;

pub use block::{Block, LONGEST_LINE, MOST_LINES, PushRefusal};
pub use climbing::root_of;
pub use ksi_aggtree::chains::LevelFault;
pub use ksi_imprint::{Clash, NoMemory, Refused};
pub use line_proof::{LineLink, LineLinks, LineProof, MOST_LINKS};
pub use locating::{LineRefusal, Located, locate};
pub use logs::{LogRefusal, block_of};
pub use proof_fault::ProofFault;
pub use reading::read_proof;
pub use writing::write_proof;
