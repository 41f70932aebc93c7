//! Imprints: a byte that identifies the algorithm, then a SHA-256 digest (FIPS 180-4). Hashing is a trait.
//!
//! In contracts an [`Imprint`] is its 33 bytes and [`Bytes`] is a list. The layers above rely on three things: reading
//! returns exactly the imprint that the bytes or the hex text encode, or the fault; `join` and `of` of a [`Compress`] are
//! one function on lists of bytes; and the result of that function is an imprint. A law says that SHA-256's imprints
//! consist of bytes ([`laws`]). Data that comes in pieces is hashed by [`stream`].
//!
//! ```text
//! let left = Sha::of(b"abc");
//! let right = Imprint::from_hex(text)?;
//! let root = Sha::join(left.bytes(), right.bytes(), 1);
//! let mut digits = [0; 64];
//! root.write_hex(&mut digits);
//! ```
#![tactic(auto)]

mod bytes;
mod clash;
mod compress;
mod fault;
mod imprint;
pub mod laws;
mod refused;
pub mod stream;

pub use bytes::Bytes;
pub use clash::Clash;
pub use compress::{Compress, Sha, Tiny};
pub use fault::{HexFault, ImprintFault};
pub use imprint::Imprint;
pub use refused::Refused;
pub use std::alloc::AllocError as NoMemory;
