//! Elements that stand in a stated order, as in journals: the first fault in order of bytes, and file formats over them.
//!
//! A type says what the elements so far say and what may stand behind them ([`Ordered`]); [`walk`] reads the elements
//! of bytes into it. The fields inside one element are read by [`Fields`], each in its place, and their values by
//! [`number`], [`time`] and [`imprint`].
//!
//! The layer above may rely on this: a walk comes to the state that whole elements in their order lead to, or to the
//! first fault in order of bytes, and for all bytes to exactly one of these. At one element its being cut off comes
//! first, then its kind, then what it holds. The readers of fields take no memory.
//!
//! A format is a record of its definitions (`specs/Format`): the magic, the order of the elements behind it, and the value
//! of the state that they lead to. What follows for all formats is said here once, in [`laws`]: bytes are the file of a value
//! or have a first fault, and not both; they are the file of one value and have one first fault; and `file_at` gives the
//! value or the fault. The lemmas of `proofs/` serve the proofs of formats: that what is written is read again, and that a
//! file's elements are those of its value.
//!
//! ```text
//! let mut inside = Fields::new(&at);
//! let second = time(&inside.next(0x01)?)?;
//! let root = imprint(&inside.next(0x02)?)?;
//! inside.done()?;
//! walk(&mut loading, 8, rest)?;
//! ```
mod fault;
mod field;
pub mod laws;
mod values;
mod walking;

pub use fault::OrderFault;
pub use field::Fields;
pub use values::{imprint, number, time};
pub use walking::{Ordered, walk};
