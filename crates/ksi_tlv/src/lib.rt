//! Elements in the type-length-value encoding of Keyless Signatures' Infrastructure, read from bytes and written.
//! An element has a kind, two flags and a body. Its short form takes two bytes before the body, its long form four:
//!
//! ```text
//! short: 0 non_critical forward kind(5)    length(8)   body
//! long:  1 non_critical forward kind(13)   length(16)  body
//! ```
//!
//! The layer above may rely on this: no encoding of an element is a prefix of another; a reader accepts both forms and
//! nothing else; a walk returns every element with its place, or the first that is cut off; the writer uses the short
//! form if it can hold the element, and reading returns the elements that were written. The readers allocate no memory.
//! Files begin with a magic, and their elements follow it ([`after_magic`]).
//!
//! There are two ways to define which elements a file may have: by a table, in any order ([`grammar`]), and in a fixed
//! order ([`order`]).
//!
//! ```text
//! let mut writer = Writer::new(alloc);
//! writer.put(0x01, false, false, b"abc")?;
//! writer.put_number(0x02, 1_700_000_000)?;
//! for item in Elements::new(writer.bytes()) {
//!     let Ok(at) = item else { break }; // at.place, at.element.kind, at.element.body
//! }
//! ```
#![tactic(auto)]

mod element;
pub mod grammar;
pub mod laws;
mod magic;
mod numbers;
pub mod order;
mod walk;
mod write;

pub use element::{Element, TlvFault, read_one};
pub use ksi_imprint::{NoMemory, Refused};
pub use magic::after_magic;
pub use numbers::{NumberFault, number};
pub use walk::{Elements, Placed};
pub use write::{PutRefusal, Writer};
