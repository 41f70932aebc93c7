//! Publications as text for a newspaper: the date, the second and the root in groups with check characters, and a check sum.
//!
//! The layer above may rely on this: [`print`] gives exactly the text of a second and a root. [`read`] returns that second and
//! root if a text is such a text, up to case, spaces and line breaks, and else the first fault, as the definition `reading`
//! says. A changed character in a group and two exchanged ones are noticed by the group's check, and a changed group and two
//! exchanged ones by the sum ([`laws`]).
//!
//! ```text
//! let text = print(alloc, second, &root)?;
//! let (second, root) = read(alloc, text.as_slice())?;
//! ```
#![tactic(auto)]

mod fault;
mod group;
pub mod laws;
mod numbers;
mod printer;
mod reader;

pub use fault::PrintFault;
pub use ksi_imprint::{NoMemory, Refused};
pub use printer::print;
pub use reader::read;
