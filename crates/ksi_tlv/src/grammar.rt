//! Containers of TLV elements, each by a table: which kinds may stand in it and how often, what they hold, and which
//! fault comes first where bytes are none. The containers of signatures and of publications files are such tables.
//!
//! The layer above may rely on this: [`check`] accepts a body exactly where it is all elements that may stand there, in
//! whatever order, and else gives the first fault in reading order, going into each element before the next one. What
//! an accepted container holds is then found without a fault, and elements that may stand there are accepted as they
//! are written. Only what is written takes memory.
//!
//! ```text
//! impl Grammar for RecordContent { .. } // rules, refused kinds, contents, what is missing at the end
//! check::<RecordContent>(at.place, at.inside, at.element.body)?;
//! if let Some(data) = first_inside::<RecordContent>(&at, 0x10) {
//!     let (time, hash) = published(&data);
//! }
//! ```
mod content;
mod fault;
mod finder;
pub mod laws;
mod publication;
mod reader;
mod record;
mod rule;
mod table;

pub use content::{algorithm, imprint, level, number, raw, time};
pub use fault::ElementFault;
pub use finder::first_inside;
pub use ksi_imprint::NoMemory;
pub use publication::{PublishedContent, published, put_short, written_published};
pub use reader::check;
pub use record::{RecordContent, recorded, written_record};
pub use rule::{Over, Rule, Seen};
pub use table::{Grammar, missing};
