//! Texts in words and dates, of signatures and of publications files, and the printer of any other row of words.
//!
//! A row is words separated by single spaces, and a line feed. Text that anyone may have chosen is quoted, as printable
//! ASCII. A second of Unix time is printed with its date. The layers above may rely on this: [`put`] appends exactly the
//! texts of its words to a text; [`put_signature_of`] appends the text of the signature that bytes are, or returns their
//! first fault; and [`put_publications_of`] does so for a publications file. Dates are those
//! of `ksi_dates`.
//!
//! ```text
//! let mut text = Vec::new(alloc);
//! match put_signature_of(&mut text, bytes)? {
//!     None => out.put(text.as_slice())?,
//!     Some(fault) => put(&mut text, &[Word::Text("no signature at"), Word::Second(now)])?,
//! }
//! ```
#![tactic(auto)]

mod calendar;
mod chains;
mod dates;
mod names;
mod printing;
mod publications;
mod quoting;
mod signature;
mod word;

pub use names::name_in;
pub use printing::{paste, push_word, put};
pub use publications::{put_pairs, put_publications, put_publications_of};
pub use signature::{put_signature, put_signature_of};
pub use word::Word;
