//! Signatures of Keyless Signatures' Infrastructure (Buldas, Kroonmaa, Laanoja, "Keyless Signatures' Infrastructure",
//! 2013): aggregation chains from a document's hash to the root of a second, a calendar chain from there to the root of a
//! calendar tree, and a record of where that root was published. A file is one TLV element with these inside, in any
//! order: Guardtime's published format, described in docs/FORMATS.md.
//!
//! The layer above may rely on this: [`view`] borrows exactly the signature that the bytes encode, or returns the first
//! fault in reading order, and allocates no memory; [`read`] copies that view, and [`check`] returns whether there is one.
//! All bytes have either a signature or a fault, not both. Chains are ordered by falling number of index parts. The types
//! and the calls of a view keep the format's limits: 1 to 16 chains, an index of 1 part or more, at most 63 links, raw
//! siblings of 1 to 4,096 bytes, and times below 2^63. [`write`] returns the text of the signature, and reading the text
//! returns the signature ([`laws::written_is_signature`]); it refuses the first body, in the order of writing and an inner
//! one before an outer, that has more than 65,535 bytes.
//!
//! [`with_calendar`] replaces the calendar chain and the publication record of a signature and copies the rest byte for
//! byte. [`issue`] returns the bytes of the signature of an item, from the links of its round and an [`Above`]. The results
//! are exactly `extended_text` and `issued`, and each is read again as that signature.
//!
//! ```text
//! let signature = read(alloc, bytes)?;
//! if let [first, ..] = signature.chains.as_slice() {
//!     // the next chain continues from this node, at its level
//!     let top = climb::<Sha, Link>(first.input, 0, first.links.as_slice())?;
//! }
//! let proved = signature.calendar.as_ref().map(|chain| climb_calendar::<Sha>(chain.input, chain.links.as_slice()));
//! let text = write(alloc, &signature)?; // the same signature, in the order of the format
//! ```
#![tactic(auto)]

mod above;
mod answer;
mod arrays;
mod bodies;
mod body_views;
mod calendar_climbing;
mod calendar_link_views;
mod calendar_view;
mod calendar_walking;
mod carried;
mod chain_list;
mod chain_view;
mod checker;
mod containers;
mod contents;
mod copies;
mod extension;
mod fault;
mod gathering;
mod head;
mod index_parts;
mod issuing;
mod kinds;
pub mod laws;
mod lengths;
mod link_parts;
mod link_views;
mod link_walking;
mod links;
mod lists;
mod reader;
mod record_view;
mod refusal;
mod renewal;
mod sends;
mod signature;
mod signature_view;
mod viewer;
mod walking;
mod within;
mod writer;

pub use above::{Above, AboveChain, AboveChains, AboveLinks};
pub use answer::Answer;
pub use body_views::BodyViews;
pub use calendar_link_views::CalendarLinkViews;
pub use calendar_view::CalendarView;
pub use chain_view::ChainView;
pub use checker::check;
pub use containers::{CalendarContent, ChainContent, LinkContent, SignatureContent};
pub use extension::{WithRefusal, with_calendar};
pub use fault::SignatureFault;
pub use index_parts::IndexParts;
pub use issuing::issue;
pub use ksi_imprint::{NoMemory, Refused};
pub use link_parts::SiblingView;
pub use link_views::LinkViews;
pub use lists::{Bodies, CalendarLinks, Chains, Index, Links};
pub use reader::read;
pub use record_view::RecordView;
pub use refusal::WriteRefusal;
pub use sends::Sends;
pub use signature::{AggregationChain, CalendarChain, PublicationRecord, Signature};
pub use signature_view::SignatureView;
pub use viewer::view;
pub use writer::write;
