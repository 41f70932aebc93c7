//! An aggregator, as a state machine. For each second it collects requests and the items of lower aggregators in a round.
//! When it closes the round, it submits the item of the round's tree to its parent. It forwards each response with the
//! chain of the lower aggregator's item, and issues the signatures of its requests.
//!
//! A [`Step`] has a call's [`Answer`](ksi_signature::Answer), the [`Fact`] to store, if any, and the messages to send. The
//! layers above may rely on this. Each call is its row of the step table of docs/PROTOCOL.md for the second that it is
//! given, and no other second changes. After `NoMemory` nothing has changed. A restart loses the open rounds and keeps the
//! closed ones with their first response. The issued signature is that of the request's item.
//!
//! [`laws`] has the laws on lists of facts: the facts that an aggregator's steps store are always valid, and an aggregator
//! rebuilt from them is the aggregator after a restart.
//!
//! ```text
//! let mut aggregator = Aggregator::<Sha>::new(alloc, 0);
//! aggregator.request(0, second, imprint, None)?;
//! let closed = aggregator.close(second)?; // sends the submission to the parent
//! aggregator.response(second, &above)?;
//! let bytes = aggregator.issued(0)?;
//! ```
#![tactic(auto)]

mod aggregator;
mod copies;
mod event;
mod fact;
pub mod laws;
mod place;
mod responses;
mod round;
mod rounds;
mod step;

pub use aggregator::Aggregator;
pub use event::RoundEvent;
pub use fact::{ClosedItems, Fact, RoundFact};
pub use ksi_imprint::NoMemory;
pub use step::{Send, Step};
