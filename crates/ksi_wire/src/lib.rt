//! The lines that nodes read and print: the events of a core or of an aggregator, and the result of each step.
//!
//! A line is the words of an event, separated by single spaces. A message is printed as `send`, its addressee, and exactly
//! the line that the addressee takes. A response carries a signature file in hex.
//!
//! The layers above may rely on this. A line is accepted only if it is exactly the text of the event that it encodes, so
//! each event has one line ([`core_line`], [`aggregator_line`]). A line that is not accepted has one fault, the first from
//! the left. The printed line of each event that may come to a node is accepted again, by the law
//! [`printed_lines_are_taken`](laws::printed_lines_are_taken). The text of a step is its answer, whether a fact was stored,
//! and the lines of its messages ([`core_step_text`], [`round_step_text`]).
//!
//! ```text
//! let event = core_event(alloc, &plan, 0, b"seal 1700000000")?;
//! let step = core.take(event)?;
//! let text = core_step_text(alloc, 0, 1_700_000_000, &step)?; // answer done, stored, and a full stop
//! ```
#![tactic(auto)]

mod above;
mod answers;
mod chains;
mod core_lines;
mod cursor;
mod event;
mod fault;
pub mod laws;
mod limits;
mod parts;
mod printing;
mod questions;
mod round_lines;
mod sending;
mod telling;
mod votes;

pub use above::above_text;
pub use answers::put_answer;
pub use chains::chain_text;
pub use core_lines::core_event;
pub use event::AggregatorLine;
pub use fault::WireFault;
pub use limits::MOST_LINE;
pub use printing::{put_core_event, put_response, put_round_event};
pub use questions::{ChainEnds, CoreLine, Span, core_line};
pub use round_lines::aggregator_line;
pub use sending::{core_step_text, put_to, round_step_text};
pub use telling::held_text;
