//! Lines and blocks: records of runs and logs of nodes are read by them alike.
//!
//! A line has no line feed, and is followed by one in a text. A block is lines, of which the last alone is a full stop.
//! The modules above may rely on this: [`next_line`] and [`read_block`] take from a reader just the next line or block, or
//! report what is there in its place, and one text begins with at most one of each. A [`Place`] counts entries
//! and lines.
mod lines;
mod place;
mod printing;

pub(crate) use lines::{Came, next_line, read_block};
pub use place::Place;
pub(crate) use printing::{put_node, put_number, put_place};
