//! The log of one node of a live run, compared with the node's own run, without any other node. Memory is that of the node.
mod entry;
mod fault;
mod head;
mod reading;
mod reporting;
mod runs;
mod steps;
mod stream;
mod verdict;

pub use fault::LogFault;
pub use reporting::report;
pub use stream::retrace;
pub use verdict::Verdict;
