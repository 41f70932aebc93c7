//! What comes of a comparison.
use crate::blocks::Place;
use crate::node::fault::LogFault;

/// What came of the comparison of a log.
#[derive(Clone, Copy)]
pub enum Verdict {
    /// Each block is the node's own at its place. The number of entries.
    Agrees(u64),
    /// The block of this entry is another, the first that is.
    Differs(Place),
    /// This entry is none.
    Refused(LogFault, Place),
}
