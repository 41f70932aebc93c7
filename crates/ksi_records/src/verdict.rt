//! What comes of a comparison.
use crate::blocks::Place;
use crate::fault::RecordFault;
use crate::version::Version;

/// How many entries there were of a record that agrees.
#[derive(Clone, Copy)]
pub struct Counts {
    /// The form of the record. Of version 1 the lines that came were not compared.
    pub version: Version,
    /// Steps, whether or not they were said.
    pub steps: usize,
    /// Steps that happened and whose reply was lost.
    pub unsaid: u64,
    /// Signatures that were handed out.
    pub signatures: u64,
}

/// What came of the comparison.
#[derive(Clone, Copy)]
pub enum Retraced {
    /// Each block is what the world says at its place, and in version 2 each line that came is the message's.
    Agrees(Counts),
    /// This entry is the first whose block, or whose line that came, is another.
    Differs(Place),
    /// This entry is none.
    Refused(RecordFault, Place),
}
