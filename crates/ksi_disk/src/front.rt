// What stands at one place of a file of records.
use crate::Ending;
use ksi_imprint::Bytes;

/// What stands at a gate's place.
#[derive(Drop)]
pub(crate) enum Front {
    /// A closed gate.
    Closed,
    /// The end of the file, or an open gate whose record is cut off.
    Broken,
    /// The content behind an open gate.
    Whole(Bytes),
}

/// A step of the reading.
#[derive(Clone, Copy)]
pub(crate) enum Step {
    /// To the place of the next gate.
    Next(u64),
    /// To the end.
    End(Ending),
}
