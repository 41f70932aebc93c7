use crate::Counts;

/// What a node file says: whose it is, and what there is in it.
#[derive(Clone, Copy, Debug, PartialEq, Eq)]
pub struct Inspected {
    pub core: u8,
    pub counts: Counts,
}

/// What is wrong with a node file.
#[derive(Clone, Copy, Debug, PartialEq, Eq)]
pub enum NodeFault {
    /// The magic or 18 bytes are not there.
    NotFormatted,
    /// The file is broken: the place of the gate of a record that is no lawful fact's or is cut off, or where a gate is missing.
    Malformed(u64),
    /// The core, the number of cores or the start of the header is out of its bounds.
    Bad(u8, u8, u64),
}
