use crate::{Disk, GateLog, Records};

/// A log that was opened, and the contents of its records.
#[derive(Drop)]
pub struct Opened<D: Disk> {
    pub log: GateLog<D>,
    pub records: Records,
}

/// Why a log was not opened.
#[derive(Clone, Copy, Debug, PartialEq, Eq)]
pub enum OpenRefusal {
    /// The disk failed, and its count of faults rose.
    Failed,
    /// Memory ran out.
    NoMemory,
    /// The file is broken: at the place where a gate is missing, or at that of the gate of a record that is cut off.
    Broken(u64),
}
