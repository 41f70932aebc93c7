/// Where the records of a file end, and how.
#[derive(Clone, Copy, Debug, PartialEq, Eq)]
pub enum Ending {
    /// At the place of a closed gate.
    Closed(u64),
    /// The file is broken: at the place where a gate is missing at its end, or at that of the gate of a record that is cut off.
    Broken(u64),
}
