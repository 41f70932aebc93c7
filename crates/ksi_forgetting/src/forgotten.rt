use ksi_nodestore::OpenRefusal;

/// The result of a compaction: the old disk, the second before which all are forgotten, the number of records in the old file, and
/// that in the new file.
#[derive(Drop)]
pub struct Forgotten<D> {
    pub disk: D,
    pub horizon: u64,
    pub records: u64,
    pub left: u64,
}

/// Why a file was not compacted.
#[derive(Clone, Copy)]
pub enum ForgetRefusal {
    /// The old file was not opened.
    Old(OpenRefusal),
    /// The new disk failed, and its count of faults rose. Its content is not specified.
    New,
}
