use ksi_imprint::Imprint;

/// What a publication record has that differs from the calendar chain.
#[derive(Clone, Copy, PartialEq, Eq, Debug)]
pub enum RecordDifference {
    /// Another time than the publication time.
    Time { record: u64, publication: u64 },
    /// The publication time, and another hash than the root.
    Hash { record: Imprint, computed: Imprint },
}
