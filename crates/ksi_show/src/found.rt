/// What a file was found to be.
#[derive(Clone, Copy)]
pub(crate) enum Found {
    /// A file of ours, which was shown.
    Ours,
    /// No file of ours.
    Foreign,
    /// It begins as a file of ours, and is none: its fault was shown.
    Malformed,
}
