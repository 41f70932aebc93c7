/// The versions of the text, by its first line.
#[derive(Clone, Copy)]
pub(crate) enum Version {
    /// All cores vote on every second, and there are no names.
    One,
    /// Lines may say who votes, and names.
    Two,
}
