/// How often messages are delivered.
#[derive(Clone, Copy, PartialEq, Eq)]
pub(crate) enum Manner {
    /// Each once.
    Once,
    /// Each as often as a draw says: not at all, twice, or once.
    Drawn,
}
