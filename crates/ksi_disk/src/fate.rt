/// What becomes of the writes since the last sync in a crash.
#[derive(Clone, Copy, Debug, PartialEq, Eq)]
pub enum Fate {
    /// Nothing of them is left.
    Lost,
    /// They are left whole.
    Whole,
    /// This many bytes at the beginning of each piece are left.
    Front(usize),
    /// Each byte of them is this one.
    Filled(u8),
}
