use ksi_imprint::Imprint;

/// What an accepted signature proves, and the publication that this rests on.
#[derive(Clone, Copy, PartialEq, Eq, Debug)]
pub struct Proved {
    /// The second that the sides of the calendar chain name.
    pub second: u64,
    /// The last second of the calendar that was published.
    pub publication: u64,
    /// The published root of that calendar.
    pub root: Imprint,
}
