/// Who takes part.
#[derive(Clone, Copy, PartialEq, Eq, Debug)]
pub enum Actor {
    /// The core of this number.
    Core(u8),
    /// The aggregator of this number.
    Aggregator(u32),
}
