use ksi_imprint::Imprint;

/// The highest level that a node may have.
pub const HIGHEST_LEVEL: u8 = 255;

/// A node of an aggregation: its imprint and its level.
#[derive(Clone, Copy, PartialEq, Eq, Debug)]
pub struct Node {
    pub imprint: Imprint,
    pub level: u8,
}
