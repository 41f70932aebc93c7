use ksi_imprint::Imprint;
use ksi_split::Side;

/// A link of a signature with the node below it and the join of both, as it can be drawn.
#[derive(Clone, Copy)]
pub struct Step<'a> {
    /// Whether the link is of the calendar chain.
    pub calendar: bool,
    /// Which aggregation chain it is of, the lowest being 0; 0 of the calendar chain.
    pub chain: usize,
    /// Its place in the chain, the lowest being 0.
    pub place: usize,
    /// Which part of the join the node is.
    pub side: Side,
    /// The level that is hashed behind both parts.
    pub level: u8,
    pub node: Imprint,
    /// The other part: the 33 bytes of an imprint, or raw bytes.
    pub sibling: &'a [u8],
    /// Whether these are raw bytes, of a name in the old form or of metadata.
    pub raw: bool,
    pub join: Imprint,
}
