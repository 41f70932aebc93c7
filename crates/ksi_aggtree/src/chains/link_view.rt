use ksi_split::Side;

/// A link of an aggregation chain, with its sibling lent from the bytes that it was read from.
#[derive(Clone, Copy)]
pub struct LinkView<'a> {
    /// Which part of its join a node is that is climbed from: a left link has it on the left.
    pub side: Side,
    /// How many levels more than one the link goes up.
    pub correction: u8,
    /// The other part: the 33 bytes of an imprint, or raw bytes.
    pub sibling: &'a [u8],
    /// Whether these are raw bytes, of a name in the old form or of metadata.
    pub raw: bool,
}
