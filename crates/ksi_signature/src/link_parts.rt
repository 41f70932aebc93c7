//! What a link of an aggregation chain is, as one walk over its elements finds it.

/// All of a link but its side.
#[derive(Clone, Copy)]
pub(crate) struct LinkParts<'a> {
    pub(crate) correction: u8,
    pub(crate) sibling: SiblingView<'a>,
}

/// A sibling, lent: the 33 bytes of an imprint, or raw bytes.
#[derive(Clone, Copy)]
pub enum SiblingView<'a> {
    Imprint(&'a [u8]),
    /// A name in the old form.
    Legacy(&'a [u8]),
    Metadata(&'a [u8]),
}
