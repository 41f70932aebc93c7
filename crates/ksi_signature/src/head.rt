//! What chains have beside their links, as one walk over their elements finds it.

/// Of an aggregation chain, all but the index and the links.
#[derive(Clone, Copy)]
pub(crate) struct Head<'a> {
    pub(crate) time: u64,
    /// How many parts the index has.
    pub(crate) parts: usize,
    /// The last of them.
    pub(crate) last: u64,
    pub(crate) input_body: Option<&'a [u8]>,
    pub(crate) input: &'a [u8],
}

/// Of a calendar chain, all but the links.
#[derive(Clone, Copy)]
pub(crate) struct CalendarHead<'a> {
    pub(crate) publication: u64,
    /// The aggregation time, where it is there.
    pub(crate) time: Option<u64>,
    pub(crate) input: &'a [u8],
}
