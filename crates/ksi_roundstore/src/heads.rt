/// How many bytes a header has.
pub const HEADER: usize = 20;

/// The first bytes of an aggregator's file.
pub(crate) const MAGIC: [u8; 8] = *b"KSIROUN1";

/// Whose file it is: an aggregator's, and the first second of its plan.
#[derive(Clone, Copy)]
pub struct Header {
    pub aggregator: u32,
    pub start: u64,
}
