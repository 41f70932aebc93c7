/// How many bytes a header has.
pub const HEADER: usize = 18;

/// The first bytes of a node file.
pub(crate) const MAGIC: [u8; 8] = *b"KSINODE1";

/// The owner of a file: a core, the number of cores of its plan, and the plan's first second.
#[derive(Clone, Copy, Debug, PartialEq, Eq)]
pub struct Header {
    pub core: u8,
    pub cores: u8,
    pub start: u64,
}

/// Why bytes have no header in front.
#[derive(Clone, Copy, Debug, PartialEq, Eq)]
pub enum HeaderFault {
    /// The magic or 18 bytes are not there.
    NotFormatted,
    /// The core is not below the cores, these are not 1 to 9, or the start is above 2^63 - 2^24.
    Bad(u8, u8, u64),
}
