/// Why bytes are no imprint.
#[derive(Clone, Copy, Debug, PartialEq, Eq)]
pub enum ImprintFault {
    /// The first byte, which is not that of SHA-256.
    Algorithm(u8),
    /// The number of bytes, which is not 33.
    Length(usize),
}

/// Why a text is no digest in hex.
#[derive(Clone, Copy, Debug, PartialEq, Eq)]
pub enum HexFault {
    /// The number of bytes, which is not 64.
    Length(usize),
    /// The place of the first byte that is no hex digit, counted from 0.
    Digit(usize),
}
