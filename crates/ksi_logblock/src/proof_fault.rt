/// What is wrong with a proof file. A place is the offset of an element's first byte in the file.
#[derive(Clone, Copy, PartialEq, Eq)]
pub enum ProofFault {
    /// G1: the first eight bytes are others, or there are fewer.
    Magic,
    /// G2: the header or the body at this place passes the end of what holds it.
    Tlv(usize),
    /// G3: an element of a kind that is not allowed there, or the end of the file or of a link where one is missing.
    Order(usize),
    /// G4: no imprint of SHA-256.
    Imprint(usize),
    /// G5: a correction of more than 8 bytes, or above 255.
    Number(usize),
    /// G6: the 64th link.
    Links(usize),
}
