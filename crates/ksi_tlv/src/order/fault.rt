/// What is wrong with elements in a stated order. A place is the offset of an element's first byte in the file.
#[derive(Clone, Copy, Debug, PartialEq, Eq)]
pub enum OrderFault {
    /// The header or the body at this place passes the end of what holds it.
    Tlv(usize),
    /// An element of a kind that is not allowed there, or a value that does not rise.
    Order(usize),
    /// A further element must stand there, or none may.
    Ends(usize),
    /// A number of more than 8 bytes, or a value that is too great.
    Bound(usize),
    /// No imprint of SHA-256.
    Imprint(usize),
}
