/// Why bytes are no front. A malformed file is reported by the codes C1 to C5 with the place of the variant: the offset of
/// an element's first byte in the file.
#[derive(Clone, Copy, PartialEq, Eq)]
pub enum FrontFault {
    /// C1: the first eight bytes are others, or fewer.
    Magic,
    /// C2: the header or the body at this place passes the end of what holds it.
    Tlv(usize),
    /// C3: an element of a kind that may not stand there, or the file's end where a further element must stand.
    Order(usize),
    /// C4: no imprint of SHA-256.
    Imprint(usize),
    /// C5: a number of more than 8 bytes, a time that is not below 2^63, or a newer one that is before the older.
    Number(usize),
}
