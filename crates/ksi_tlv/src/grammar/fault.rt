/// What is wrong with an element of a container. A malformed signature is reported by the code S1 to S14 and a
/// publications file by Q1 to Q9, as below; the values of a code are those of its variant. A place is the offset of the
/// element's first byte in the file.
#[derive(Clone, Copy, Debug, PartialEq, Eq)]
pub enum ElementFault {
    /// S1, Q2: the header or the body at this place passes the end of what holds it.
    Tlv(usize),
    /// S4, Q3: a kind that is refused by name, and its place.
    RefusedElement(u16, usize),
    /// S5, Q4: an unknown kind that may not be passed over, and its place.
    UnknownCritical(u16, usize),
    /// S6, Q5: the container at this place ends without an element of this kind.
    Missing(u16, usize),
    /// S7, Q6: one element too many of this kind, at this place.
    Repeated(u16, usize),
    /// S8, Q7: the body is no imprint of SHA-256.
    Imprint(usize),
    /// S9, Q8: the body is no number of at most 8 bytes, or a level correction is above 255.
    Number(usize),
    /// S10: the algorithm has this number, which is not that of SHA-256.
    Algorithm(u64),
    /// S11: the 64th link of a chain.
    Links(usize),
    /// S12: the 17th aggregation chain.
    Chains(usize),
    /// S13: a raw sibling of no bytes or of more than 4,096, a second sibling of a link, or a link without one.
    Sibling(usize),
    /// S14, Q9: a time that is not below 2^63.
    Time(usize),
}
