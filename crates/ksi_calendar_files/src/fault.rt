/// Why bytes are no calendar file. A malformed file is reported by the codes K1 to K4 with the values of the variant.
#[derive(Clone, Copy, Debug, PartialEq, Eq)]
pub enum FileFault {
    /// K1: the first eight bytes are others, or fewer.
    Magic,
    /// K2: the number of bytes is another than the head and the count say: how many are needed, and how many there are.
    Size { needed: usize, given: usize },
    /// K3: no imprint of SHA-256 at this place.
    Imprint(usize),
    /// K4: the number at this place is out of its bounds.
    Bound(usize),
}
