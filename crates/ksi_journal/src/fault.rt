use ksi_imprint::Imprint;

/// Why bytes are no journal. A malformed file is reported by the codes J1 to J10 with the values of the variant. A place
/// is the offset of an element's first byte in the file.
#[derive(Clone, Copy)]
pub enum JournalFault {
    /// J1: the first eight bytes are others, or fewer.
    Magic,
    /// J2: the header or the body at this place passes the end of what holds it.
    Tlv(usize),
    /// J3: an element of a kind that is not allowed there; a second, kept or of voters, that is before the start or does
    /// not rise; a number or time that does not rise. In version 1 voters and items with a name may stand nowhere.
    Order(usize),
    /// J4: the tree of a second's items has another imprint than its root: the second, the root, and that imprint.
    TreeRoot(u64, Imprint, Imprint),
    /// J5: a number of more than 8 bytes, a time that is not below 2^63, an item's level above 239, with a name above 238,
    /// or a signature of more than 60,000 bytes.
    Bound(usize),
    /// J6: no imprint of SHA-256, or an item of other than 34 bytes, with a name of fewer.
    Imprint(usize),
    /// J7: a second whose root is the zero imprint and that has items, or whose root is another and that has none or
    /// more than 65,536.
    Count(u64),
    /// J8: the file or an element ends before a further element that is required, the end has content, or bytes follow it.
    Ends(usize),
    /// J9: the part after the 34 bytes of an item is no name.
    Name(usize),
    /// J10: the bits of voters are 0, or some of them is that of no core from 0 to 8.
    Voters(usize),
}
