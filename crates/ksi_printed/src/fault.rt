/// Why a text is not that of a publication. The first of them that applies is reported.
#[derive(Clone, Copy)]
pub enum PrintFault {
    /// The text has this number of characters, not 135.
    Characters(usize),
    /// The check of this group fails, counted from 1.
    Group(usize),
    /// The check sum is not that of the groups.
    Sum,
    /// The first line is another one: its date is not that of the second.
    Date,
}
