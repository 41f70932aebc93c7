use ksi_calendar::CalendarLink;
use ksi_imprint::Imprint;

/// A calendar chain whose links are lent.
#[derive(Clone, Copy)]
pub struct CalendarPart<'a> {
    /// The last second of the tree that the links lead to the root of.
    pub publication: u64,
    /// The second that the links lead from.
    pub time: u64,
    /// What is stated as the root of that second.
    pub input: Imprint,
    /// The lowest first.
    pub links: &'a [CalendarLink],
}

/// What a publication record states.
#[derive(Clone, Copy)]
pub struct RecordPart {
    /// The published second.
    pub time: u64,
    /// The published root of the calendar tree to that second.
    pub hash: Imprint,
}
