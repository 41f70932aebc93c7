use ksi_imprint::Imprint;

/// Why no audit is made over the items of a second.
#[derive(Clone, Copy, Debug, PartialEq, Eq)]
pub enum AuditRefusal {
    /// The signature is of this other second.
    OtherSecond(u64),
    /// There are no items of this second.
    NoItems(u64),
    /// The items of this second have another root than the calendar.
    OtherItems {
        second: u64,
        root: Imprint,
        given: Imprint,
    },
}
