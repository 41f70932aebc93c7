use ksi_imprint::Imprint;

/// What a core or an aggregator answers to an event.
#[derive(Clone, Copy, PartialEq, Eq, Debug)]
pub enum Answer {
    /// It was done.
    Done,
    /// The request was taken; this is its number.
    Number(u64),
    /// The root of the calendar to the second that was to be published.
    Published(Imprint),
    /// The second is sealed or closed: nothing more is taken for it.
    Late,
    /// An item of that aggregator is there already.
    Known,
    /// There are 65,536 items.
    Full,
    /// The second is not sealed.
    Unsealed,
    /// The second is sealed already.
    Sealed,
    /// The round is closed already.
    Closed,
    /// The first second that was wanted and that nothing is held for.
    Undecided(u64),
    /// The held root is not this core's candidate, or says that the second was missed.
    NotMine,
    /// The message changed nothing.
    Nothing,
    /// There is no next round of ballots.
    Last,
}
