use ksi_imprint::Imprint;

/// A vote: the ballot it was cast in, and the decree it was cast for.
#[derive(Clone, Copy, PartialEq, Eq, Debug)]
pub struct Vote {
    pub ballot: u64,
    pub imprint: Imprint,
}

/// What answers a NextBallot: the ballot that is promised, and the vote that was cast so far.
#[derive(Clone, Copy, PartialEq, Eq, Debug)]
pub struct LastVote {
    pub ballot: u64,
    pub vote: Option<Vote>,
}

/// What cores say to each other on a second, in the order of the protocol.
#[derive(Clone, Copy, PartialEq, Eq, Debug)]
pub enum SynodMessage {
    /// The sender tries this ballot.
    NextBallot(u64),
    /// The sender promises the ballot, and tells the vote that it cast so far.
    LastVote(LastVote),
    /// The sender asks for votes for this decree in its ballot.
    BeginBallot(u64, Imprint),
    /// The sender voted in this ballot.
    Voted(u64),
    /// A majority voted for this decree.
    Success(Imprint),
}

/// What came of trying a ballot.
#[derive(Clone, Copy, PartialEq, Eq, Debug)]
pub enum Begun {
    /// No candidate is set.
    Unsealed,
    /// No round is left.
    Last,
    /// The ballot that is tried.
    Next(u64),
}

/// What came of a LastVote or a Voted.
#[derive(Clone, Copy, PartialEq, Eq, Debug)]
pub enum Took {
    /// It does not count.
    Nothing,
    /// The sender counts.
    Added,
    /// The sender counts and completes the majority: the decree to begin, or the one that is decided.
    Decree(Imprint),
}
