/// What is wrong with a line.
#[derive(Clone, Copy, Debug, PartialEq, Eq)]
pub enum LineFault {
    /// The line has none of the forms.
    Word,
    /// The word of a number is none.
    Number,
    /// The word of a digest is none.
    Hash,
    /// A core or an aggregator that the lines above do not have.
    NoSuchActor,
    /// A second that is not one of the plan's.
    SecondOutOfRange,
    /// An event more than a million.
    TooManyEvents,
    /// A line of the header is not there or not as it must be.
    Header,
    /// The word of a name is none.
    Name,
}

/// Why a text is no schedule.
#[derive(Clone, Copy, Debug, PartialEq, Eq)]
pub enum ScheduleFault {
    /// The first line with a fault, counted from 1.
    Line(LineFault, u64),
}
