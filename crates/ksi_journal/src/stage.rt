/// Where in a journal the elements so far end.
#[derive(Clone, Copy)]
pub enum Stage {
    /// Before the start.
    Start,
    /// Behind the start or voters.
    Voters,
    /// Behind a whole second.
    Seconds,
    /// In a second whose items come.
    Items,
    /// Behind an issued signature.
    Issued,
    /// Behind a publication.
    Publications,
    /// Behind the end.
    End,
}
