/// Which fact a record has, by its last line: the closing of a second's round, or its response.
#[derive(Clone, Copy)]
pub(crate) enum Kind {
    Closed(u64),
    Answered(u64),
    Other,
}
