/// What stays of a record.
#[derive(Clone, Copy)]
pub(crate) enum Stays {
    Whole,
    LastLine,
    Nothing,
}
