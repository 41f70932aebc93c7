/// How many messages were sent, and how many requests were accepted, up to a moment.
#[derive(Clone, Copy)]
pub(crate) struct Mark {
    pub(crate) messages: usize,
    pub(crate) requests: usize,
}
