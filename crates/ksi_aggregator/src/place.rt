/// The place of a request's item.
#[derive(Clone, Copy)]
pub(crate) struct Place {
    pub second: u64,
    /// Which item of the round it is.
    pub place: usize,
}
