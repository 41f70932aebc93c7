/// Why a signature was not written.
#[derive(Clone, Copy, Debug, PartialEq, Eq)]
pub enum WriteRefusal {
    /// The body of an element has this many bytes, above 65,535. It is the first such in the order of writing, an inner
    /// element before the one that it stands in.
    TooLong(u64),
}
