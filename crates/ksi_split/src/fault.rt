/// Why sides from the top are the way to no second.
#[derive(Clone, Copy, PartialEq, Eq, Debug)]
pub enum ShapeFault {
    /// A second is reached before the side at this place, the first one's place being 0.
    TooMany(usize),
    /// The sides end at a part with this many seconds more than one.
    TooFew(u64),
}
