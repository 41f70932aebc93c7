use ksi_schedule::read_number;

/// A node by its kind and number.
#[derive(Clone, Copy)]
pub(crate) enum Node {
    Core(u64),
    Aggregator(u64),
}

/// The node that a word names, as `c0` or `a1`.
pub(crate) fn node_of(word: &[u8]) -> Option<Node> {
    match word {
        [b'c', digits @ ..] => Some(Node::Core(read_number(digits)?)),
        [b'a', digits @ ..] => Some(Node::Aggregator(read_number(digits)?)),
        _ => None,
    }
}
