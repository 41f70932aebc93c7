use crate::bytes::Bytes;

/// Two different strings with one imprint. Each answer that has a clash says by `IsClash` of which hash function.
#[derive(Drop)]
pub struct Clash {
    pub one: Bytes,
    pub two: Bytes,
}
