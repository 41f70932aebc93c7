use ksi_aggtree::Items;

/// The items that a core sealed for a second, of which there is one at least.
#[derive(Drop)]
pub struct SealedList {
    pub second: u64,
    pub core: u8,
    pub items: Items,
}
