use crate::items::Items;
use ksi_imprint::Imprint;

/// A kept second: the root that was decided for it, and the items of its tree, none where the root is the zero imprint.
#[derive(Drop)]
pub struct Second {
    pub second: u64,
    pub root: Imprint,
    pub items: Items,
}
