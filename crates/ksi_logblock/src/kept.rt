ghost use Rattle.std.specs.Prelude.{◌<◌, length};

use crate::beneath::{parts_below, short_places};
use crate::block::Block;
use ksi_aggtree::NodeParts;
use ksi_beside::{KeptTree, Place};
use ksi_imprint::Compress;

/// The tree of a block that has lines.
#[derive(Drop)]
pub(crate) struct BlockTree<'b, 'a, C: Compress> {
    pub(crate) block: &'b Block<'a, C>,
    ghost some: { 0 < length block.now.lines },
}

impl<C: Compress> KeptTree for BlockTree<'_, '_, C> {
    ghost use Rattle.ksi_logblock.specs.Locating.{block_text};

    ghost text = { λ tree. block_text C.image tree.block.now };

    fn parts(&self, place: &Place) -> Option<NodeParts> {
        short_places();
        let count = self.block.count();
        parts_below(self.block, 0, count, place.way().as_slice())
    }
}
