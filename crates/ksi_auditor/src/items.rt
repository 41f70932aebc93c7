ghost use Rattle.ksi_aggtree.specs.Rounds.{IsRound};

use crate::deep::deep_places;
use ksi_aggtree::{Item, NodeParts, Tree};
use ksi_beside::{KeptTree, Place};
use ksi_imprint::Compress;
use std::marker::PhantomData;

/// The kept items of a second, which make a round.
#[derive(Drop)]
pub(crate) struct ItemsOf<'a, C: Compress> {
    pub(crate) items: &'a [Item],
    pub(crate) hash: PhantomData<C>,
    ghost round: { IsRound items.now },
}

impl<C: Compress> KeptTree for ItemsOf<'_, C> {
    ghost use Rattle.ksi_aggtree.specs.Nodes.{text_of};

    ghost text = { λ kept. text_of C.image kept.items.now };

    fn parts(&self, place: &Place) -> Option<NodeParts> {
        deep_places();
        if place.depth() >= 63 {
            return None;
        }
        let tree = Tree::<C>::over(self.items)?;
        tree.parts(place.way().as_slice())
    }
}
