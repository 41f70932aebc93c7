ghost use Rattle.std.specs.Prelude.{◌≡◌};
ghost use Rattle.ksi_verifier.specs.Lent.{lent_chain};

use crate::any_chain::AnyChain;
use crate::index::compare_lent;
use crate::refusal::Refusal;
use ksi_aggtree::chains::{LevelFault, Node};
use ksi_imprint::{Compress, Imprint};
use ksi_signature::ChainView;

impl AnyChain for ChainView<'_> {
    ghost plain = { lent_chain };

    fn time(&self) -> u64 {
        self.time()
    }

    fn input(&self) -> Imprint {
        self.input()
    }

    fn last_part(&self) -> u64 {
        self.last_part()
    }

    fn shape(&self) -> u64 {
        self.shape()
    }

    fn compare_index(&self, k: u64, higher: &Self) -> Result<(), Refusal> {
        compare_lent(k, self.parts(), self.index(), higher.index())
    }

    fn climb<C: Compress>(&self, start: Node) -> Result<Node, LevelFault> {
        self.climb::<C>(start)
    }

    fn bare_link(&self) -> Option<usize> {
        self.bare_link()
    }
}
