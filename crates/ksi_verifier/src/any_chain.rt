ghost use Rattle.std.specs.Prelude.{◌≡◌};
ghost use Rattle.ksi_aggtree.specs.Climbing.{climbed};
ghost use Rattle.ksi_aggtree.specs.Links.{first_bare};
ghost use Rattle.ksi_signature.specs.Heads.{last_part};
ghost use Rattle.ksi_verifier.specs.Chains.{PlainChain, plain_chain, chain_shape, without_last};
ghost use Rattle.ksi_verifier.specs.ChainChecks.{same_parts};

use crate::index::compare_parts;
use crate::refusal::Refusal;
use ksi_aggtree::chains::{LevelFault, Link, Node, climb, find_bare, shape};
use ksi_imprint::{Compress, Imprint};
use ksi_signature::AggregationChain;

/// An aggregation chain as checks and audits see it, whoever owns its parts.
pub trait AnyChain {
    /// The chain's time, index, input hash and links.
    ghost plain: { Self → PlainChain };

    /// The second that it states.
    fn time(&self) -> u64
        ensures { result ≡ (plain self.now).time };

    /// The input hash.
    fn input(&self) -> Imprint
        ensures { result ≡ (plain self.now).input };

    /// The last part of its index.
    fn last_part(&self) -> u64
        ensures { result ≡ last_part (plain self.now).index };

    /// The shape of its links.
    fn shape(&self) -> u64
        ensures { result ≡ chain_shape (plain self.now) };

    /// Compares the index without its last part with that of the chain above, this one being chain `k`.
    ///
    /// # Errors
    /// `IndexOrder` with the first place where they differ.
    fn compare_index(&self, k: u64, higher: &Self) -> Result<(), Refusal>
        ensures { result ≡ same_parts k 0 (without_last (plain self.now).index) (plain higher.now).index };

    /// The node that the links lead to from a node.
    ///
    /// # Errors
    /// `Over` with the first link whose level passes 255.
    fn climb<C: Compress>(&self, start: Node) -> Result<Node, LevelFault>
        ensures { result ≡ climbed C.image 0 start (plain self.now).links };

    /// The first right link whose raw sibling begins as an imprint does.
    fn bare_link(&self) -> Option<usize>
        ensures { result ≡ first_bare 0 (plain self.now).links };
}

impl AnyChain for AggregationChain {
    ghost plain = { plain_chain };

    fn time(&self) -> u64 {
        self.time
    }

    fn input(&self) -> Imprint {
        self.input
    }

    fn last_part(&self) -> u64 {
        let parts = self.index.as_slice();
        parts[parts.len() - 1]
    }

    fn shape(&self) -> u64 {
        shape(self.links.as_slice())
    }

    fn compare_index(&self, k: u64, higher: &Self) -> Result<(), Refusal> {
        let parts = self.index.as_slice();
        compare_parts(k, &parts[..parts.len() - 1], higher.index.as_slice())
    }

    fn climb<C: Compress>(&self, start: Node) -> Result<Node, LevelFault> {
        climb::<C, Link>(start.imprint, start.level, self.links.as_slice())
    }

    fn bare_link(&self) -> Option<usize> {
        find_bare::<Link>(self.links.as_slice())
    }
}
