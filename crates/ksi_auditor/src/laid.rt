ghost use Rattle.std.specs.Prelude.{◌≡◌, ◌≤◌, length, IfOk, OnErr};
ghost use Rattle.ksi_aggtree.specs.Links.{highest_level};
ghost use Rattle.ksi_aggtree.specs.Climbing.{level_after};
ghost use Rattle.ksi_beside.specs.Beside.{IsApart, IsShortWalk, laid_on, rungs_from};
ghost use Rattle.ksi_verifier.specs.Chains.{PlainChain, plain_chain};
ghost use Rattle.ksi_verifier.specs.Lent.{lent_chain};
ghost use Rattle.ksi_auditor.specs.Climbed.{climbed_to};

use crate::links::are_link_list;
use crate::reached::top_of;
use ksi_aggtree::chains::{Link, LinkView, Node};
use ksi_beside::{KeptTree, Walk, along_links};
use ksi_imprint::{Compress, NoMemory};
use ksi_signature::{AggregationChain, ChainView};
use std::alloc::Global;

/// An aggregation chain that is laid beside a tree, whoever owns its parts.
pub(crate) trait LaidChain {
    /// The chain's time, index, input hash and links.
    ghost plain: { Self → PlainChain };

    /// The item that the links lead to, where no level passes 255.
    fn top<C: Compress>(&self, below: &Node) -> Node
        requires { level_after below.now.level (plain self.now).links ≤ highest_level }
        ensures { result ≡ climbed_to C.image below.now (plain self.now).links };

    /// Lays the links beside a tree, below links that ended so.
    ///
    /// # Errors
    /// `NoMemory` only where these links would come to a clash.
    fn along<C: Compress, K: KeptTree>(
        &self,
        alloc: Global,
        tree: &K,
        start: Walk,
        below: &Node,
    ) -> Result<Walk, NoMemory>
        requires levels { level_after below.now.level (plain self.now).links ≤ highest_level }
        requires start { IsShortWalk start }
        ensures walk { IfOk result (λ walk. walk ≡
            laid_on (K.text tree.now) start (rungs_from C.image below.now (plain self.now).links)) }
        ensures short { IfOk result IsShortWalk }
        ensures memory { OnErr result (IsApart
            (laid_on (K.text tree.now) start (rungs_from C.image below.now (plain self.now).links))) };

    /// How many links there are.
    fn count(&self) -> u64
        ensures count { result ≡ length (plain self.now).links }
        ensures few { result ≤ 63 };
}

impl LaidChain for AggregationChain {
    ghost plain = { plain_chain };

    fn top<C: Compress>(&self, below: &Node) -> Node {
        top_of::<C, Link>(below, self.links.as_slice())
    }

    fn along<C: Compress, K: KeptTree>(
        &self,
        alloc: Global,
        tree: &K,
        start: Walk,
        below: &Node,
    ) -> Result<Walk, NoMemory> {
        let links = self.links.as_slice();
        are_link_list(links);
        along_links::<C, K, Link>(alloc, tree, start, below, links)
    }

    fn count(&self) -> u64 {
        self.links.as_slice().len() as u64
    }
}

impl LaidChain for ChainView<'_> {
    ghost plain = { lent_chain };

    fn top<C: Compress>(&self, below: &Node) -> Node {
        top_of::<C, LinkView<'_>>(below, self.links().as_slice())
    }

    fn along<C: Compress, K: KeptTree>(
        &self,
        alloc: Global,
        tree: &K,
        start: Walk,
        below: &Node,
    ) -> Result<Walk, NoMemory> {
        let links = self.links();
        along_links::<C, K, LinkView<'_>>(alloc, tree, start, below, links.as_slice())
    }

    fn count(&self) -> u64 {
        self.links().as_slice().len() as u64
    }
}
