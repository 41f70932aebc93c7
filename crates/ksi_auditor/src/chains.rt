// All chains of a signature.
ghost use Rattle.std.specs.Prelude.{◌≡◌, ◌≤◌, [], length, map, IfOk, OnErr};
ghost use Rattle.ksi_aggtree.specs.Links.{highest_level};
ghost use Rattle.ksi_aggtree.specs.Climbing.{level_after};
ghost use Rattle.ksi_beside.specs.Beside.{IsApart, IsShortWalk, laid_from, rungs_from};
ghost use Rattle.ksi_verifier.specs.Leading.{all_links};

use crate::laid::LaidChain;
use ksi_aggtree::chains::Node;
use ksi_beside::laws::one_after_another;
use ksi_beside::{KeptTree, Place, Walk};
use ksi_imprint::{Compress, NoMemory};
use std::alloc::Global;

/// Lays the links of all chains, which lead up from an item, beside a tree.
pub(crate) fn along_chains<C: Compress, K: KeptTree, T: LaidChain>(
    alloc: Global,
    tree: &K,
    below: &Node,
    chains: &[T],
) -> Result<Walk, NoMemory>
    requires { level_after below.now.level (all_links (map T.plain chains.now)) ≤ highest_level }
    ensures walk { IfOk result (λ walk. walk ≡
        laid_from (K.text tree.now) [] (rungs_from C.image below.now (all_links (map T.plain chains.now)))) }
    ensures short { IfOk result IsShortWalk }
    ensures memory { OnErr result (IsApart
        (laid_from (K.text tree.now) [] (rungs_from C.image below.now (all_links (map T.plain chains.now))))) }
{
    one_after_another();
    let (chain, higher) = match chains.split_first() {
        None => return Ok(Walk::At(Place::top())),
        Some(first) => first,
    };
    let top = chain.top::<C>(below);
    let walk = along_chains::<C, K, T>(alloc, tree, &top, higher)?;
    chain.along::<C, K>(alloc, tree, walk, below)
}

/// How many links the chains have.
pub(crate) fn count_of<T: LaidChain>(chains: &[T]) -> u64
    requires { length chains.now ≤ 16 }
    ensures { result ≡ length (all_links (map T.plain chains.now)) }
{
    let mut count = 0;
    'chains: for chain in chains {
        count += chain.count();
    }
    count
}
