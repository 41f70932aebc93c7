// The checks of aggregation chains, in their order. Refusals are handed on by `match`, since the prover has no proof for
// `?` here.
ghost use Rattle.std.specs.Prelude.{◌≡◌, ◌<◌, length, map};
ghost use Rattle.ksi_verifier.specs.Chains.{first_chain, higher_chains};
ghost use Rattle.ksi_verifier.specs.ChainChecks.{chains_checked, index_order, index_shapes, joined_chains, same_times, no_bare_links, top_of};
ghost use Rattle.ksi_verifier.specs.Folding.{or_break};

use crate::aggregated::Aggregated;
use crate::any_chain::AnyChain;
use crate::refusal::Refusal;
use ksi_aggtree::chains::{LevelFault, Node};
use ksi_imprint::{Compress, Imprint};

/// V2 to V6 and V15: the time of the chains and the node that they lead to.
pub(crate) fn check_chains<C: Compress, T: AnyChain>(chains: &[T]) -> Result<Aggregated, Refusal>
    requires { 0 < length chains.now }
    ensures { result ≡ chains_checked C.image (map T.plain chains.now) }
{
    if let Err(refusal) = check_order(chains) {
        return Err(refusal);
    }
    if let Err(refusal) = check_shapes(chains) {
        return Err(refusal);
    }
    let node = match check_links::<C, T>(chains) {
        Ok(node) => node,
        Err(refusal) => return Err(refusal),
    };
    let time = chains[0].time();
    if let Err(refusal) = check_times(time, chains) {
        return Err(refusal);
    }
    match check_metadata(chains) {
        Ok(()) => Ok(Aggregated { time, node }),
        Err(refusal) => Err(refusal),
    }
}

fn check_order<T: AnyChain>(chains: &[T]) -> Result<(), Refusal>
    ensures { result ≡ index_order 0 (first_chain (map T.plain chains.now)) (higher_chains (map T.plain chains.now)) }
{
    for place in 1..chains.len() {
        let below = place - 1;
        match chains[below].compare_index(below as u64, &chains[place]) {
            Ok(()) => (),
            Err(refusal) => return Err(refusal),
        }
    }
    Ok(())
}

fn check_shapes<T: AnyChain>(chains: &[T]) -> Result<(), Refusal>
    ensures { result ≡ index_shapes 0 (map T.plain chains.now) }
{
    for (k, chain) in chains.iter().enumerate() {
        let part = chain.last_part();
        let shape = chain.shape();
        if part != shape {
            return Err(Refusal::IndexShape {
                chain: k as u64,
                part,
                shape,
            });
        }
    }
    Ok(())
}

/// Climbs along all chains once. A level that passes 255 in a higher chain counts before a break that was found below it.
fn check_links<C: Compress, T: AnyChain>(chains: &[T]) -> Result<Node, Refusal>
    requires { 0 < length chains.now }
    ensures { result ≡ joined_chains C.image (map T.plain chains.now) }
{
    let mut below = Node {
        imprint: chains[0].input(),
        level: 0,
    };
    let mut broken = None;
    for (k, chain) in chains.iter().enumerate() {
        broken = first_break(broken, k as u64, below.imprint, chain.input());
        below = match climb_one::<C, T>(k as u64, below.level, chain) {
            Ok(top) => top,
            Err(refusal) => return Err(refusal),
        };
    }
    match broken {
        Some(refusal) => Err(refusal),
        None => Ok(below),
    }
}

/// The break found so far, or one below chain `k`.
fn first_break(
    broken: Option<Refusal>,
    k: u64,
    computed: Imprint,
    stated: Imprint,
) -> Option<Refusal>
    ensures { result ≡ or_break broken k computed stated }
{
    if broken.is_some() {
        return broken;
    }
    if stated == computed {
        None
    } else {
        Some(Refusal::ChainBreak {
            chain: k,
            computed,
            stated,
        })
    }
}

/// The node that chain `k` leads to, from its own input hash at a level.
fn climb_one<C: Compress, T: AnyChain>(k: u64, level: u8, chain: &T) -> Result<Node, Refusal>
    ensures { result ≡ top_of C.image k level (T.plain chain.now) }
{
    let start = Node {
        imprint: chain.input(),
        level,
    };
    match chain.climb::<C>(start) {
        Ok(top) => Ok(top),
        Err(LevelFault::Over { link, level }) => Err(Refusal::Level {
            chain: k,
            link: link as u64,
            level,
        }),
    }
}

fn check_times<T: AnyChain>(first: u64, chains: &[T]) -> Result<(), Refusal>
    ensures { result ≡ same_times first 0 (map T.plain chains.now) }
{
    for (k, chain) in chains.iter().enumerate() {
        let this = chain.time();
        if this != first {
            return Err(Refusal::AggregationTimes {
                chain: k as u64,
                first,
                this,
            });
        }
    }
    Ok(())
}

fn check_metadata<T: AnyChain>(chains: &[T]) -> Result<(), Refusal>
    ensures { result ≡ no_bare_links 0 (map T.plain chains.now) }
{
    for (k, chain) in chains.iter().enumerate() {
        if let Some(link) = chain.bare_link() {
            return Err(Refusal::BareMetadata {
                chain: k as u64,
                link: link as u64,
            });
        }
    }
    Ok(())
}
