//! What goes down from a round to the aggregators that submitted its items.
ghost use Rattle.std.specs.Prelude.{◌≡◌, ◌≤◌, ◌<◌, ◌++◌, true, length, slice_get, Some, IfOk, OnOk};
ghost use Rattle.ksi_aggtree.specs.Entries.{items_of};
ghost use Rattle.ksi_aggregator.specs.Responses.{is_lower, has_lower, told_to, below, chain_at, responses};

use crate::copies::copy_with;
use crate::step::Send;
use ksi_aggtree::laws::metas_are_even;
use ksi_aggtree::{Entries, Entry, Origin, RoundPaths};
use ksi_imprint::{Compress, NoMemory};
use ksi_signature::{Above, AboveChain, AboveLinks, Sends};
use std::alloc::Global;

/// A response to each item of a lower aggregator, in their order.
#[tactic(auto, unfolding(crate::specs::Responses::responses))]
pub(crate) fn responses<C: Compress>(
    alloc: Global,
    entries: &Entries<C>,
    above: &Above,
) -> Result<Sends<Send>, NoMemory>
    requires { has_lower entries.now ≡ true → length above.now.chains ≤ 7 }
    ensures { IfOk result (λ sends. sends ≡ responses C.image above.now entries.now) }
{
    if entries.count() == 0 {
        return Ok(Sends::from_vec(Vec::new(alloc)));
    }
    let paths = entries.paths()?;
    responses_along(alloc, entries, &paths, above)
}

/// The same, with the paths of the items.
#[tactic(auto, unfolding(crate::specs::Responses::responses))]
fn responses_along<C: Compress>(
    alloc: Global,
    entries: &Entries<C>,
    paths: &RoundPaths<'_, C>,
    above: &Above,
) -> Result<Sends<Send>, NoMemory>
    requires paths { paths.now ≡ items_of entries.now }
    requires room { has_lower entries.now ≡ true → length above.now.chains ≤ 7 }
    ensures { IfOk result (λ sends. sends ≡ responses C.image above.now entries.now) }
{
    let mut sends = Vec::new(alloc);
    for k in 0..entries.count() {
        let entry = entries.entry(k);
        push_told(alloc, entries, paths, k, &entry, above, &mut sends)?;
    }
    Ok(Sends::from_vec(sends))
}

/// Puts what the sender of item `k` is told behind the others.
fn push_told<C: Compress>(
    alloc: Global,
    entries: &Entries<C>,
    paths: &RoundPaths<'_, C>,
    k: usize,
    entry: &Entry,
    above: &Above,
    sends: &mut Vec<Send>,
) -> Result<(), NoMemory>
    requires paths { paths.now ≡ items_of entries.now }
    requires there { k < length entries.now }
    requires entry { slice_get entries.now k ≡ Some entry.now }
    requires room { is_lower entry.now.origin ≡ true → length above.now.chains ≤ 7 }
    ensures { OnOk result (sends.new.items ≡ sends.old.items
        ++ told_to entry.now.origin (below C.image above.now (items_of entries.now) k)) }
{
    match entry.origin {
        Origin::Request(_) => Ok(()),
        Origin::Aggregator(from) => {
            let own = chain_at(entries, paths, k, entry)?;
            let response = copy_with(alloc, own, above)?;
            sends.push(Send::Response(from, response))?;
            Ok(())
        }
    }
}

/// The links of item `k`, from its imprint on.
fn chain_at<C: Compress>(
    entries: &Entries<C>,
    paths: &RoundPaths<'_, C>,
    k: usize,
    entry: &Entry,
) -> Result<AboveChain, NoMemory>
    requires paths { paths.now ≡ items_of entries.now }
    requires there { k < length entries.now }
    requires entry { slice_get entries.now k ≡ Some entry.now }
    ensures { IfOk result (λ chain. chain ≡ chain_at C.image (items_of entries.now) k) }
{
    metas_are_even();
    let links = paths.path(k)?;
    Ok(AboveChain {
        input: entry.item.imprint,
        links: AboveLinks::from_vec(links.into_vec()),
    })
}
