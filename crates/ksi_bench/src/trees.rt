//! Rounds of items: their root and all their paths.

use crate::clock::{Timed, now, since};
use crate::joins::last_byte;
use ksi_aggtree::{Builder, Item};
use ksi_imprint::{Compress, Imprint, NoMemory, Sha};
use std::alloc::Global;

/// A round of so many items, and its root.
pub(crate) fn root(rt: &HostRuntime, count: u64) -> Option<Timed> {
    let imprints = imprints(rt.alloc(), count).ok()?;
    let begun = now(rt);
    let round = round(rt.alloc(), &imprints)?;
    since(rt, begun, Some(root_byte(&round)))
}

/// The same, and the paths of all its items.
pub(crate) fn paths(rt: &HostRuntime, count: u64) -> Option<Timed> {
    let imprints = imprints(rt.alloc(), count).ok()?;
    let begun = now(rt);
    let round = round(rt.alloc(), &imprints)?;
    since(rt, begun, all_bytes(&round))
}

/// The byte of the root and of all paths.
fn all_bytes(round: &Builder<Sha>) -> Option<u8> {
    Some(root_byte(round) ^ all_paths(round).ok()?)
}

/// The hashes of the first numbers, of eight bytes each.
pub(crate) fn imprints(alloc: Global, count: u64) -> Result<Vec<Imprint>, NoMemory> {
    let mut imprints = Vec::new(alloc);
    for n in 0..count {
        imprints.push(Sha::of(&n.to_be_bytes()))?;
    }
    Ok(imprints)
}

fn round(alloc: Global, imprints: &[Imprint]) -> Option<Builder<Sha>> {
    let mut round = Builder::new(alloc).ok()?;
    for imprint in imprints {
        round.add(Item::new(*imprint, 0)).ok()?;
    }
    Some(round)
}

fn root_byte(round: &Builder<Sha>) -> u8 {
    match round.root() {
        Some(root) => last_byte(&root.imprint),
        None => 0,
    }
}

/// The lengths of all paths of a round, by one bit each.
fn all_paths(round: &Builder<Sha>) -> Result<u8, NoMemory> {
    let mut byte = 0;
    if round.count() > 0 {
        let paths = round.paths()?;
        for k in 0..round.count() {
            byte ^= paths.path(k)?.as_slice().len() as u8;
        }
    }
    Ok(byte)
}
