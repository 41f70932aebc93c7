//! Copies of what a response carries.
ghost use Rattle.std.specs.Prelude.{◌≡◌, ◌≤◌, ◌∷◌, ◌++◌, length, IfOk, OnOk};

use ksi_aggtree::chains::{Link, Sibling};
use ksi_imprint::{Bytes, NoMemory};
use ksi_signature::{Above, AboveChain, AboveChains, AboveLinks, CalendarLinks};
use std::alloc::Global;

/// Two copies of the path above a round.
pub(crate) fn copies_of(alloc: Global, above: &Above) -> Result<(Above, Above), NoMemory>
    ensures { IfOk result (λ copies. copies ≡ (above.now, above.now)) }
{
    let one = copy_above(alloc, above)?;
    Ok((one, copy_above(alloc, above)?))
}

/// A copy of the path above a round.
fn copy_above(alloc: Global, above: &Above) -> Result<Above, NoMemory>
    ensures { IfOk result (λ copy. copy ≡ above.now) }
{
    let mut chains = Vec::with_capacity(alloc, above.chains.as_slice().len())?;
    copy_chains(alloc, above.chains.as_slice(), &mut chains)?;
    Ok(Above {
        root: above.root,
        chains: AboveChains::from_vec(chains),
        calendar: copy_calendar(alloc, above)?,
    })
}

/// The path above a round, with the chain of an item of that round below it.
pub(crate) fn copy_with(alloc: Global, own: AboveChain, above: &Above) -> Result<Above, NoMemory>
    requires { length above.now.chains ≤ 7 }
    ensures { IfOk result (λ copy. copy ≡
        record { root = above.now.root; chains = own ∷ above.now.chains; calendar = above.now.calendar }) }
{
    let others = above.chains.as_slice();
    let mut chains = Vec::with_capacity(alloc, others.len() + 1)?;
    chains.push(own)?;
    copy_chains(alloc, others, &mut chains)?;
    Ok(Above {
        root: above.root,
        chains: AboveChains::from_vec(chains),
        calendar: copy_calendar(alloc, above)?,
    })
}

fn copy_calendar(alloc: Global, above: &Above) -> Result<CalendarLinks, NoMemory>
    ensures { IfOk result (λ copy. copy ≡ above.now.calendar) }
{
    let links = above.calendar.as_slice();
    Ok(CalendarLinks::from_vec(links.to_vec(alloc)?))
}

/// Puts copies of the chains behind others.
fn copy_chains(
    alloc: Global,
    chains: &[AboveChain],
    copies: &mut Vec<AboveChain>,
) -> Result<(), NoMemory>
    ensures { OnOk result (copies.new.items ≡ copies.old.items ++ chains.now) }
{
    for chain in chains {
        copies.push(copy_chain(alloc, chain)?)?;
    }
    Ok(())
}

fn copy_chain(alloc: Global, chain: &AboveChain) -> Result<AboveChain, NoMemory>
    ensures { IfOk result (λ copy. copy ≡ chain.now) }
{
    let links = chain.links.as_slice();
    Ok(AboveChain {
        input: chain.input,
        links: AboveLinks::from_vec(copy_links(alloc, links)?),
    })
}

fn copy_links(alloc: Global, links: &[Link]) -> Result<Vec<Link>, NoMemory>
    ensures { IfOk result (λ copy. copy.items ≡ links.now) }
{
    let mut copy = Vec::with_capacity(alloc, links.len())?;
    for link in links {
        copy.push(copy_link(alloc, link)?)?;
    }
    Ok(copy)
}

fn copy_link(alloc: Global, link: &Link) -> Result<Link, NoMemory>
    ensures { IfOk result (λ copy. copy ≡ link.now) }
{
    let sibling = match &link.sibling {
        Sibling::Imprint(imprint) => Sibling::Imprint(*imprint),
        Sibling::Legacy(bytes) => Sibling::Legacy(Bytes::copy_of(alloc, bytes.as_slice())?),
        Sibling::Metadata(bytes) => Sibling::Metadata(Bytes::copy_of(alloc, bytes.as_slice())?),
    };
    Ok(Link {
        side: link.side,
        correction: link.correction,
        sibling,
    })
}
