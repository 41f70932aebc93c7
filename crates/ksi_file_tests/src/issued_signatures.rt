// Signatures that are issued from the links of a round and what stands above it.
ghost use Rattle.std.specs.Prelude.{IfOk, ◌<◌, ◌^◌};
ghost use Rattle.ksi_signature.specs.Above.{AreRoundLinks, IsNode, IsNameLink};

use crate::imprints::hash;
use crate::text::is_text;
use ksi_aggtree::chains::{Link, Sibling};
use ksi_calendar::CalendarLink;
use ksi_imprint::{Bytes, Imprint, NoMemory};
use ksi_signature::{Above, AboveChain, AboveChains, AboveLinks, CalendarLinks, issue};
use ksi_split::Side;
use std::alloc::Global;
use std::process::Abort;
use std::slice;
use std::test::Fail;

/// No chain and no link above the round of the hash of no bytes.
fn nothing(alloc: Global) -> Above {
    Above {
        root: hash(),
        chains: AboveChains::from_vec(Vec::new(alloc)),
        calendar: CalendarLinks::from_vec(Vec::new(alloc)),
    }
}

/// The signature of the hash of no bytes is the words on the right side of a row.
fn is_issued(
    rt: &impl Abort,
    alloc: Global,
    row: &str,
    second: u64,
    links: &[Link],
    above: &Above,
) -> Result<(), Fail>
    requires second { second < 2 ^ 63 }
    requires links { AreRoundLinks links.now }
{
    let text = issue(alloc, second, &hash(), links, above)?;
    is_text(rt, alloc, row, text.as_slice())
}

const ALONE: &str = "issued = 8800005a G K";

#[test]
fn issues_without_links(rt: HostRuntime) -> Result<(), Fail> {
    let above = nothing(rt.alloc());
    is_issued(&rt, rt.alloc(), ALONE, 0, &[], &above)
}

/// The metadata of the name `al`.
static AL: [u8; 8] = [0x7e, 0x01, 0x01, 0x01, 0x03, 0x61, 0x6c, 0x00];

fn link_of_al(alloc: Global) -> Result<Link, NoMemory>
    ensures { IfOk result IsNameLink }
{
    Ok(Link {
        side: Side::Left,
        correction: 0,
        sibling: Sibling::Metadata(Bytes::copy_of(alloc, &AL)?),
    })
}

const NAMED: &str =
    "issued = 88000066 88010037 0200 030103 0521 A 060101 070a 0408 7e01010103616c00 K";

#[test]
fn issues_an_item_with_a_name(rt: HostRuntime) -> Result<(), Fail> {
    let link = link_of_al(rt.alloc())?;
    let above = nothing(rt.alloc());
    is_issued(&rt, rt.alloc(), NAMED, 0, slice::from_ref(&link), &above)
}

fn link(side: Side, correction: u8) -> Link
    ensures { IsNode result.sibling }
{
    Link {
        side,
        correction,
        sibling: Sibling::Imprint(hash()),
    }
}

fn above(alloc: Global, first: Link) -> Result<AboveChain, NoMemory>
    requires { IsNode first.sibling }
{
    let mut links = Vec::new(alloc);
    links.push(first)?;
    Ok(AboveChain {
        input: Imprint::ZERO,
        links: AboveLinks::from_vec(links),
    })
}

/// Two chains, the lower first, and a calendar chain, of one link each.
fn above_both(alloc: Global) -> Result<Above, NoMemory> {
    let mut chains = Vec::new(alloc);
    chains.push(above(alloc, link(Side::Right, 2))?)?;
    chains.push(above(alloc, link(Side::Left, 0))?)?;
    let mut calendar = Vec::new(alloc);
    calendar.push(CalendarLink {
        side: Side::Right,
        sibling: hash(),
    })?;
    Ok(Above {
        root: Imprint::ZERO,
        chains: AboveChains::from_vec(chains),
        calendar: CalendarLinks::from_vec(calendar),
    })
}

/// Worked out by hand: the item's own chain, the lower and the upper one above it, and the calendar chain.
const BELOW_TWO: &str =
    "issued = 88000136 88010032 020105 030103 030102 030101 0521 A 060101 88010057 020105 030103 030102 0521 zero 060101 0826 010102 0221 A 88010051 020105 030103 0521 zero 060101 0723 0221 A 8802004c 010105 020105 0521 zero 0821 A";

#[test]
fn issues_below_two_chains(rt: HostRuntime) -> Result<(), Fail> {
    let above = above_both(rt.alloc())?;
    is_issued(&rt, rt.alloc(), BELOW_TWO, 5, &[], &above)
}
