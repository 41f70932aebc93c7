ghost use Rattle.std.specs.Prelude.{◌≡◌, ◌≤◌, ◌<◌, ◌+◌, ◌^◌, length, IfOk};

use crate::same::same;
use ksi_calendar::{Calendar, CalendarLink, SecondPath, Steps};
use ksi_imprint::{Imprint, NoMemory, Tiny};
use ksi_split::Side;
use ksi_split::Side::{Left, Right};
use std::alloc::Global;
use std::marker::Brand;
use std::process::Abort;
use std::sync::ledger::{Blank, Ledger};
use std::test::Fail;

/// The imprint whose digest has this first byte, and zero bytes behind it.
fn named(first: u8) -> Imprint {
    let mut digest = [0; 32];
    digest[0] = first;
    Imprint::of_digest(&digest)
}

fn link(side: Side, first: u8) -> CalendarLink {
    CalendarLink {
        side,
        sibling: named(first),
    }
}

/// The calendar from this second on with these roots.
fn calendar_of(alloc: Global, start: u64, firsts: &[u8]) -> Result<Calendar<Tiny>, NoMemory>
    requires { start + length firsts.now ≤ 2 ^ 63 }
    ensures start { IfOk result (λ calendar. calendar.start ≡ start) }
    ensures count { IfOk result (λ calendar. length calendar.roots ≡ length firsts.now) }
{
    let mut calendar = Calendar::new(alloc, start)?;
    for first in firsts {
        calendar.append(named(*first))?;
    }
    Ok(calendar)
}

fn roots(rt: &impl Abort, calendar: &Calendar<Tiny>, rows: &[(u64, Option<u8>)]) {
    for (p, first) in rows {
        same(rt, "root", calendar.root_to(*p), first.map(named));
    }
}

fn nodes(rt: &impl Abort, calendar: &Calendar<Tiny>, rows: &[(u64, &[Side], Option<u8>)]) {
    for (p, sides, first) in rows {
        same(rt, "node", calendar.node(*p, sides), first.map(named));
    }
}

/// These links and no others.
fn links(rt: &impl Abort, links: &[CalendarLink], want: &[(Side, u8)]) {
    same(rt, "length", links.len(), want.len());
    for (at, (side, first)) in want.iter().enumerate() {
        same(rt, "link", links.get(at), Some(&link(*side, *first)));
    }
}

fn chain(
    rt: &impl Abort,
    calendar: &Calendar<Tiny>,
    t: u64,
    p: u64,
    want: &[(Side, u8)],
) -> Result<(), Fail>
    requires within { t ≤ p }
    requires covered { p < calendar.now.start + length calendar.now.roots }
{
    links(rt, calendar.chain_to(t, p)?.as_slice(), want);
    Ok(())
}

fn counted<L: Ledger>(
    calendar: &Calendar<Tiny>,
    t: u64,
    p: u64,
    blank: Blank,
) -> Result<SecondPath, NoMemory>
    requires name { blank.name ≡ L.name }
    requires parts { blank.parts ≡ L.parts }
    requires one { blank.parts ≡ 1 }
    requires within { t ≤ p }
    requires covered { p < calendar.now.start + length calendar.now.roots }
{
    let mut steps = Steps::<L>::open(blank);
    calendar.chain_to_counted(t, p, &mut steps)
}

fn three_seconds(alloc: Global) -> Result<Calendar<Tiny>, NoMemory>
    ensures { IfOk result (λ calendar. calendar.start + length calendar.roots ≡ 3) }
{
    calendar_of(alloc, 0, &[0x0a, 0x14, 0x1e])
}

#[test]
fn roots_and_nodes_of_three_seconds_from_zero(rt: HostRuntime) -> Result<(), Fail> {
    let calendar = three_seconds(rt.alloc())?;
    static ROOTS: [(u64, Option<u8>); 4] = [
        (0, Some(0x0a)),
        (1, Some(0x1f)),
        (2, Some(0x3e)),
        (3, None),
    ];
    static NODES: [(u64, &[Side], Option<u8>); 5] = [
        (2, &[], Some(0x3e)),
        (2, &[Left], Some(0x1f)),
        (2, &[Left, Right], Some(0x14)),
        (2, &[Right, Left], None),
        (3, &[], None),
    ];
    roots(&rt, &calendar, &ROOTS);
    nodes(&rt, &calendar, &NODES);
    Ok(())
}

static MIDDLE: [(Side, u8); 2] = [(Right, 0x0a), (Left, 0x1e)];

fn chains(rt: &impl Abort, calendar: &Calendar<Tiny>) -> Result<(), Fail>
    requires { calendar.now.start + length calendar.now.roots ≡ 3 }
{
    chain(rt, calendar, 1, 2, &MIDDLE)?;
    chain(rt, calendar, 2, 2, &[(Right, 0x1f)])?;
    counted_chain(rt, calendar)
}

fn counted_chain(rt: &impl Abort, calendar: &Calendar<Tiny>) -> Result<(), Fail>
    requires { calendar.now.start + length calendar.now.roots ≡ 3 }
{
    let told = counted::<Brand>(calendar, 1, 2, Blank::new(1))?;
    links(rt, told.as_slice(), &MIDDLE);
    Ok(())
}

#[test]
fn chains_of_three_seconds_from_zero(rt: HostRuntime) -> Result<(), Fail> {
    let calendar = three_seconds(rt.alloc())?;
    chains(&rt, &calendar)
}

fn begins_at_two(rt: &impl Abort, calendar: &Calendar<Tiny>) -> Result<(), Fail>
    requires { calendar.now.start + length calendar.now.roots ≡ 3 }
{
    same(rt, "start", calendar.start(), 2);
    roots(rt, calendar, &[(2, Some(0x0c)), (1, None)]);
    chain(rt, calendar, 2, 2, &[(Right, 0x01)])?;
    chain(rt, calendar, 0, 2, &[(Left, 0), (Left, 0x0a)])
}

#[test]
fn zeros_stand_before_the_start(rt: HostRuntime) -> Result<(), Fail> {
    let calendar = calendar_of(rt.alloc(), 2, &[0x0a])?;
    begins_at_two(&rt, &calendar)
}

fn zeros_below(rt: &impl Abort, links: &[CalendarLink]) {
    same(rt, "length", links.len(), 13);
    // 256 zero leaves have the root whose digest begins with 2 ^ 8 - 1
    same(rt, "lowest", links.first(), Some(&link(Right, 0xff)));
    for link in links {
        same(rt, "side", link.side, Right);
    }
}

fn begins_late(rt: &impl Abort, late: &Calendar<Tiny>) -> Result<(), Fail>
    requires { late.now.start + length late.now.roots ≡ 1700000001 }
{
    let links = late.chain_to(1_700_000_000, 1_700_000_000)?;
    zeros_below(rt, links.as_slice());
    Ok(())
}

#[test]
fn zeros_stand_before_a_late_start(rt: HostRuntime) -> Result<(), Fail> {
    let late = calendar_of(rt.alloc(), 1_700_000_000, &[0x0a])?;
    begins_late(&rt, &late)
}
