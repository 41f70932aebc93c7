use crate::imprints::named;
use crate::same::same;
use ksi_aggtree::chains::Node;
use ksi_imprint::{Imprint, NoMemory, Refused, Tiny};
use ksi_logblock::{Block, LineLink, PushRefusal, root_of};
use ksi_split::Side;
use ksi_split::Side::{Left, Right};
use std::alloc::Global;
use std::test::Fail;

/// The seed of the rows.
pub(crate) const SEED: [u8; 32] = [1; 32];

/// The block of the lines `a` and `b`.
pub(crate) fn two_lines(alloc: Global) -> Result<Block<'static, Tiny>, Refused<PushRefusal>> {
    let mut block = Block::<Tiny>::new(alloc, SEED);
    block.push(b"a")?;
    block.push(b"b")?;
    Ok(block)
}

/// The mask, the links and the root that they lead to, of a line of the block of two.
fn proof_of(
    alloc: Global,
    k: usize,
) -> Result<Option<(Imprint, LineLink, Option<Imprint>)>, NoMemory> {
    let block = match two_lines(alloc) {
        Ok(block) => block,
        Err(_) => return Ok(None),
    };
    if k >= block.count() {
        return Ok(None);
    }
    let proof = block.proof(k)?;
    let root = root_of::<Tiny>(block.line(k), &proof).ok();
    Ok(match proof.links.as_slice() {
        [link] => Some((proof.mask, *link, root)),
        _ => None,
    })
}

fn link(side: Side, sibling: Imprint) -> LineLink {
    LineLink {
        side,
        correction: 0,
        sibling,
    }
}

#[test]
fn masks_and_links_are_those_by_hand(rt: HostRuntime) -> Result<(), Fail> {
    static ROWS: [(usize, u8, Side, u8); 2] = [(0, 0x21, Left, 0x0b), (1, 0xa6, Right, 0x85)];
    for (k, mask, side, sibling) in &ROWS {
        let want = (
            named(*mask),
            link(*side, named(*sibling)),
            Some(named(0x94)),
        );
        same(&rt, *k, proof_of(rt.alloc(), *k)?, Some(want));
    }
    Ok(())
}

fn root_of_lines(alloc: Global, lines: &[&'static [u8]]) -> Option<Node> {
    let mut block = Block::<Tiny>::new(alloc, SEED);
    for line in lines {
        block.push(line).ok()?;
    }
    block.root()
}

#[test]
fn roots_are_those_by_hand(rt: HostRuntime) -> Result<(), Fail> {
    let one = Node {
        imprint: named(0x85),
        level: 1,
    };
    let two = Node {
        imprint: named(0x94),
        level: 2,
    };
    same(&rt, 0, root_of_lines(rt.alloc(), &[]), None);
    same(&rt, 1, root_of_lines(rt.alloc(), &[b"a"]), Some(one));
    same(&rt, 2, root_of_lines(rt.alloc(), &[b"a", b"b"]), Some(two));
    Ok(())
}

/// What a push behind so many empty lines answers.
fn push_behind(
    alloc: Global,
    lines: usize,
    size: usize,
) -> Result<Result<(), Refused<PushRefusal>>, Refused<PushRefusal>> {
    static BYTES: [u8; 8001] = [b'x'; 8001];
    let mut block = Block::<Tiny>::new(alloc, SEED);
    for _ in 0..lines {
        block.push(b"")?;
    }
    Ok(block.push(if size <= 8001 { &BYTES[..size] } else { &BYTES }))
}

#[test]
fn a_block_takes_so_many_lines_of_so_many_bytes(rt: HostRuntime) -> Result<(), Fail> {
    static ROWS: [(usize, usize, Option<PushRefusal>); 6] = [
        (0, 8000, None),
        (0, 8001, Some(PushRefusal::LineTooLong(8001))),
        (65_535, 8000, None),
        (65_535, 8001, Some(PushRefusal::LineTooLong(8001))),
        (65_536, 0, Some(PushRefusal::Full)),
        (65_536, 8001, Some(PushRefusal::Full)),
    ];
    for (lines, size, want) in &ROWS {
        let want = match want {
            None => Ok(()),
            Some(refusal) => Err(Refused::Fault(*refusal)),
        };
        same(&rt, *size, push_behind(rt.alloc(), *lines, *size), Ok(want));
    }
    Ok(())
}
