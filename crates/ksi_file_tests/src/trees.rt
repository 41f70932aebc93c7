ghost use Rattle.std.specs.Prelude.{◌+◌, ◌/◌, ◌%◌, ◌<◌, ◌≡◌, length, IfOk};

use crate::same::same;
use ksi_split::Side::{Left, Right};
use ksi_split::{Joins, NoMemory, Rows, Side, TreeLink};
use std::alloc::Global;
use std::process::Abort;
use std::test::Fail;

/// The left part and half the right one, so that neither sides nor places can be exchanged unseen.
struct Halved;

impl Joins<u8> for Halved {
    ghost joined = { λ left right. (left + right / 2) % 256 };

    fn join(left: &u8, right: &u8) -> u8 {
        left.wrapping_add(*right / 2)
    }
}

/// The leaves 50 and 70 behind two that are 1.
fn four(alloc: Global) -> Result<Rows<u8, Halved>, NoMemory>
    ensures { IfOk result (λ rows. rows.start + length rows.items ≡ 4) }
{
    let mut rows = Rows::new(alloc, 2, 1)?;
    rows.append(50)?;
    rows.append(70)?;
    Ok(rows)
}

/// The leaf at a place, and the root of the leaves to it.
fn told(rows: &Rows<u8, Halved>, at: u64) -> Option<(u8, u8)> {
    let behind = rows.start().checked_add(rows.count())?;
    if at < behind {
        Some((rows.leaf(at), rows.root(at)))
    } else {
        None
    }
}

fn leaves(rt: &impl Abort, rows: &Rows<u8, Halved>) {
    static ROWS: [Option<(u8, u8)>; 5] = [
        Some((1, 1)),
        Some((1, 1)),
        Some((50, 26)),
        Some((70, 43)),
        None,
    ];
    for (at, want) in ROWS.iter().enumerate() {
        same(rt, at, told(rows, at as u64), *want);
    }
}

fn nodes(rt: &impl Abort, rows: &Rows<u8, Halved>)
    requires { 3 < rows.now.start + length rows.now.items }
{
    static ROWS: [(&[Side], Option<u8>); 5] = [
        (&[], Some(43)),
        (&[Left], Some(1)),
        (&[Right], Some(85)),
        (&[Right, Right], Some(70)),
        (&[Right, Left, Left], None),
    ];
    for (row, (sides, node)) in ROWS.iter().enumerate() {
        same(rt, row, rows.node(3, sides), *node);
    }
}

static LINKS: [TreeLink<u8>; 2] = [
    TreeLink {
        side: Left,
        sibling: 70,
    },
    TreeLink {
        side: Right,
        sibling: 1,
    },
];

fn are_two_behind_two(rt: &impl Abort, rows: &Rows<u8, Halved>) -> Result<(), Fail>
    requires { rows.now.start + length rows.now.items ≡ 4 }
{
    leaves(rt, rows);
    nodes(rt, rows);
    same(rt, "path", rows.path(2, 3)?.as_slice(), LINKS.as_slice());
    Ok(())
}

#[test]
fn two_leaves_behind_two_that_are_one(rt: HostRuntime) -> Result<(), Fail> {
    let rows = four(rt.alloc())?;
    are_two_behind_two(&rt, &rows)
}
