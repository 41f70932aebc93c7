use crate::same::same;
use ksi_aggtree::chains::{LevelFault, Link, Node, Sibling, climb, shape};
use ksi_imprint::{Bytes, Compress, Imprint, NoMemory, Sha, Tiny};
use ksi_split::Side;
use ksi_split::Side::{Left, Right};
use std::alloc::Global;
use std::test::Fail;

fn link(side: Side, correction: u8, sibling: Imprint) -> Link {
    Link {
        side,
        correction,
        sibling: Sibling::Imprint(sibling),
    }
}

/// The shape of links on these sides, where they are few enough to have one.
fn shape_of(alloc: Global, sides: &[Side]) -> Result<Option<u64>, NoMemory> {
    let mut links = Vec::new(alloc);
    for side in sides {
        links.push(link(*side, 0, Imprint::ZERO))?;
    }
    Ok(if links.len() <= 63 {
        Some(shape(&links))
    } else {
        None
    })
}

#[test]
fn sides_from_the_bottom_make_a_shape(rt: HostRuntime) -> Result<(), Fail> {
    static ROWS: [(&[Side], u64); 6] = [
        (&[Left, Right, Left], 13),
        (&[Left, Left], 7),
        (&[Right, Left], 6),
        (&[Right], 2),
        (&[], 1),
        (&[Left; 63], u64::MAX),
    ];
    for (sides, want) in &ROWS {
        same(&rt, *want, shape_of(rt.alloc(), sides)?, Some(*want));
    }
    Ok(())
}

/// An imprint on the right, a legacy sibling on the left and metadata on the right.
fn three_kinds(alloc: Global, sibling: Imprint) -> Result<[Link; 3], NoMemory> {
    let name = Bytes::copy_of(alloc, b"name")?;
    let data = Bytes::copy_of(alloc, b"data")?;
    Ok([
        link(Left, 0, sibling),
        Link {
            side: Right,
            correction: 2,
            sibling: Sibling::Legacy(name),
        },
        Link {
            side: Left,
            correction: 1,
            sibling: Sibling::Metadata(data),
        },
    ])
}

#[test]
fn links_lead_to_the_joins_by_hand(rt: HostRuntime) -> Result<(), Fail> {
    let start = Sha::of(b"");
    let abc = Sha::of(b"abc");
    let first = Sha::join(start.bytes(), abc.bytes(), 6);
    let second = Sha::join(b"name", first.bytes(), 9);
    let imprint = Sha::join(second.bytes(), b"data", 11);
    let links = three_kinds(rt.alloc(), abc)?;
    let item = Node { imprint, level: 11 };
    same(&rt, "three", climb::<Sha, Link>(start, 5, &links), Ok(item));
    Ok(())
}

/// Two links, of which the first has this correction.
fn two(correction: u8) -> [Link; 2] {
    [
        link(Right, correction, Imprint::ZERO),
        link(Left, 0, Imprint::ZERO),
    ]
}

#[test]
fn the_first_level_above_255_is_refused(rt: HostRuntime) {
    static ROWS: [(u8, u8, LevelFault); 3] = [
        (
            0,
            254,
            LevelFault::Over {
                link: 1,
                level: 256,
            },
        ),
        (
            255,
            0,
            LevelFault::Over {
                link: 0,
                level: 256,
            },
        ),
        (
            255,
            255,
            LevelFault::Over {
                link: 0,
                level: 511,
            },
        ),
    ];
    let start = Sha::of(b"");
    for (level, correction, fault) in &ROWS {
        let climbed = climb::<Sha, Link>(start, *level, &two(*correction));
        same(&rt, *correction, climbed, Err(*fault));
    }
}

#[test]
fn the_level_255_is_reached(rt: HostRuntime) {
    let start = Sha::of(b"");
    let imprint = Sha::join(Imprint::ZERO.bytes(), start.bytes(), 255);
    let level = 255;
    let climbed = climb::<Sha, Link>(start, 0, &[link(Right, 254, Imprint::ZERO)]);
    same(&rt, "255", climbed, Ok(Node { imprint, level }));
}

fn named(first: u8) -> Imprint {
    Tiny::of(&[first])
}

#[test]
fn sums_of_links(rt: HostRuntime) {
    let imprint = named(0x0f);
    let climbed = climb::<Tiny, Link>(named(0x05), 0, &[link(Left, 0, named(0x07))]);
    // 5 and 7, the level 1 and the first byte of both imprints, which is 1
    same(&rt, "one", climbed, Ok(Node { imprint, level: 1 }));
    let level = 255;
    let climbed = climb::<Tiny, Link>(imprint, level, &[]);
    same(&rt, "none", climbed, Ok(Node { imprint, level }));
}
