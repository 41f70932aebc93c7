use crate::same::same;
use ksi_calendar::{CalendarLink, climb_calendar, second};
use ksi_imprint::{Compress, Imprint, NoMemory, Sha, Tiny};
use ksi_split::Side::{Left, Right};
use ksi_split::{ShapeFault, Side};
use std::alloc::Global;
use std::test::Fail;

fn link(side: Side, sibling: Imprint) -> CalendarLink {
    CalendarLink { side, sibling }
}

/// What links on these sides from the bottom name, where the last second is no more than it may be.
fn second_named(
    alloc: Global,
    p: u64,
    sides: &[Side],
) -> Result<Option<Result<u64, ShapeFault>>, NoMemory> {
    let mut links = Vec::new(alloc);
    for side in sides {
        links.push(link(*side, Imprint::ZERO))?;
    }
    Ok(if p < 1 << 63 {
        Some(second(p, &links))
    } else {
        None
    })
}

#[test]
fn sides_from_the_bottom_name_a_second_or_say_why_not(rt: HostRuntime) -> Result<(), Fail> {
    static ROWS: [(u64, &[Side], Result<u64, ShapeFault>); 9] = [
        (5, &[Left, Right, Left], Ok(2)),
        (0, &[], Ok(0)),
        (8, &[Right], Ok(8)),
        (5, &[Right, Right, Right], Err(ShapeFault::TooMany(2))),
        (5, &[Left], Err(ShapeFault::TooFew(3))),
        (5, &[Left, Right], Ok(4)),
        (u64::MAX >> 1, &[Right; 63], Ok(u64::MAX >> 1)),
        (u64::MAX >> 1, &[Right; 64], Err(ShapeFault::TooMany(63))),
        (0, &[Left; 70], Err(ShapeFault::TooMany(0))),
    ];
    for (p, sides, want) in &ROWS {
        same(&rt, *p, second_named(rt.alloc(), *p, sides)?, Some(*want));
    }
    Ok(())
}

#[test]
fn links_lead_to_the_joins_by_hand(rt: HostRuntime) {
    let start = Sha::of(b"");
    let abc = Sha::of(b"abc");
    let first = Sha::join(start.bytes(), abc.bytes(), 0xff);
    let top = Sha::join(Imprint::ZERO.bytes(), first.bytes(), 0xff);
    // the first bytes of two zero imprints, which are 1, and the level
    let sum = climb_calendar::<Tiny>(Imprint::ZERO, &[link(Right, Imprint::ZERO)]);
    let links = [link(Left, abc), link(Right, Imprint::ZERO)];
    same(&rt, "two", climb_calendar::<Sha>(start, &links), top);
    same(&rt, "none", climb_calendar::<Sha>(start, &[]), start);
    same(&rt, "sum", sum, Tiny::of(&[1]));
}
