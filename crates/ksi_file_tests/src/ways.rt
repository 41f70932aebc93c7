use crate::same::same;
use ksi_split::Side::{Left, Right};
use ksi_split::{ShapeFault, Side, high_bit, second_of, split, way};

#[test]
fn sides_name_a_second_or_say_why_not(rt: HostRuntime) {
    static ROWS: [(&[Side], Result<u64, ShapeFault>); 3] = [
        (&[Left, Right, Left], Ok(2)),
        (&[Right, Right, Right], Err(ShapeFault::TooMany(2))),
        (&[Left], Err(ShapeFault::TooFew(3))),
    ];
    for (row, (sides, want)) in ROWS.iter().enumerate() {
        same(&rt, row, second_of(5, sides), *want);
    }
    same(&rt, "0", second_of(0, &[]), Ok(0));
    same(&rt, "8", second_of(8, &[Right]), Ok(8));
}

#[test]
fn the_longest_ways_have_63_sides(rt: HostRuntime) {
    const N: u64 = 1 << 63;
    same(&rt, "first", way(0, N).as_slice(), [Left; 63].as_slice());
    same(
        &rt,
        "last",
        way(N - 1, N).as_slice(),
        [Right; 63].as_slice(),
    );
    same(&rt, "second", second_of(N - 1, &[Right; 63]), Ok(N - 1));
}

/// Where a number of leaves is split and its high bit, where it is more than one.
fn powers(n: u64) -> Option<(u64, u64)> {
    if n > 1 {
        Some((split(n), high_bit(n)))
    } else {
        None
    }
}

#[test]
fn powers_of_two_are_split_below_themselves(rt: HostRuntime) {
    static ROWS: [(u64, (u64, u64)); 6] = [
        (2, (1, 2)),
        (3, (2, 2)),
        (4, (2, 4)),
        (5, (4, 4)),
        (1 << 63, (1 << 62, 1 << 63)),
        (u64::MAX, (1 << 63, 1 << 63)),
    ];
    for (n, want) in &ROWS {
        same(&rt, *n, powers(*n), Some(*want));
    }
    same(&rt, 1, high_bit(1), 1);
}
