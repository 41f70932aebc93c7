// Bytes that are no journal, and their first faults: the number of the code, and the place or the second.
use crate::text::{bytes, is_so, reason, sides};
use ksi_imprint::Tiny;
use ksi_journal::{JournalFault, load};
use std::alloc::Global;
use std::process::Abort;
use std::test::Fail;

/// The number of a fault's code, and its place or second, or zero.
pub(crate) fn coded(fault: Option<JournalFault>) -> (u8, u64) {
    match fault {
        None => (0, 0),
        Some(JournalFault::Magic) => (1, 0),
        Some(JournalFault::Tlv(place)) => (2, place as u64),
        Some(JournalFault::Order(place)) => (3, place as u64),
        Some(JournalFault::TreeRoot(second, _, _)) => (4, second),
        Some(JournalFault::Bound(place)) => (5, place as u64),
        Some(JournalFault::Imprint(place)) => (6, place as u64),
        Some(JournalFault::Count(second)) => (7, second),
        Some(JournalFault::Ends(place)) => (8, place as u64),
        Some(JournalFault::Name(place)) => (9, place as u64),
        Some(JournalFault::Voters(place)) => (10, place as u64),
    }
}

/// The words of a row have the fault that stands behind them.
fn has_fault(rt: &impl Abort, alloc: Global, row: &str) -> Result<(), Fail> {
    let text = bytes(alloc, sides(row).0)?;
    let told = load::<Tiny>(alloc, text.as_slice()).err();
    is_so(rt, alloc, row, coded(reason(told)))
}

fn have_faults(rt: &impl Abort, alloc: Global, rows: &str) -> Result<(), Fail> {
    for row in rows.lines() {
        has_fault(rt, alloc, row)?;
    }
    Ok(())
}

/// Worked out by hand. A second's element stands at 11 and ends at 54.
const OF_ONE: &str = "4b53494a524e4c = (1, 0)
4b53494a524e4c33 = (1, 0)
J1 = (8, 8)
J1 01 = (2, 8)
J1 0200 = (3, 8)
J1 0109000000000000000001 = (5, 8)
J1 01088000000000000000 = (5, 8)
J1 010105 = (8, 11)
J1 010105 010106 = (3, 11)
J1 010105 0300 = (3, 11)
J1 010105 0700 = (3, 11)
J1 010105 0806010105020101 = (3, 11)
J1 010105 0229010105 0221 one 030101 0723 one 00 61 = (3, 54)
J1 010105 060100 = (8, 11)
J1 010105 060000 = (8, 13)
J1 010105 0203010104 = (3, 13)
J1 010105 0203010105 = (8, 16)
J1 010105 02020105 = (2, 13)
J1 010105 02020200 = (3, 13)
J1 010105 0206010105020101 = (6, 16)
J1 010105 0400 = (8, 13)
J1 010105 040401000200 04020100 = (3, 19)
J1 010105 0406010002000200 = (3, 17)
J1 010105 050401000200 = (6, 15)
J1 010105 0229010105 0221 zero 030101 0322 one 00 = (7, 5)
J1 010105 0229010105 0221 one 030100 0322 one 00 = (7, 5)
J1 010105 0229010105 0221 one 030101 0322 one f0 = (5, 54)
J1 010105 0229010105 0221 one 030101 0321 one = (6, 54)
J1 010105 0229010105 0221 one 030102 0322 one 00 = (8, 90)
J1 010105 0229010105 0221 two 030101 0322 one 00 = (4, 5)";

/// A start at 5, and the second 5 with a count above all counts.
const COUNTS: &str =
    "J1 010105 0230 010105 0221 011111111111111111111111111111111111111111111111111111111111111111 0308ffffffffffffffff = (7, 5)
J1 010105 0230 010105 0221 zero 0308ffffffffffffffff = (7, 5)
J1 010105 022b 010105 0221 011111111111111111111111111111111111111111111111111111111111111111 0303010001 = (7, 5)";

/// Worked out by hand. Voters stand at 11. A second's element stands there too, and its item at 54.
const OF_TWO: &str = "J2 = (8, 8)
J2 0806010105020101 = (3, 8)
J2 010105 0700 = (3, 11)
J2 010105 0805010105 = (2, 11)
J2 010105 0800 = (8, 13)
J2 010105 0803020101 = (3, 13)
J2 010105 0803010105 = (8, 16)
J2 010105 0806010104020101 = (3, 13)
J2 010105 0806010105020101 0806010105020101 = (3, 21)
J2 010105 0228010105 0221 zero 0300 0806010105020101 = (3, 53)
J2 010105 080e0109000000000000000005020100 = (5, 13)
J2 010105 080d01088000000000000000020100 = (5, 13)
J2 010105 080e0101050209000000000000000000 = (5, 16)
J2 010105 0806010104020100 = (3, 13)
J2 010105 0805010105 0200 = (10, 16)
J2 010105 0806010105020100 = (10, 16)
J2 010105 080701010502020200 = (10, 16)
J2 010105 0809010105020100030100 = (10, 16)
J2 010105 0809010105020101030100 = (3, 19)
J2 010105 0229010105 0221 one 030101 0721 one = (6, 54)
J2 010105 0229010105 0221 one 030101 0723 02 0000000000000000000000000000000000000000000000000000000000000000 ef 2f = (6, 54)
J2 010105 0229010105 0221 one 030101 0723 one ef 61 = (5, 54)
J2 010105 0229010105 0221 one 030101 0723 one ef 2f = (5, 54)
J2 010105 0229010105 0221 one 030101 0722 one 00 = (9, 54)
J2 010105 0229010105 0221 one 030101 0723 one ee 2f = (9, 54)
J2 010105 0229010105 0221 one 030101 0724 one 00 6120 = (9, 54)
J2 010105 0229010105 0221 one 030101 0763 one 00 61 61616161616161616161616161616161616161616161616161616161616161616161616161616161616161616161616161616161616161616161616161616161 = (9, 54)
J2 010105 0229010105 0221 one 030101 0322 one f0 = (5, 54)
J2 010105 0229010105 0221 one 030101 0323 one 00 61 = (6, 54)
J2 010105 0229010105 0221 one 030101 0806010105020101 = (3, 54)
J2 010105 0229010105 0221 one 030102 0723 one 00 61 = (8, 91)
J2 010105 0229010105 0221 one 030101 0723 one ee 61 = (4, 5)";

// A count is tested before room is made for so many.
static ROWS: [&str; 3] = [OF_ONE, COUNTS, OF_TWO];

#[test]
fn answers_the_first_fault(rt: HostRuntime) -> Result<(), Fail> {
    for rows in &ROWS {
        have_faults(&rt, rt.alloc(), rows)?;
    }
    Ok(())
}
