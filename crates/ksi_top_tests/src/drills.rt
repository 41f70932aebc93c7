use crate::rows::are_so;
use ksi_replay::{NoMemory, drill};
use std::alloc::Global;
use std::test::Fail;

/// How many seconds are kept, whether signatures are issued, and how many of them are neither inside nor beneath.
pub(crate) fn drilled(alloc: Global, number: u64) -> Result<(u64, bool, Option<u64>), NoMemory> {
    let tally = drill(alloc, number)?;
    let found = tally.inside.saturating_add(tally.beneath);
    Ok((
        tally.seconds,
        tally.issued > 0,
        tally.issued.checked_sub(found),
    ))
}

#[test]
fn seven_is_drilled(rt: HostRuntime) -> Result<(), Fail> {
    are_so(&rt, rt.alloc(), "drill 7 = (256, true, Some(0))")
}

const DRILLS: &str = "drill 0 = (256, true, Some(0))
drill 1 = (256, true, Some(0))
drill 2 = (256, true, Some(0))
drill 100 = (256, true, Some(0))
drill 65536 = (256, true, Some(0))
drill 9223372036854775808 = (256, true, Some(0))
drill 18446744073709551615 = (256, true, Some(0))";

#[test]
fn all_that_is_issued_is_found(rt: HostRuntime) -> Result<(), Fail> {
    are_so(&rt, rt.alloc(), DRILLS)
}
