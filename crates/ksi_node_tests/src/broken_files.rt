use crate::logs::opened;
use ksi_disk::{MemDisk, OpenRefusal, Records, open_log};
use std::alloc::Global;
use std::test::Fail;

// Files with a header of two bytes: how many records they have, or where they are broken.
static ROWS: [(&[u8], Result<usize, u64>); 11] = [
    (b"", Err(2)),
    (b"hh", Err(2)),
    (b"hh\x00", Ok(0)),
    (b"hh\x07what stands behind is not looked at", Ok(0)),
    (b"hh\x01", Err(2)),
    (b"hh\x01\x00\x00\x00", Err(2)),
    (b"hh\x01\x00\x00\x00\x02a", Err(2)),
    (b"hh\x01\x00\x00\x00\x02ab", Err(9)),
    (b"hh\x01\x00\x00\x00\x02ab\x00", Ok(1)),
    (
        b"hh\x01\x00\x00\x00\x00\x01\x00\x00\x00\x01c\xff\x01",
        Ok(2),
    ),
    (b"hh\x01\x00\x00\x00\x00\x01\x01\x00\x00\x00c\x00", Err(7)),
];

// What the opening tells: of a broken file where, and that its disk is left as it was.
fn told(want: &Result<usize, u64>) -> Result<usize, (OpenRefusal, bool)> {
    match want {
        Ok(records) => Ok(*records),
        Err(place) => Err((OpenRefusal::Broken(*place), true)),
    }
}

#[test]
fn a_file_is_read_up_to_the_first_gate_that_is_not_open(rt: HostRuntime) -> Result<(), Fail> {
    for (file, want) in &ROWS {
        assert!(rt; opened(rt.alloc(), file, 2)? == told(want));
    }
    Ok(())
}

fn are_ab_and_c(records: &Records) -> bool {
    records.len() == 2 && records.get(0) == b"ab".as_slice() && records.get(1) == b"c".as_slice()
}

// Opens a file of two records, whose contents are these.
fn opens_to_ab_and_c(alloc: Global) -> Result<bool, Fail> {
    let file = b"\x01\x00\x00\x00\x02ab\x01\x00\x00\x00\x01c\x02";
    let disk = MemDisk::new(alloc, file, 0, 1, Vec::new(alloc))?;
    Ok(match open_log(alloc, disk, 0) {
        Ok(opened) => are_ab_and_c(&opened.records),
        Err(_) => false,
    })
}

#[test]
fn the_contents_are_those_behind_the_gates(rt: HostRuntime) -> Result<(), Fail> {
    assert!(rt; opens_to_ab_and_c(rt.alloc())?);
    Ok(())
}
