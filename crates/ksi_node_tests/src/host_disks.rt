use ksi_disk::{Disk, HostDisk};
use std::fs;
use std::test::Fail;

const NAME: &str = "ksi_host_disk_kept";

struct Row {
    at: u64,
    piece: &'static [u8],
    found: &'static [u8],
}

// What is written over what the rows before left, and what is found then.
static ROWS: [Row; 3] = [
    Row {
        at: 0,
        piece: b"abcdef",
        found: b"abcdef",
    },
    Row {
        at: 4,
        piece: b"XYZ",
        found: b"abcdXYZ",
    },
    Row {
        at: 0,
        piece: b"12",
        found: b"12cdXYZ",
    },
];

/// Writes to the file, which no other disk is over meanwhile.
fn write(rt: &HostRuntime, row: &Row) -> Result<bool, Fail> {
    let mut disk = HostDisk::open(rt, ".", NAME)?;
    let is_locked = HostDisk::open(rt, ".", NAME).is_err();
    let Ok(len) = disk.len() else {
        return Ok(false);
    };
    Ok(
        is_locked
            && row.at <= len
            && disk.write_at(row.at, row.piece).is_ok()
            && disk.sync().is_ok(),
    )
}

/// Opens the file again, and looks whether it has these bytes.
fn has(rt: &HostRuntime, bytes: &[u8]) -> Result<bool, Fail> {
    let mut disk = HostDisk::open(rt, ".", NAME)?;
    let mut buffer = [0; 8];
    let Ok(len) = disk.len() else {
        return Ok(false);
    };
    if len > 8 {
        return Ok(false);
    }
    let (front, _) = buffer.split_at_mut(len as usize);
    Ok(disk.read(0, front).is_ok() && &*front == bytes)
}

#[test]
fn a_file_is_found_as_it_was_left(rt: HostRuntime) -> Result<(), Fail> {
    let _ = fs::remove_file(&rt, NAME);
    for row in &ROWS {
        let kept = write(&rt, row)? && has(&rt, row.found)?;
        assert!(rt; kept);
    }
    Ok(())
}
