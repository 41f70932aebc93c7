use ksi_disk::{Disk, Fate, MemDisk};
use std::alloc::Global;
use std::test::Fail;

struct Row {
    moment: usize,
    fate: Fate,
    image: &'static [u8],
}

// After a write past the end, a sync, and a write that fails.
static ROWS: [Row; 11] = [
    Row {
        moment: 0,
        fate: Fate::Whole,
        image: b"abcd",
    },
    Row {
        moment: 1,
        fate: Fate::Lost,
        image: b"abcd",
    },
    Row {
        moment: 1,
        fate: Fate::Whole,
        image: b"abWXYZ",
    },
    Row {
        moment: 1,
        fate: Fate::Front(1),
        image: b"abWd",
    },
    Row {
        moment: 1,
        fate: Fate::Front(3),
        image: b"abWXY",
    },
    Row {
        moment: 1,
        fate: Fate::Front(9),
        image: b"abWXYZ",
    },
    Row {
        moment: 1,
        fate: Fate::Filled(b'.'),
        image: b"ab....",
    },
    Row {
        moment: 2,
        fate: Fate::Lost,
        image: b"abWXYZ",
    },
    Row {
        moment: 3,
        fate: Fate::Lost,
        image: b"abWXYZ",
    },
    Row {
        moment: 3,
        fate: Fate::Whole,
        image: b"qbWXYZ",
    },
    Row {
        moment: 3,
        fate: Fate::Filled(b'!'),
        image: b"!bWXYZ",
    },
];

fn written(alloc: Global) -> Result<MemDisk, Fail> {
    let mut failing = Vec::new(alloc);
    failing.push(2)?;
    let mut disk = MemDisk::new(alloc, b"abcd", 9, 9, failing)?;
    let _ = disk.write_at(2, b"WXYZ");
    let _ = disk.sync();
    let _ = disk.write_at(0, b"q");
    Ok(disk)
}

fn is_left(disk: &MemDisk, row: &Row) -> Result<bool, Fail> {
    if row.moment > disk.moments() {
        return Ok(false);
    }
    Ok(disk.image(row.moment, row.fate)?.as_slice() == row.image)
}

#[test]
fn each_fate_leaves_its_image(rt: HostRuntime) -> Result<(), Fail> {
    let alloc = rt.alloc();
    let disk = written(alloc)?;
    assert!(rt; disk.bytes() == b"abWXYZ".as_slice());
    for row in &ROWS {
        assert!(rt; is_left(&disk, row)?);
    }
    Ok(())
}
