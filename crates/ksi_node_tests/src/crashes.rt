use crate::logs::{appended, both_appended, opened};
use ksi_disk::{Fate, MemDisk};
use std::alloc::Global;
use std::test::Fail;

static FATES: [Fate; 9] = [
    Fate::Lost,
    Fate::Whole,
    Fate::Front(1),
    Fate::Front(4),
    Fate::Front(7),
    Fate::Filled(0),
    Fate::Filled(1),
    Fate::Filled(7),
    Fate::Filled(255),
];

// Whether each image at that moment opens to so many records, or to one more where that may be.
fn all_open(
    alloc: Global,
    disk: &MemDisk,
    moment: usize,
    least: usize,
    most: usize,
) -> Result<bool, Fail> {
    if moment > disk.moments() {
        return Ok(false);
    }
    for fate in &FATES {
        let image = disk.image(moment, *fate)?;
        let found = opened(alloc, image.as_slice(), 2)?;
        if found != Ok(least) && found != Ok(most) {
            return Ok(false);
        }
    }
    Ok(true)
}

// The moments of an opening, of an append, of another opening and another append: which numbers of records may be there.
static MOMENTS: [(usize, usize); 11] = [
    (0, 0),
    (0, 0),
    (0, 0),
    (0, 0),
    (0, 1),
    (1, 1),
    (1, 1),
    (1, 1),
    (1, 1),
    (1, 2),
    (2, 2),
];

#[test]
fn a_crash_at_any_moment_leaves_whole_records(rt: HostRuntime) -> Result<(), Fail> {
    let alloc = rt.alloc();
    let (_, disk) = both_appended(alloc, b"hh\x00")?;
    assert!(rt; disk.moments() == 10);
    for (moment, (least, most)) in MOMENTS.iter().enumerate() {
        assert!(rt; all_open(alloc, &disk, moment, *least, *most)?);
    }
    Ok(())
}

struct Row {
    failing: u64,
    acknowledged: bool,
    records: (usize, usize),
}

// An append on a disk whose call of that number fails, the first three being those of the opening: a sync, its length and a
// read. Whether it was acknowledged, and how many records the images then have.
static ROWS: [Row; 8] = [
    Row {
        failing: 0,
        acknowledged: false,
        records: (0, 0),
    },
    Row {
        failing: 1,
        acknowledged: false,
        records: (0, 0),
    },
    Row {
        failing: 2,
        acknowledged: false,
        records: (0, 0),
    },
    Row {
        failing: 3,
        acknowledged: false,
        records: (0, 0),
    },
    Row {
        failing: 4,
        acknowledged: false,
        records: (0, 0),
    },
    Row {
        failing: 5,
        acknowledged: false,
        records: (0, 1),
    },
    Row {
        failing: 6,
        acknowledged: false,
        records: (0, 1),
    },
    Row {
        failing: 7,
        acknowledged: true,
        records: (1, 1),
    },
];

fn fails_so(alloc: Global, row: &Row) -> Result<bool, Fail> {
    let mut failing = Vec::new(alloc);
    failing.push(row.failing)?;
    let disk = MemDisk::new(alloc, b"hh\x00", 9, 5, failing)?;
    let (acknowledged, disk) = appended(alloc, disk, b"abc")?;
    let (least, most) = row.records;
    let faults = u64::from(!acknowledged);
    Ok(
        acknowledged == row.acknowledged
            && disk.faults() == faults
            && all_open(alloc, &disk, disk.moments(), least, most)?,
    )
}

#[test]
fn a_failed_call_leaves_the_records_before_or_one_more(rt: HostRuntime) -> Result<(), Fail> {
    for row in &ROWS {
        assert!(rt; fails_so(rt.alloc(), row)?);
    }
    Ok(())
}
