use ksi_disk::{Disk, DiskFailed, MemDisk, write_through};
use std::alloc::Global;
use std::test::Fail;

struct Row {
    failing: u64,
    answers: [bool; 6],
    bytes: &'static [u8],
    moments: usize,
}

// Which calls of the script succeed where the call of that number is to fail, and what is left.
static ROWS: [Row; 7] = [
    Row {
        failing: 9,
        answers: [true, true, true, true, true, true],
        bytes: b"12cdXYZ",
        moments: 4,
    },
    Row {
        failing: 0,
        answers: [false, true, true, true, true, true],
        bytes: b"12cdef",
        moments: 4,
    },
    Row {
        failing: 1,
        answers: [true, false, true, true, true, true],
        bytes: b"12cdXYZ",
        moments: 3,
    },
    Row {
        failing: 2,
        answers: [true, true, false, true, true, true],
        bytes: b"12cdXYZ",
        moments: 4,
    },
    Row {
        failing: 3,
        answers: [true, true, true, false, true, true],
        bytes: b"12cdXYZ",
        moments: 4,
    },
    Row {
        failing: 4,
        answers: [true, true, true, true, false, true],
        bytes: b"abcdXYZ",
        moments: 4,
    },
    Row {
        failing: 5,
        answers: [true, true, true, true, true, false],
        bytes: b"12cdXYZ",
        moments: 3,
    },
];

fn write(disk: &mut MemDisk, at: u64, piece: &[u8]) -> bool {
    at <= disk.bytes().len() as u64 && disk.write_at(at, piece).is_ok()
}

fn read(disk: &mut MemDisk, wanted: &[u8; 2]) -> bool {
    let mut buffer = [0; 2];
    disk.bytes().len() >= 4 && disk.read(2, &mut buffer).is_ok() && buffer == *wanted
}

fn script(disk: &mut MemDisk) -> [bool; 6] {
    let wrote = write(disk, 4, b"XYZ");
    let synced = disk.sync().is_ok();
    let was_read = read(disk, b"cd");
    let measured = disk.len().is_ok();
    let wrote_again = write(disk, 0, b"12");
    let synced_again = disk.sync().is_ok();
    [wrote, synced, was_read, measured, wrote_again, synced_again]
}

fn run(alloc: Global, row: &Row) -> Result<bool, Fail> {
    let mut failing = Vec::new(alloc);
    failing.push(row.failing)?;
    let mut disk = MemDisk::new(alloc, b"abcdef", 5, 4, failing)?;
    let faults = u64::from(row.failing < 6);
    Ok(
        script(&mut disk) == row.answers
            && disk.bytes() == row.bytes
            && disk.moments() == row.moments
            && disk.faults() == faults
            && disk.calls() == 6,
    )
}

#[test]
fn a_listed_call_alone_fails(rt: HostRuntime) -> Result<(), Fail> {
    for row in &ROWS {
        assert!(rt; run(rt.alloc(), row)?);
    }
    Ok(())
}

// Room for three bytes and two turns.
fn left_after(alloc: Global) -> Result<[(bool, (usize, usize)); 5], Fail> {
    let mut disk = MemDisk::new(alloc, b"", 3, 2, Vec::new(alloc))?;
    let wrote = (write(&mut disk, 0, b"ab"), disk.left());
    let past_the_room = (write(&mut disk, 2, b"cd"), disk.left());
    let synced = (disk.sync().is_ok(), disk.left());
    let no_turn = (disk.sync().is_ok(), disk.left());
    let measured = (disk.len() == Ok(2), disk.left());
    Ok([wrote, past_the_room, synced, no_turn, measured])
}

#[test]
fn room_and_turns_end(rt: HostRuntime) -> Result<(), Fail> {
    let left = left_after(rt.alloc())?;
    assert!(rt;
        left == [
            (true, (1, 1)),
            (false, (1, 1)),
            (true, (1, 0)),
            (false, (1, 0)),
            (true, (1, 0))
        ]
    );
    Ok(())
}

#[test]
fn a_write_goes_through(rt: HostRuntime) -> Result<(), Fail> {
    let alloc = rt.alloc();
    let mut disk = MemDisk::new(alloc, b"abc", 9, 2, Vec::new(alloc))?;
    assert!(rt; write_through(&mut disk, 1, b"xyz").is_ok());
    assert!(rt; disk.bytes() == b"axyz".as_slice());
    assert!(rt; disk.sync() == Err(DiskFailed));
    Ok(())
}
