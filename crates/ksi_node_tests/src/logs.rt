use ksi_disk::{MemDisk, OpenRefusal, Record, open_log};
use std::alloc::Global;
use std::test::Fail;

/// Opens the disk's log behind a header of two bytes, and appends the record. Whether it was acknowledged, and the disk.
pub fn appended(alloc: Global, disk: MemDisk, content: &[u8; 3]) -> Result<(bool, MemDisk), Fail> {
    let mut record = Record::with_room(alloc, 3)?;
    if record.room() == 3 {
        record.put(content);
    }
    match open_log(alloc, disk, 2) {
        Ok(opened) => {
            let mut log = opened.log;
            let acknowledged = log.append(record) == Ok(());
            Ok((acknowledged, log.into_disk()))
        }
        Err((_, disk)) => Ok((false, disk)),
    }
}

/// A disk of these bytes, with room for two records, after both are appended. Whether they were acknowledged, and the disk.
pub fn both_appended(alloc: Global, file: &[u8]) -> Result<(bool, MemDisk), Fail> {
    let disk = MemDisk::new(alloc, file, 18, 10, Vec::new(alloc))?;
    let (first, disk) = appended(alloc, disk, b"abc")?;
    let (second, disk) = appended(alloc, disk, b"xyz")?;
    Ok((first && second, disk))
}

/// How many records a file opens to behind a header of so many bytes; or the refusal, and whether the disk is left as it was.
pub fn opened(
    alloc: Global,
    file: &[u8],
    from: u64,
) -> Result<Result<usize, (OpenRefusal, bool)>, Fail> {
    let disk = MemDisk::new(alloc, file, 0, 1, Vec::new(alloc))?;
    Ok(match open_log(alloc, disk, from) {
        Ok(opened) => Ok(opened.records.len()),
        Err((refusal, disk)) => Err((refusal, disk.bytes() == file)),
    })
}

#[test]
fn records_are_written_behind_their_gates(rt: HostRuntime) -> Result<(), Fail> {
    let (acknowledged, disk) = both_appended(rt.alloc(), b"hh\x09garbage")?;
    assert!(rt; acknowledged);
    assert!(rt; disk.bytes() == b"hh\x01\x00\x00\x00\x03abc\x01\x00\x00\x00\x03xyz\x00".as_slice());
    assert!(rt; disk.left() == (0, 0));
    assert!(rt; disk.faults() == 0);
    Ok(())
}
