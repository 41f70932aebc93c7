use ksi_disk::{MemDisk, open_log};
use ksi_nodestore::{Header, HeaderFault, format, header};
use ksi_synod::CorePlan;
use std::alloc::Global;
use std::test::Fail;

struct Row {
    bytes: &'static [u8],
    answer: Result<Header, HeaderFault>,
}

static ROWS: [Row; 6] = [
    Row {
        bytes: b"KSINODE1\x00",
        answer: Err(HeaderFault::NotFormatted),
    },
    Row {
        bytes: b"KSINODE2\x00\x01\x00\x00\x00\x00\x65\x53\xf1\x00",
        answer: Err(HeaderFault::NotFormatted),
    },
    Row {
        bytes: b"KSINODE1\x00\x01\x00\x00\x00\x00\x65\x53\xf1\x00",
        answer: Ok(Header {
            core: 0,
            cores: 1,
            start: 1_700_000_000,
        }),
    },
    Row {
        bytes: b"KSINODE1\x00\x00\x00\x00\x00\x00\x65\x53\xf1\x00\x00",
        answer: Err(HeaderFault::Bad(0, 0, 1_700_000_000)),
    },
    Row {
        bytes: b"KSINODE1\x02\x0a\x00\x00\x00\x00\x00\x00\x00\x01",
        answer: Err(HeaderFault::Bad(2, 10, 1)),
    },
    Row {
        bytes: b"KSINODE1\x02\x03\x7f\xff\xff\xff\xff\x00\x00\x01",
        answer: Err(HeaderFault::Bad(2, 3, (1 << 63) - (1 << 24) + 1)),
    },
];

#[test]
fn a_header_is_read(rt: HostRuntime) -> Result<(), Fail> {
    for row in &ROWS {
        assert!(rt; header(row.bytes) == row.answer);
    }
    Ok(())
}

fn formatted(alloc: Global) -> Result<MemDisk, Fail> {
    let mut disk = MemDisk::new(alloc, b"", 19, 3, Vec::new(alloc))?;
    let plan = CorePlan::new(1, 1_700_000_000);
    let _ = format(0, &plan, &mut disk);
    Ok(disk)
}

fn opens_without_records(alloc: Global, disk: MemDisk) -> bool {
    match open_log(alloc, disk, 18) {
        Ok(opened) => opened.records.len() == 0,
        Err(_) => false,
    }
}

#[test]
fn an_empty_disk_is_formatted(rt: HostRuntime) -> Result<(), Fail> {
    let alloc = rt.alloc();
    let disk = formatted(alloc)?;
    assert!(rt; disk.bytes() == b"KSINODE1\x00\x01\x00\x00\x00\x00\x65\x53\xf1\x00\x00".as_slice());
    assert!(rt; disk.left() == (0, 1));
    assert!(rt; opens_without_records(alloc, disk));
    Ok(())
}
