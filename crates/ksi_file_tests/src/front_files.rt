use crate::same::same;
use ksi_consistency::{Front, FrontFault, Imprints, NoMemory, Refused, read_front, write_front};
use ksi_imprint::{Bytes, Imprint};
use std::alloc::Global;
use std::process::Abort;
use std::test::Fail;

/// Row 1's front: of a calendar in itself.
static SHORT: [u8; 20] = [
    0x4b, 0x53, 0x49, 0x46, 0x52, 0x4e, 0x54, 0x31, 0x01, 0x04, 0x65, 0x53, 0xf1, 0x00, 0x02, 0x04,
    0x65, 0x53, 0xf1, 0x00,
];

fn fault(alloc: Global, bytes: &[u8]) -> Option<FrontFault> {
    match read_front(alloc, bytes) {
        Ok(_) => None,
        Err(Refused::Fault(fault)) => Some(fault),
        Err(Refused::NoMemory) => None,
    }
}

#[test]
fn a_front_without_imprints_is_written(rt: HostRuntime) -> Result<(), Fail> {
    let none = Imprints::from_vec(Vec::new(rt.alloc()));
    let front = Front::new(1_700_000_000, 1_700_000_000, none);
    let text = write_front(rt.alloc(), &front)?;
    same(&rt, "text", text.as_slice(), SHORT.as_slice());
    Ok(())
}

/// The file of a front of two imprints.
fn written(alloc: Global) -> Result<Bytes, NoMemory> {
    let list = vec![in alloc; Imprint::ZERO, Imprint::ZERO]?;
    write_front(alloc, &Front::new(0, 2, Imprints::from_vec(list)))
}

/// Both seconds of a file, how many imprints it has, and whether these are zero.
fn read(alloc: Global, bytes: &[u8]) -> Option<(u64, u64, usize, bool)> {
    let front = read_front(alloc, bytes).ok()?;
    let zero = front.list().iter().all(|it| *it == Imprint::ZERO);
    Some((front.p1(), front.p2(), front.list().len(), zero))
}

#[test]
fn written_as_it_is_read(rt: HostRuntime) -> Result<(), Fail> {
    let text = written(rt.alloc())?;
    same(&rt, "size", text.as_slice().len(), 8 + 2 + 3 + 2 * 35);
    same(
        &rt,
        "front",
        read(rt.alloc(), text.as_slice()),
        Some((0, 2, 2, true)),
    );
    Ok(())
}

fn faults(rt: &impl Abort, alloc: Global, rows: &[(&[u8], FrontFault)]) -> Result<(), NoMemory> {
    for (rest, want) in rows {
        let mut bytes = b"KSIFRNT1".to_vec(alloc)?;
        bytes.extend_from_slice(rest)?;
        same(rt, "fault", fault(alloc, bytes.as_slice()), Some(*want));
    }
    Ok(())
}

#[test]
fn first_faults(rt: HostRuntime) -> Result<(), Fail> {
    static ROWS: [(&[u8], FrontFault); 11] = [
        (&[], FrontFault::Order(8)),
        (&[0x01], FrontFault::Tlv(8)),
        (&[0x02, 0x00], FrontFault::Order(8)),
        (&[0x41, 0x00], FrontFault::Order(10)),
        (&[0x01, 0x00, 0x01, 0x00], FrontFault::Order(10)),
        (
            &[0x01, 0x09, 0, 0, 0, 0, 0, 0, 0, 0, 0],
            FrontFault::Number(8),
        ),
        (
            &[0x01, 0x08, 0x80, 0, 0, 0, 0, 0, 0, 0],
            FrontFault::Number(8),
        ),
        (
            &[0x01, 0x01, 0x05, 0x02, 0x01, 0x04],
            FrontFault::Number(11),
        ),
        (
            &[0x01, 0x00, 0x02, 0x00, 0x03, 0x01, 0x01],
            FrontFault::Imprint(12),
        ),
        (&[0x01, 0x00, 0x02, 0x00, 0x5e, 0x00], FrontFault::Order(12)),
        (
            &[0x01, 0x00, 0x02, 0x00, 0x03, 0x05, 0x01],
            FrontFault::Tlv(12),
        ),
    ];
    faults(&rt, rt.alloc(), &ROWS)?;
    same(
        &rt,
        "magic",
        fault(rt.alloc(), b"KSIFRNT"),
        Some(FrontFault::Magic),
    );
    Ok(())
}
