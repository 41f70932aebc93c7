ghost use Rattle.std.specs.Prelude.{◌≤◌, length};

use crate::same::same;
use ksi_imprint::{Compress, Imprint, Sha};
use ksi_tlv::grammar::{
    ElementFault, PublishedContent, RecordContent, algorithm, check, level, put_short, raw,
    recorded, written_published, written_record,
};
use ksi_tlv::{Elements, Placed, Writer};
use std::alloc::Global;
use std::process::Abort;
use std::test::Fail;

/// Worked out by hand: a container at place 100 whose body stands at place 104.
#[test]
fn answers_the_first_fault(rt: HostRuntime) {
    static CASES: [(&[u8], ElementFault); 11] = [
        (&[], ElementFault::Missing(2, 100)),
        (&[0x02, 0x00], ElementFault::Missing(4, 100)),
        (
            &[0x5e, 0x01, 0xff, 0x80, 0x02, 0x00, 0x02, 0x00, 0x05],
            ElementFault::Missing(4, 100),
        ),
        (
            &[0x02, 0x00, 0x1e, 0x00],
            ElementFault::UnknownCritical(0x1e, 106),
        ),
        (&[0x3e, 0x00], ElementFault::UnknownCritical(0x1e, 104)),
        (&[0x02, 0x02, 0x05], ElementFault::Tlv(104)),
        (&[0x02, 0x00, 0x04], ElementFault::Tlv(106)),
        (
            &[0x02, 0x00, 0x02, 0x09, 0, 0, 0, 0, 0, 0, 0, 0, 0],
            ElementFault::Repeated(2, 106),
        ),
        (
            &[0x02, 0x09, 0, 0, 0, 0, 0, 0, 0, 0, 0],
            ElementFault::Number(104),
        ),
        (
            &[0x02, 0x08, 0x80, 0, 0, 0, 0, 0, 0, 0],
            ElementFault::Time(104),
        ),
        (&[0x04, 0x02, 0x01, 0x00], ElementFault::Imprint(104)),
    ];
    for (body, want) in &CASES {
        same(
            &rt,
            body.len(),
            check::<PublishedContent>(100, 104, body),
            Err(*want),
        );
    }
}

fn first(bytes: &[u8]) -> Option<Placed<'_>> {
    match Elements::new(bytes).next() {
        Some(Ok(at)) => Some(at),
        _ => None,
    }
}

/// What the first element says as a level, as an algorithm and as a raw sibling.
fn says(bytes: &[u8]) -> Option<Said> {
    let at = first(bytes)?;
    Some((level(&at), algorithm(&at), raw(&at)))
}

type Said = (
    Result<u8, ElementFault>,
    Result<u64, ElementFault>,
    Result<(), ElementFault>,
);

#[test]
fn reads_levels_algorithms_and_raw_siblings(rt: HostRuntime) {
    static ROWS: [(&[u8], Said); 4] = [
        (
            &[0x01, 0x01, 0xff],
            (Ok(255), Err(ElementFault::Algorithm(255)), Ok(())),
        ),
        (
            &[0x01, 0x02, 0x01, 0x00],
            (
                Err(ElementFault::Number(0)),
                Err(ElementFault::Algorithm(256)),
                Ok(()),
            ),
        ),
        (
            &[0x01, 0x00],
            (
                Ok(0),
                Err(ElementFault::Algorithm(0)),
                Err(ElementFault::Sibling(0)),
            ),
        ),
        (&[0x06, 0x02, 0x00, 0x01], (Ok(1), Ok(1), Ok(()))),
    ];
    for (bytes, want) in &ROWS {
        same(&rt, bytes.len(), says(bytes), Some(*want));
    }
}

fn begins(rt: &impl Abort, bytes: &[u8], front: &[u8], size: usize) {
    same(rt, size, bytes.starts_with(front), true);
    same(rt, size, bytes.len(), size);
}

/// What the first element says as a publication record.
fn first_recorded(bytes: &[u8]) -> Result<Option<(u64, Imprint)>, ElementFault> {
    let Some(at) = first(bytes) else {
        return Ok(None);
    };
    check::<RecordContent>(at.place, at.inside, at.element.body)?;
    Ok(Some(recorded(&at)))
}

#[test]
fn writes_the_data_of_a_publication(rt: HostRuntime) -> Result<(), Fail> {
    static FRONT: [u8; 6] = [0x02, 0x01, 0x05, 0x04, 0x21, 0x01];
    let data = written_published(rt.alloc(), 5, &Sha::of(b""))?;
    begins(&rt, data.as_slice(), &FRONT, 38);
    Ok(())
}

/// The record of a hash in second 5, where it stands in an element.
fn is_recorded(rt: &impl Abort, alloc: Global, record: &[u8], hash: Imprint) -> Result<(), Fail>
    requires { length record.now ≤ 65535 }
{
    let mut writer = Writer::new(alloc);
    put_short(&mut writer, 0x803, record)?;
    let told = first_recorded(writer.bytes());
    same(rt, "record", told, Ok(Some((5, hash))));
    Ok(())
}

#[test]
fn writes_a_record_that_is_read_again(rt: HostRuntime) -> Result<(), Fail> {
    static FRONT: [u8; 8] = [0x10, 0x26, 0x02, 0x01, 0x05, 0x04, 0x21, 0x01];
    let hash = Sha::of(b"");
    let record = written_record(rt.alloc(), 5, &hash)?;
    begins(&rt, record.as_slice(), &FRONT, 40);
    is_recorded(&rt, rt.alloc(), record.as_slice(), hash)
}
