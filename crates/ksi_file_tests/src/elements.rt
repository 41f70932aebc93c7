ghost use Rattle.std.specs.Prelude.{◌≤◌};

use crate::same::same;
use ksi_tlv::{
    Elements, NoMemory, NumberFault, PutRefusal, Refused, TlvFault, Writer, number, read_one,
};
use std::alloc::Global;
use std::process::Abort;
use std::test::Fail;

/// Vectors worked out by hand from the layout of headers.
#[test]
fn reads_one_element(rt: HostRuntime) {
    static CASES: [(&[u8], Result<(u16, bool, bool, &[u8], usize), TlvFault>); 12] = [
        (
            &[0x01, 0x02, 0xaa, 0xbb],
            Ok((1, false, false, &[0xaa, 0xbb], 4)),
        ),
        (&[0x01, 0x00, 0xff], Ok((1, false, false, &[], 2))),
        (&[0x5e, 0x00], Ok((0x1e, true, false, &[], 2))),
        (&[0x3f, 0x01, 0x07], Ok((0x1f, false, true, &[0x07], 3))),
        (&[0x7e, 0x00], Ok((0x1e, true, true, &[], 2))),
        (
            &[0x88, 0x01, 0x00, 0x01, 0x09],
            Ok((0x801, false, false, &[0x09], 5)),
        ),
        (&[0xff, 0xff, 0x00, 0x00], Ok((0x1fff, true, true, &[], 4))),
        (
            &[0x80, 0x01, 0x00, 0x01, 0xaa],
            Ok((1, false, false, &[0xaa], 5)),
        ),
        (&[0x01, 0x02, 0xaa], Err(TlvFault::Short(4, 3))),
        (&[], Err(TlvFault::Short(2, 0))),
        (&[0x88, 0x00], Err(TlvFault::Short(4, 2))),
        (&[0x88, 0x00, 0x01, 0x00], Err(TlvFault::Short(260, 4))),
    ];
    for (at, (bytes, want)) in CASES.iter().enumerate() {
        same(&rt, at, front(bytes), *want);
    }
}

fn front(bytes: &[u8]) -> Result<(u16, bool, bool, &[u8], usize), TlvFault> {
    let (element, size) = read_one(bytes)?;
    Ok((
        element.kind,
        element.non_critical,
        element.forward,
        element.body,
        size,
    ))
}

#[test]
fn reads_a_number(rt: HostRuntime) {
    static CASES: [(&[u8], Result<u64, NumberFault>); 7] = [
        (&[], Ok(0)),
        (&[0x00], Ok(0)),
        (&[0x00, 0x05], Ok(5)),
        (&[0x01, 0x02, 0x03], Ok(66_051)),
        (&[0x65, 0x53, 0xf1, 0x00], Ok(1_700_000_000)),
        (&[0xff; 8], Ok(u64::MAX)),
        (&[0x00; 9], Err(NumberFault::Long(9))),
    ];
    for (at, (bytes, want)) in CASES.iter().enumerate() {
        same(&rt, at, number(bytes), *want);
    }
}

// Its place, the place of its body, its kind and its body's length, or where it is cut off.
type Told = Result<(usize, usize, u16, usize), (usize, TlvFault)>;

fn next_of(walk: &mut Elements<'_>) -> Option<Told> {
    match walk.next()? {
        Ok(at) => Some(Ok((at.place, at.inside, at.element.kind, at.element.body.len()))),
        Err(cut) => Some(Err(cut)),
    }
}

fn walks(rt: &impl Abort, walk: &mut Elements<'_>, items: &[Option<Told>]) {
    for (at, want) in items.iter().enumerate() {
        same(rt, at, next_of(walk), *want);
    }
}

#[test]
fn walks_to_the_element_that_is_cut_off(rt: HostRuntime) {
    static BYTES: [u8; 12] = [
        0x01, 0x01, 0xaa, 0x88, 0x01, 0x00, 0x02, 0xbb, 0xbb, 0x02, 0x03, 0xcc,
    ];
    static ITEMS: [Option<Told>; 5] = [
        Some(Ok((100, 102, 1, 1))),
        Some(Ok((103, 107, 0x801, 2))),
        Some(Err((109, TlvFault::Short(5, 3)))),
        None,
        None,
    ];
    walks(&rt, &mut Elements::at(100, &BYTES), &ITEMS);
}

#[test]
fn walks_three_elements(rt: HostRuntime) {
    static BYTES: [u8; 9] = [0x01, 0x00, 0x7e, 0x01, 0x00, 0x80, 0x20, 0x00, 0x00];
    static ITEMS: [Option<Told>; 4] = [
        Some(Ok((0, 2, 1, 0))),
        Some(Ok((2, 4, 0x1e, 1))),
        Some(Ok((5, 9, 0x20, 0))),
        None,
    ];
    walks(&rt, &mut Elements::new(&BYTES), &ITEMS);
}

fn writes(
    rt: &impl Abort,
    alloc: Global,
    flags: (bool, bool),
    kind: u16,
    size: usize,
    header: &[u8],
) -> Result<(), NoMemory>
    requires { kind ≤ 0x1fff }
{
    let body = vec![in alloc; 0xaau8; size]?;
    let mut writer = Writer::new(alloc);
    let put = writer.put(kind, flags.0, flags.1, &body);
    same(rt, size, put, Ok(()));
    same(
        rt,
        size,
        writer.bytes().strip_prefix(header),
        Some(body.as_slice()),
    );
    Ok(())
}

#[test]
fn writes_the_shorter_form(rt: HostRuntime) -> Result<(), Fail> {
    let alloc = rt.alloc();
    const CASES: [(u16, (bool, bool), usize, &[u8]); 9] = [
        (0x01, (false, false), 2, &[0x01, 0x02]),
        (0x1f, (false, false), 0, &[0x1f, 0x00]),
        (0x20, (false, false), 0, &[0x80, 0x20, 0x00, 0x00]),
        (0x1e, (true, false), 1, &[0x5e, 0x01]),
        (0x1e, (false, true), 1, &[0x3e, 0x01]),
        (0x801, (false, false), 0, &[0x88, 0x01, 0x00, 0x00]),
        (0x1fff, (true, true), 255, &[0xff, 0xff, 0x00, 0xff]),
        (0x1f, (false, false), 255, &[0x1f, 0xff]),
        (0x1f, (false, false), 256, &[0x80, 0x1f, 0x01, 0x00]),
    ];
    for (kind, flags, size, header) in CASES {
        writes(&rt, alloc, flags, kind, size, header)?;
    }
    Ok(())
}

fn put_zeros(
    alloc: Global,
    writer: &mut Writer,
    size: usize,
) -> Result<Result<(), Refused<PutRefusal>>, NoMemory> {
    let body = vec![in alloc; 0u8; size]?;
    Ok(writer.put(0x02, false, false, &body))
}

#[test]
fn refuses_a_body_above_65535_bytes(rt: HostRuntime) -> Result<(), Fail> {
    let alloc = rt.alloc();
    let mut writer = Writer::new(alloc);
    let puts = [
        put_zeros(alloc, &mut writer, 65_535)?,
        put_zeros(alloc, &mut writer, 65_536)?,
    ];
    let long = Refused::Fault(PutRefusal::TooLong(65_536));
    same(&rt, 0, puts, [Ok(()), Err(long)]);
    same(&rt, 1, writer.bytes().len(), 65_539);
    Ok(())
}

fn put_four(writer: &mut Writer) -> [bool; 4] {
    [
        writer.put(0x01, false, false, &[0xaa, 0xbb]).is_ok(),
        writer.put_number(0x02, 1_700_000_000).is_ok(),
        writer.put_number(0x03, 0).is_ok(),
        writer.put_number(0x801, 256).is_ok(),
    ]
}

#[test]
fn writes_elements_one_behind_the_other(rt: HostRuntime) {
    static WANT: [u8; 18] = [
        0x01, 0x02, 0xaa, 0xbb, 0x02, 0x04, 0x65, 0x53, 0xf1, 0x00, 0x03, 0x00, 0x88, 0x01, 0x00,
        0x02, 0x01, 0x00,
    ];
    let mut writer = Writer::new(rt.alloc());
    same(&rt, 0, put_four(&mut writer), [true; 4]);
    same(&rt, 1, writer.into_vec().as_slice(), &WANT);
}
