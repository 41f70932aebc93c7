use crate::same::same;
use ksi_imprint::{Bytes, Compress, Imprint, NoMemory, Sha};
use ksi_publications::{Publications, PublicationsFault, Refused, read, write};
use std::alloc::Global;
use std::process::Abort;
use std::slice;
use std::test::Fail;

/// The magic and what stands behind it.
fn file(alloc: Global, behind: &[&[u8]]) -> Result<Bytes, NoMemory> {
    let mut text = b"KSIPUBLF".to_vec(alloc)?;
    for part in behind {
        text.extend_from_slice(part)?;
    }
    Ok(Bytes::from_vec(text))
}

/// The only pair of a file, nothing where it has not one.
fn listed(
    alloc: Global,
    bytes: &[u8],
) -> Result<Option<(u64, Imprint)>, Refused<PublicationsFault>> {
    match read(alloc, bytes) {
        Ok(publications) => match publications.pairs() {
            [pair] => Ok(Some(*pair)),
            _ => Ok(None),
        },
        Err(refused) => Err(refused),
    }
}

fn lists(
    rt: &impl Abort,
    alloc: Global,
    behind: &[&[u8]],
    want: Result<Option<(u64, Imprint)>, Refused<PublicationsFault>>,
) -> Result<(), Fail> {
    let text = file(alloc, behind)?;
    same(rt, behind.len(), listed(alloc, text.as_slice()), want);
    Ok(())
}

/// What stands behind the magic has this fault.
fn has_fault(
    rt: &impl Abort,
    alloc: Global,
    behind: &[&[u8]],
    fault: PublicationsFault,
) -> Result<(), Fail> {
    lists(rt, alloc, behind, Err(Refused::Fault(fault)))
}

/// A header, and a record of second 0 but for the digest.
static FRONT: [u8; 19] = [
    0x87, 0x01, 0x00, 0x05, 0x01, 0x01, 0x01, 0x02, 0x00, 0x87, 0x03, 0x00, 0x27, 0x10, 0x25, 0x02,
    0x00, 0x04, 0x21,
];

/// The file of a hash in second 0.
fn is_written(rt: &impl Abort, alloc: Global, hash: Imprint, want: &[u8]) -> Result<(), Fail> {
    let written = write(alloc, 0, &[(0, hash)])?;
    same(rt, "written", written.as_slice(), want);
    Ok(())
}

#[test]
fn one_record_is_sixty_bytes(rt: HostRuntime) -> Result<(), Fail> {
    let hash = Sha::of(b"");
    let text = file(rt.alloc(), &[&FRONT, hash.bytes()])?;
    same(&rt, "length", text.as_slice().len(), 60);
    is_written(&rt, rt.alloc(), hash, text.as_slice())
}

#[test]
fn reads_one_record_and_nothing_behind_it(rt: HostRuntime) -> Result<(), Fail> {
    let hash = Sha::of(b"");
    lists(
        &rt,
        rt.alloc(),
        &[&FRONT, hash.bytes()],
        Ok(Some((0, hash))),
    )?;
    let fault = PublicationsFault::RefusedElement(1796, 60);
    let behind: [&[u8]; 3] = [&FRONT, hash.bytes(), &[0x87, 0x04, 0x00, 0x00]];
    has_fault(&rt, rt.alloc(), &behind, fault)
}

#[test]
fn the_magic_comes_first(rt: HostRuntime) {
    same(
        &rt,
        "magic",
        listed(rt.alloc(), b"KSIPUBL"),
        Err(Refused::Fault(PublicationsFault::Magic)),
    );
}

/// Worked out by hand: what stands behind the magic.
#[test]
fn answers_the_first_fault(rt: HostRuntime) -> Result<(), Fail> {
    static ROWS: [(&[u8], PublicationsFault); 13] = [
        (&[], PublicationsFault::Missing(1793, 0)),
        (&[0x87], PublicationsFault::Tlv(8)),
        (&[0x87, 0x01, 0x00, 0x05, 0x01], PublicationsFault::Tlv(8)),
        (
            &[0x87, 0x02, 0x00, 0x00],
            PublicationsFault::RefusedElement(1794, 8),
        ),
        (
            &[0x87, 0x05, 0x00, 0x00],
            PublicationsFault::UnknownCritical(1797, 8),
        ),
        (
            &[0xc7, 0x05, 0x00, 0x00],
            PublicationsFault::Missing(1793, 0),
        ),
        (
            &[0x87, 0x01, 0x00, 0x03, 0x01, 0x01, 0x01],
            PublicationsFault::Missing(2, 8),
        ),
        (
            &[
                0x87, 0x01, 0x00, 0x04, 0x01, 0x00, 0x02, 0x00, 0x87, 0x01, 0x00, 0x00,
            ],
            PublicationsFault::Repeated(1793, 16),
        ),
        (
            &[
                0x87, 0x01, 0x00, 0x0b, 0x01, 0x09, 0, 0, 0, 0, 0, 0, 0, 0, 0,
            ],
            PublicationsFault::Number(12),
        ),
        (
            &[
                0x87, 0x01, 0x00, 0x0c, 0x01, 0x00, 0x02, 0x08, 0x80, 0, 0, 0, 0, 0, 0, 0,
            ],
            PublicationsFault::Time(14),
        ),
        (&[0x87, 0x03, 0x00, 0x00], PublicationsFault::Missing(16, 8)),
        (
            &[0x87, 0x03, 0x00, 0x04, 0x10, 0x02, 0x02, 0x00],
            PublicationsFault::Missing(4, 12),
        ),
        (
            &[
                0x87, 0x03, 0x00, 0x08, 0x10, 0x06, 0x02, 0x00, 0x04, 0x02, 0x01, 0x00,
            ],
            PublicationsFault::Imprint(16),
        ),
    ];
    for (behind, fault) in &ROWS {
        has_fault(&rt, rt.alloc(), slice::from_ref(behind), *fault)?;
    }
    Ok(())
}

/// A record before the header, long headers of short kinds, a number with a zero before it, and elements that may be
/// passed over in every container: what stands before the digest, and what stands behind it.
const PASSED_OVER: [&[u8]; 2] = [
    &[
        0x87, 0x03, 0x00, 0x32, 0x09, 0x01, 0xff, 0x5e, 0x00, 0x80, 0x10, 0x00, 0x29, 0x02, 0x02,
        0x00, 0x05, 0x04, 0x21,
    ],
    &[
        0x5e, 0x00, 0xc7, 0x05, 0x00, 0x00, 0x87, 0x01, 0x00, 0x07, 0x02, 0x00, 0x01, 0x00, 0x5e,
        0x01, 0xaa,
    ],
];

#[test]
fn passes_over_what_it_may(rt: HostRuntime) -> Result<(), Fail> {
    let hash = Sha::of(b"");
    let [front, end] = PASSED_OVER;
    lists(
        &rt,
        rt.alloc(),
        &[front, hash.bytes(), end],
        Ok(Some((5, hash))),
    )
}

/// The hashes of the seconds 5, 6 and 7 in a file, nothing where it is none.
fn found(alloc: Global, bytes: &[u8]) -> Option<[Option<Imprint>; 3]> {
    let publications = read(alloc, bytes).ok()?;
    Some([
        publications.find(5),
        publications.find(6),
        publications.find(7),
    ])
}

fn are_found(
    rt: &impl Abort,
    alloc: Global,
    pairs: &[(u64, Imprint)],
    want: [Option<Imprint>; 3],
) -> Result<(), Fail> {
    let file = write(alloc, 9, pairs)?;
    same(rt, "found", found(alloc, file.as_slice()), Some(want));
    Ok(())
}

#[test]
fn finds_the_first_of_a_time(rt: HostRuntime) -> Result<(), Fail> {
    let hash = Sha::of(b"");
    let pairs = [(5, hash), (5, Imprint::ZERO), (7, Imprint::ZERO)];
    let want = [Some(hash), None, Some(Imprint::ZERO)];
    are_found(&rt, rt.alloc(), &pairs, want)
}

#[test]
fn hands_its_pairs_over(rt: HostRuntime) -> Result<(), Fail> {
    let pairs = vec![in rt.alloc(); (5, Imprint::ZERO); 1]?;
    let again = Publications::from_vec(pairs).into_vec();
    same(&rt, "pairs", again.as_slice(), &[(5, Imprint::ZERO)]);
    Ok(())
}
