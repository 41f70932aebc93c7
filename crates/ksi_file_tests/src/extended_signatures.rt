// Signatures that are given another calendar chain and publication record.
use crate::imprints::hash;
use crate::text::{bytes, is_refused, is_told, sides};
use ksi_imprint::{Bytes, NoMemory, Refused};
use ksi_signature::laws::shown_is_of_bytes;
use ksi_signature::{
    Bodies, CalendarChain, CalendarLinks, PublicationRecord, SignatureView, WithRefusal,
    WriteRefusal, view, with_calendar,
};
use std::alloc::Global;
use std::process::Abort;
use std::test::Fail;

/// The calendar chain `K`.
fn calendar(alloc: Global) -> CalendarChain {
    CalendarChain {
        publication: 0,
        time: 0,
        input: hash(),
        links: CalendarLinks::from_vec(Vec::new(alloc)),
    }
}

/// The record `R`, with a reference of so many zero bytes, where they are more than none.
fn record(alloc: Global, size: usize) -> Result<PublicationRecord, NoMemory> {
    let mut references = Vec::new(alloc);
    if size > 0 {
        references.push(Bytes::from_vec(vec![in alloc; 0; size]?))?;
    }
    Ok(PublicationRecord {
        time: 0,
        hash: hash(),
        references: Bodies::from_vec(references),
        repositories: Bodies::from_vec(Vec::new(alloc)),
    })
}

/// The new bytes, or the refusal.
fn extended(alloc: Global, bytes: &[u8], size: usize) -> Result<Bytes, Refused<WithRefusal>> {
    let published = record(alloc, size)?;
    with_calendar(alloc, bytes, &calendar(alloc), &published)
}

/// The same of a view.
fn renewed(alloc: Global, lent: &SignatureView<'_>) -> Result<Bytes, Refused<WriteRefusal>> {
    shown_is_of_bytes(lent);
    let published = record(alloc, 0)?;
    lent.with_calendar(alloc, &calendar(alloc), &published)
}

/// The new bytes of a view are the words on the right side of a row; what is no signature has no view.
fn is_renewed(rt: &impl Abort, alloc: Global, row: &str, bytes: &[u8]) -> Result<(), Fail> {
    match view(bytes) {
        Ok(lent) => is_told(rt, alloc, row, renewed(alloc, &lent)),
        Err(_) => Ok(()),
    }
}

/// Both say what the row says.
fn are_extended(rt: &impl Abort, alloc: Global, row: &str) -> Result<(), Fail> {
    let text = bytes(alloc, sides(row).0)?;
    is_renewed(rt, alloc, row, text.as_slice())?;
    is_told(rt, alloc, row, extended(alloc, text.as_slice(), 0))
}

/// Signatures, and what they are extended to: it retains what is to be passed on, with its header as it is.
const EXTENDED: &str = "8800005a G K = 88000085 G K R
88000085 G K R = 88000085 G K R
8800005a K G = 88000085 G K R
8800005c G K 5e00 = 88000085 G K R
8800005e 7e00 G 5e00 K = 88000087 7e00 G K R
88000061 e01e0001ff K e801002d c0020000 030101 0521 A 060101 = 8800008c e01e0001ff e801002d c0020000 030101 0521 A 060101 K R
8800005e e801002d c0020000 030101 0521 A 060101 K 7e00 = 88000089 e801002d c0020000 030101 0521 A 060101 7e00 K R
8800005a G R = 88000085 G K R
8800005a G 88020027 0100 0200 0521 01e3b0c44298fc1c149afbf4c8996fb92427ae41e4649b934ca495991b7852b8 = Malformed(Tlv(0))";

#[test]
fn retains_what_is_to_be_passed_on(rt: HostRuntime) -> Result<(), Fail> {
    for row in EXTENDED.lines() {
        are_extended(&rt, rt.alloc(), row)?;
    }
    Ok(())
}

/// A signature whose record has a reference of so many bytes.
fn is_limited(rt: &impl Abort, alloc: Global, size: usize, row: &str) -> Result<(), Fail> {
    let text = bytes(alloc, "8800005a G K")?;
    is_refused(rt, alloc, row, extended(alloc, text.as_slice(), size).err())
}

#[test]
fn the_first_body_above_the_limit_is_too_long(rt: HostRuntime) -> Result<(), Fail> {
    is_limited(&rt, rt.alloc(), 65_398, "65398 = None")?;
    is_limited(&rt, rt.alloc(), 65_399, "65399 = TooLong(65536)")
}
