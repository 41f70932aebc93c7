// Signatures: their first faults, and what is written of them.
use crate::same::same;
use crate::text::{bytes, is_refused, is_so, is_told, sides};
use ksi_imprint::{Bytes, Imprint, NoMemory, Refused};
use ksi_signature::{
    AggregationChain, Chains, Index, Links, Signature, WriteRefusal, check, read, view, write,
};
use std::alloc::Global;
use std::process::Abort;
use std::test::Fail;

/// The right side of a row is what is written of a signature.
fn is_written(
    rt: &impl Abort,
    alloc: Global,
    row: &str,
    signature: &Signature,
) -> Result<(), Fail> {
    is_told(rt, alloc, row, write(alloc, signature))
}

/// It is what is written of the signature that bytes are, or their fault.
fn is_read(rt: &impl Abort, alloc: Global, row: &str, text: &[u8]) -> Result<(), Fail> {
    match read(alloc, text) {
        Ok(signature) => is_written(rt, alloc, row, &signature),
        Err(refused) => is_refused(rt, alloc, row, Some(refused)),
    }
}

/// A view of bytes has the fault that a check has.
fn is_checked(rt: &impl Abort, row: &str, text: &[u8]) {
    same(rt, row, check(text).err(), view(text).err());
}

/// A check, a view and a reading of the left side of a row say what its right side says.
fn is_signature(rt: &impl Abort, alloc: Global, row: &str) -> Result<(), Fail> {
    let text = bytes(alloc, sides(row).0)?;
    is_checked(rt, row, text.as_slice());
    is_read(rt, alloc, row, text.as_slice())
}

fn are_read(rt: &impl Abort, alloc: Global, rows: &str) -> Result<(), Fail> {
    for row in rows.lines() {
        is_signature(rt, alloc, row)?;
    }
    Ok(())
}

/// Bytes and their first fault. Those with `07` before the calendar chain have a link with the body behind it.
const FAULTS: &str = " = Tlv(0)
88010000 = NotSignature(2049)
88000000 = Missing(2049, 0)
8800005a G 88020027 0100 0200 0521 01e3b0c44298fc1c149afbf4c8996fb92427ae41e4649b934ca495991b7852b8 = Tlv(0)
8800005a 880100ff 0200 030101 0521 A 060101 K = Tlv(4)
8800005a 8801002b 0229 030101 0521 A 060101 K = Number(8)
8800005a 8801002b 022a 030101 0521 A 060101 K = Tlv(8)
8800005a 8801002b 0200 030101 0522 A 060101 K = Imprint(13)
8800005a 8801002b 0200 030101 0521 02 D 060101 K = Imprint(13)
8800005a 8801002b 0200 030101 0521 A 060102 K = Algorithm(2)
8800005a 8804002b 0200 030101 0521 A 060101 K = RefusedElement(2052, 4)
8800005a 8801002b 0200 030101 0521 A 1e0101 K = UnknownCritical(30, 48)
8801005a G K = NotSignature(2049)
8800005c 8801002d 0200 030101 0521 A 060101 0700 K = Sibling(51)
8800005e 8801002f 0200 030101 0521 A 060101 0702 0300 K = Sibling(53)
88000061 88010032 0200 030101 0521 A 060101 0705 0301ff 0400 K = Sibling(56)
88000060 88010031 0200 030101 0521 A 060101 0704 0100 0100 K = Repeated(1, 55)
88000060 88010031 0200 030101 0521 A 060101 0704 0102 0100 K = Number(53)";

/// Worked out by hand: two chains, of one and of two index parts, a calendar chain without an aggregation time and a
/// publication record, with unknown elements in each, a long header of a short kind and numbers with zeros before them.
pub(crate) const TWO_CHAINS: &str =
    "88000102 G 8801004a 80020002 0005 0303 00012c 0300 0403 616263 0521 A 060101 0708 010102 0301ff 5e00 0804 04020102 5e00 8802004c 010109 0521 A 0721 A 5e0100 8803002f 1026 020109 0421 A 0901aa 0a00 5e00 5e00";

/// Signatures that are read, and what is written of them: it stands in the order of the format, without what is unknown.
const WRITTEN: &str = "8800005a G K = 8800005a G K
88000102 G 8801004a 80020002 0005 0303 00012c 0300 0403 616263 0521 A 060101 0708 010102 0301ff 5e00 0804 04020102 5e00 8802004c 010109 0521 A 0721 A 5e0100 8803002f 1026 020109 0421 A 0901aa 0a00 5e00 5e00 = 880000f6 88010042 020105 0302012c 0300 0403616263 0521 A 060101 0706 010102 0301ff 0804 04020102 G 8802004c 010109 020109 0521 A 0721 A 8803002d 1026 020109 0421 A 0901aa 0a00
880000f6 88010042 020105 0302012c 0300 0403616263 0521 A 060101 0706 010102 0301ff 0804 04020102 G 8802004c 010109 020109 0521 A 0721 A 8803002d 1026 020109 0421 A 0901aa 0a00 = 880000f6 88010042 020105 0302012c 0300 0403616263 0521 A 060101 0706 010102 0301ff 0804 04020102 G 8802004c 010109 020109 0521 A 0721 A 8803002d 1026 020109 0421 A 0901aa 0a00
8800007f 88010050 0200 030101 0521 A 060101 0723 0221 A K = 8800007f 88010050 0200 030101 0521 A 060101 0723 0221 A K
88000082 88010053 0200 030101 0521 A 060101 0726 0101ff 0221 A K = 88000082 88010053 0200 030101 0521 A 060101 0726 0101ff 0221 A K
8800005f 88010030 0200 030101 0521 A 060101 0703 0301ff K = 8800005f 88010030 0200 030101 0521 A 060101 0703 0301ff K
88000061 88010032 0200 030101 0521 A 060101 0705 0100 040105 K = 8800005f 88010030 0200 030101 0521 A 060101 0703 040105 K
88000063 88010034 0200 030101 0521 A 060101 0707 0301ff 01020007 K = 88000062 88010033 0200 030101 0521 A 060101 0706 010107 0301ff K";

static TABLES: [&str; 2] = [FAULTS, WRITTEN];

#[test]
fn answers_the_first_fault_or_writes_in_the_order_of_the_format(
    rt: HostRuntime,
) -> Result<(), Fail> {
    for rows in &TABLES {
        are_read(&rt, rt.alloc(), rows)?;
    }
    Ok(())
}

/// One chain with so many bytes of input data and nothing else.
fn with_input(alloc: Global, size: usize) -> Result<Signature, NoMemory> {
    let mut parts = Vec::new(alloc);
    parts.push(1)?;
    let chain = AggregationChain {
        time: 0,
        index: Index::from_vec(parts),
        input_body: Some(Bytes::from_vec(vec![in alloc; 0; size]?)),
        input: Imprint::ZERO,
        links: Links::from_vec(Vec::new(alloc)),
    };
    let mut chains = Vec::new(alloc);
    chains.push(chain)?;
    Ok(Signature {
        chains: Chains::from_vec(chains),
        calendar: None,
        publication: None,
    })
}

/// How many bytes the input data has, and the whole signature: the chain has 47 bytes beside the input data, and the signature
/// 4 beside the chain.
const SIZES: &str = "65484 = 65539
65485 = TooLong(65536)
65489 = TooLong(65536)
70000 = TooLong(70000)";

/// How many bytes are written of a signature.
fn size_of(alloc: Global, signature: &Signature) -> Result<usize, Refused<WriteRefusal>> {
    Ok(write(alloc, signature)?.as_slice().len())
}

fn size_with(alloc: Global, size: usize) -> Result<usize, Refused<WriteRefusal>> {
    let signature = with_input(alloc, size)?;
    size_of(alloc, &signature)
}

fn has_size(rt: &impl Abort, alloc: Global, row: &str) -> Result<(), Fail> {
    match size_with(alloc, sides(row).0.parse()?) {
        Ok(size) => is_so(rt, alloc, row, size),
        Err(refused) => is_refused(rt, alloc, row, Some(refused)),
    }
}

#[test]
fn the_first_body_above_the_limit_is_too_long(rt: HostRuntime) -> Result<(), Fail> {
    for row in SIZES.lines() {
        has_size(&rt, rt.alloc(), row)?;
    }
    Ok(())
}
