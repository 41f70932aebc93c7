// The texts of the files of nodes.
use crate::found::Found;
use crate::kinds::put_fault;
use ksi_imprint::{NoMemory, Refused, Sha};
use ksi_lines::node_fault_line;
use ksi_nodestore::inspect;
use ksi_texts::Word::{Number, Second, Text};
use ksi_texts::put;
use std::alloc::Global;

/// How many bytes the header of an aggregator's file has.
const HEADER: usize = 20;

pub(crate) fn put_node(
    alloc: Global,
    text: &mut Vec<u8>,
    n: usize,
    bytes: &[u8],
) -> Result<Found, NoMemory> {
    match inspect::<Sha>(alloc, bytes) {
        Ok(inspected) => {
            let counts = inspected.counts;
            put(
                text,
                &[
                    Text("file of core"),
                    Number(inspected.core as u64),
                    Text("with records"),
                    Number(counts.records),
                    Text("seconds sealed"),
                    Number(counts.sealed),
                    Text("held"),
                    Number(counts.held),
                ],
            )?;
            Ok(Found::Ours)
        }
        Err(Refused::Fault(fault)) => put_fault(text, &node_fault_line(n, fault)),
        Err(Refused::NoMemory) => Err(NoMemory),
    }
}

/// What the header of an aggregator's file says. Its records are not read.
pub(crate) fn put_rounds(text: &mut Vec<u8>, bytes: &[u8]) -> Result<Found, NoMemory> {
    if bytes.len() < HEADER {
        put(
            text,
            &[Text("file of an aggregator, cut off in its header")],
        )?;
        return Ok(Found::Malformed);
    }
    let (header, records) = bytes.split_at(HEADER);
    let (front, start) = header.split_at(12);
    put(
        text,
        &[
            Text("file of aggregator"),
            Number(number(front.split_at(8).1)),
            Text("from second"),
            Second(number(start)),
            Text("with bytes of records"),
            Number(records.len() as u64),
        ],
    )?;
    Ok(Found::Ours)
}

/// A number, most significant byte first.
fn number(bytes: &[u8]) -> u64 {
    let mut number = 0u64;
    for byte in bytes {
        number = number.wrapping_mul(256).wrapping_add(*byte as u64);
    }
    number
}
