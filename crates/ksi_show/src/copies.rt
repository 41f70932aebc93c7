// The texts of what is copied and proved beside journals: mirrors, fronts and the proofs of lines.
use crate::found::Found;
use crate::kinds::put_fault;
use ksi_consistency::read_front;
use ksi_imprint::{Imprint, NoMemory, Refused};
use ksi_lines::{front_fault_line, journal_fault_line, proof_fault_line};
use ksi_logblock::read_proof;
use ksi_mirror::{SealedList, load_mirror};
use ksi_texts::Word::{Digest, Number, Second, Text};
use ksi_texts::put;
use std::alloc::Global;

pub(crate) fn put_mirror(
    alloc: Global,
    text: &mut Vec<u8>,
    n: usize,
    bytes: &[u8],
) -> Result<Found, NoMemory> {
    match load_mirror(alloc, bytes) {
        Ok(mirror) => {
            put(text, &[Text("mirror from second"), Second(mirror.start())])?;
            put_roots(text, mirror.roots())?;
            put_lists(text, mirror.lists())
        }
        Err(Refused::Fault(fault)) => put_fault(text, &journal_fault_line(n, &fault)),
        Err(Refused::NoMemory) => Err(NoMemory),
    }
}

fn put_roots(text: &mut Vec<u8>, roots: &[(u64, Imprint)]) -> Result<(), NoMemory> {
    put(text, &[Text("  roots"), Number(roots.len() as u64)])?;
    if let (Some(first), Some(last)) = (roots.first(), roots.last()) {
        put(text, &[Text("  first root"), Second(first.0)])?;
        put(text, &[Text("  last root"), Second(last.0)])?;
    }
    Ok(())
}

fn put_lists(text: &mut Vec<u8>, lists: &[SealedList]) -> Result<Found, NoMemory> {
    let mut items = 0u64;
    for list in lists {
        items = items.saturating_add(list.items.as_slice().len() as u64);
    }
    put(
        text,
        &[
            Text("  sealed lists"),
            Number(lists.len() as u64),
            Text("items"),
            Number(items),
        ],
    )?;
    Ok(Found::Ours)
}

pub(crate) fn put_front(
    alloc: Global,
    text: &mut Vec<u8>,
    n: usize,
    bytes: &[u8],
) -> Result<Found, NoMemory> {
    match read_front(alloc, bytes) {
        Ok(front) => {
            put(
                text,
                &[
                    Text("front of the calendar to second"),
                    Second(front.p1()),
                    Text("in that to"),
                    Second(front.p2()),
                    Text("with hashes"),
                    Number(front.list().len() as u64),
                ],
            )?;
            Ok(Found::Ours)
        }
        Err(Refused::Fault(fault)) => put_fault(text, &front_fault_line(n, fault)),
        Err(Refused::NoMemory) => Err(NoMemory),
    }
}

pub(crate) fn put_proof(
    alloc: Global,
    text: &mut Vec<u8>,
    n: usize,
    bytes: &[u8],
) -> Result<Found, NoMemory> {
    match read_proof(alloc, bytes) {
        Ok(proof) => {
            put(
                text,
                &[
                    Text("proof of a log line with links"),
                    Number(proof.links.as_slice().len() as u64),
                    Text("and the mask"),
                    Digest(&proof.mask),
                ],
            )?;
            Ok(Found::Ours)
        }
        Err(Refused::Fault(fault)) => put_fault(text, &proof_fault_line(n, fault)),
        Err(Refused::NoMemory) => Err(NoMemory),
    }
}
