//! Files that are held: signatures verified, journals and publications files loaded, blocks made of logs.

use crate::clock::{Timed, now, since};
use crate::joins::last_byte;
use ksi_imprint::{Bytes, Compress, Imprint, Sha};
use ksi_journal::load;
use ksi_logblock::block_of;
use ksi_ports::{Files, HostFiles};
use ksi_publications::{Publications, read};
use ksi_verifier::{BytesVerdict, verify_bytes};
use std::alloc::Global;

/// The longest file.
const LIMIT: usize = 67_108_864;

/// Verifies the bytes of a signature of the hash of nothing against publications, so many times.
pub(crate) fn verify(rt: &HostRuntime, count: u64, names: &[String]) -> Option<Timed> {
    let signature = file(rt, names, 0)?;
    let publications = read_file(rt, names)?;
    let begun = now(rt);
    since(
        rt,
        begun,
        Some(accepted(count, signature.as_slice(), &publications)),
    )
}

/// The publications file that stands second.
fn read_file(rt: &HostRuntime, names: &[String]) -> Option<Publications> {
    read(rt.alloc(), file(rt, names, 1)?.as_slice()).ok()
}

/// Loads a journal, so many times.
pub(crate) fn journal(rt: &HostRuntime, count: u64, names: &[String]) -> Option<Timed> {
    let bytes = file(rt, names, 0)?;
    let begun = now(rt);
    since(rt, begun, journals(rt.alloc(), count, bytes.as_slice()))
}

fn journals(alloc: Global, count: u64, bytes: &[u8]) -> Option<u8> {
    let mut byte = 0;
    for _ in 0..count {
        byte ^= (load::<Sha>(alloc, bytes).ok()?.seconds().len() % 256) as u8;
    }
    Some(byte)
}

/// Reads a publications file, so many times.
pub(crate) fn publications(rt: &HostRuntime, count: u64, names: &[String]) -> Option<Timed> {
    let bytes = file(rt, names, 0)?;
    let begun = now(rt);
    since(rt, begun, lists(rt.alloc(), count, bytes.as_slice()))
}

fn lists(alloc: Global, count: u64, bytes: &[u8]) -> Option<u8> {
    let mut byte = 0;
    for _ in 0..count {
        byte ^= (read(alloc, bytes).ok()?.pairs().len() % 256) as u8;
    }
    Some(byte)
}

/// Makes the block of a log, and its root, so many times.
pub(crate) fn block(rt: &HostRuntime, count: u64, names: &[String]) -> Option<Timed> {
    let log = file(rt, names, 0)?;
    let begun = now(rt);
    since(rt, begun, blocks(rt.alloc(), count, log.as_slice()))
}

fn blocks(alloc: Global, count: u64, log: &[u8]) -> Option<u8> {
    let mut byte = 0;
    for _ in 0..count {
        let block = block_of::<Sha>(alloc, [1; 32], log).ok()?;
        byte ^= last_byte(&block.root()?.imprint);
    }
    Some(byte)
}

/// The file that stands at this place.
fn file(rt: &HostRuntime, names: &[String], place: usize) -> Option<Bytes> {
    let name = names.get(place)?;
    HostFiles::new(rt)
        .load(rt.alloc(), name.as_str(), LIMIT)
        .ok()
}

/// How often it is accepted, modulo 256.
fn accepted(count: u64, signature: &[u8], publications: &Publications) -> u8 {
    let hash = Sha::of(b"");
    let mut times: u8 = 0;
    for _ in 0..count {
        times = times.wrapping_add(accepts(signature, &hash, publications));
    }
    times
}

fn accepts(signature: &[u8], hash: &Imprint, publications: &Publications) -> u8 {
    match verify_bytes::<Sha>(signature, hash, publications) {
        BytesVerdict::Accepted(_) => 1,
        BytesVerdict::Refused(_) | BytesVerdict::Malformed(_) => 0,
    }
}
