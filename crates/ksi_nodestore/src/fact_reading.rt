// How a fact is read of its spelling.
ghost use Rattle.std.specs.Prelude.{◌≡◌, ◌<◌, ◌^◌, IfOk, IfSome};
ghost use Rattle.std.specs.Int.{w64, to_be_bytes};
ghost use Rattle.ksi_imprint.specs.Reading.{imprint_at};
ghost use Rattle.ksi_nodestore.specs.Texts.{tag_of, what_text, FitsWhat, IsReadOf};
ghost use Rattle.ksi_nodestore.specs.TextReading.{ballot_at, cast_at, fact_at, root_of, sealed_at, what_at};

use crate::entry_reading::read_entries;
use crate::numbers::{number4, number8};
use ksi_corenode::{Fact, SealedItems, What};
use ksi_imprint::{Imprint, NoMemory};
use ksi_synod::Vote;
use std::alloc::Global;

/// The fact whose spelling the bytes are, none where they are no fact's.
///
/// # Errors
/// `NoMemory`: nothing is read.
pub fn read_fact(alloc: Global, bytes: &[u8]) -> Result<Option<Fact>, NoMemory>
    ensures sound { IfOk result (IsReadOf bytes.now) }
    ensures read { IfOk result (λ found. found ≡ fact_at bytes.now) }
{
    if bytes.len() < 9 {
        return Ok(None);
    }
    let (_, second) = bytes.split_at(1);
    let (_, rest) = bytes.split_at(9);
    match read_what(alloc, bytes[0], rest)? {
        None => Ok(None),
        Some(what) => {
            let second = number8(second);
            Ok(Some(Fact { second, what }))
        }
    }
}

/// What this byte says that the bytes are, none where they are not that.
fn read_what(alloc: Global, tag: u8, bytes: &[u8]) -> Result<Option<What>, NoMemory>
    ensures read { IfOk result (λ found. found ≡ what_at tag bytes.now) }
    ensures sound { IfOk result (λ found. IfSome found (λ what. FitsWhat what × (tag_of what ≡ tag) × (what_text what ≡ bytes.now))) }
{
    match tag {
        1 => read_sealed(alloc, bytes),
        2 => Ok(read_ballot(bytes).map(|ballot| What::Tried(ballot))),
        3 => Ok(read_ballot(bytes).map(|ballot| What::Promised(ballot))),
        4 => Ok(read_cast(bytes)),
        5 => Ok(read_root(bytes)),
        _ => Ok(None),
    }
}

/// Sealed items.
fn read_sealed(alloc: Global, bytes: &[u8]) -> Result<Option<What>, NoMemory>
    ensures read { IfOk result (λ found. found ≡ sealed_at bytes.now) }
    ensures sound { IfOk result (λ found. IfSome found (λ what. FitsWhat what × (tag_of what ≡ 1) × (what_text what ≡ bytes.now))) }
{
    if bytes.len() < 4 {
        return Ok(None);
    }
    let (count, rest) = bytes.split_at(4);
    match read_entries(alloc, number4(count), rest)? {
        None => Ok(None),
        Some(entries) => Ok(Some(What::Sealed(SealedItems::from_vec(entries)))),
    }
}

/// A ballot, and no bytes behind it.
fn read_ballot(bytes: &[u8]) -> Option<u64>
    ensures read { result ≡ ballot_at bytes.now }
    ensures sound { IfSome result (λ ballot. (ballot < 2 ^ 64) × (to_be_bytes w64 ballot ≡ bytes.now)) }
{
    if bytes.len() == 8 {
        Some(number8(bytes))
    } else {
        None
    }
}

/// A vote.
fn read_cast(bytes: &[u8]) -> Option<What>
    ensures read { result ≡ cast_at bytes.now }
    ensures sound { IfSome result (λ what. FitsWhat what × (tag_of what ≡ 4) × (what_text what ≡ bytes.now)) }
{
    if bytes.len() < 8 {
        return None;
    }
    let (ballot, imprint) = bytes.split_at(8);
    match Imprint::read(imprint) {
        Err(_) => None,
        Ok(imprint) => {
            let ballot = number8(ballot);
            Some(What::Cast(Vote { ballot, imprint }))
        }
    }
}

/// A root.
fn read_root(bytes: &[u8]) -> Option<What>
    ensures read { result ≡ root_of (imprint_at bytes.now) }
    ensures sound { IfSome result (λ what. FitsWhat what × (tag_of what ≡ 5) × (what_text what ≡ bytes.now)) }
{
    match Imprint::read(bytes) {
        Err(_) => None,
        Ok(root) => Some(What::Holds(root)),
    }
}
