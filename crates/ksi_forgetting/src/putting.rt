//! The records of the new file: each one kept is copied byte for byte.
ghost use Rattle.std.specs.Prelude.{◌≡◌, ◌<◌, ◌^◌, ◌++◌, ◌∷◌, [], if◌then◌else◌, length, IfOk};
ghost use Rattle.ksi_corenode.specs.declared.fact.Fact.{Fact};
ghost use Rattle.ksi_disk.specs.Gates.{record_text};
ghost use Rattle.ksi_nodestore.specs.Texts.{IsTextOf};
ghost use Rattle.ksi_forgetting.specs.Puts.{is_early, is_root, stays, IsPut, IsPutAll, IsPutOf};

use ksi_corenode::{Fact, What};
use ksi_disk::Records;
use ksi_imprint::NoMemory;
use ksi_nodestore::laws::spellings_are_read_again;
use ksi_nodestore::read_fact;
use std::alloc::Global;

const OPEN: u8 = 1;

/// Appends the records that are kept to a text, and counts them.
pub(crate) fn put_all(
    alloc: Global,
    start: u64,
    horizon: u64,
    records: &Records,
    text: &mut Vec<u8>,
) -> Result<u64, NoMemory>
    ensures { IfOk result (IsPutAll (is_early start horizon) records.now (length records.now) text.old.items text.new.items) }
{
    let mut count = 0;
    'putting: for k in 0..records.len() {
        let more = put_left(alloc, start, horizon, records.get(k), text)?;
        count += more;
    }
    Ok(count)
}

/// Appends a record if it is kept.
fn put_left(
    alloc: Global,
    start: u64,
    horizon: u64,
    content: &[u8],
    text: &mut Vec<u8>,
) -> Result<u64, NoMemory>
    ensures { IfOk result (IsPutOf (is_early start horizon) content.now text.old.items text.new.items) }
{
    let stays = record_stays(alloc, start, horizon, content)?;
    put_where(stays, content, text)
}

/// Whether a record is kept, by the fact that it encodes.
fn record_stays(alloc: Global, start: u64, horizon: u64, content: &[u8]) -> Result<bool, NoMemory>
    ensures { IfOk result (λ stay. (fact : Fact) → IsTextOf fact content.now → stay ≡ stays (is_early start horizon) fact) }
{
    spellings_are_read_again();
    match read_fact(alloc, content)? {
        Some(fact) => Ok(fact_stays(start, horizon, &fact)),
        None => Ok(true),
    }
}

/// Whether a fact is kept.
fn fact_stays(start: u64, horizon: u64, fact: &Fact) -> bool
    ensures { result ≡ stays (is_early start horizon) fact.now }
{
    !(start <= fact.second && fact.second < horizon) || is_root(&fact.what)
}

/// Whether the fact is that a root is held.
fn is_root(what: &What) -> bool
    ensures { result ≡ is_root what.now }
{
    match what {
        What::Holds(_) => true,
        _ => false,
    }
}

/// Appends a record, if it is kept.
fn put_where(stays: bool, content: &[u8], text: &mut Vec<u8>) -> Result<u64, NoMemory>
    ensures { IfOk result (IsPut (if stays then content.now ∷ [] else []) text.old.items text.new.items) }
{
    if stays { put_one(text, content) } else { Ok(0) }
}

/// Appends one record.
fn put_one(text: &mut Vec<u8>, content: &[u8]) -> Result<u64, NoMemory>
    ensures { IfOk result (IsPut (content.now ∷ []) text.old.items text.new.items) }
{
    put_record(text, content)
}

/// Appends a record of this content.
///
/// # Errors
/// `NoMemory`, also if the content has 2^32 bytes or more.
fn put_record(text: &mut Vec<u8>, content: &[u8]) -> Result<u64, NoMemory>
    ensures one { IfOk result (λ count. count ≡ 1) }
    ensures text { IfOk result (λ count. text.new.items ≡ text.old.items ++ (record_text content.now ++ [])) }
    ensures small { IfOk result (λ count. length content.now < 2 ^ 32) }
{
    if content.len() >= 1 << 32 {
        return Err(NoMemory);
    }
    let count = content.len() as u32;
    text.push(OPEN)?;
    text.extend_from_slice(&count.to_be_bytes())?;
    text.extend_from_slice(content)?;
    Ok(1)
}
