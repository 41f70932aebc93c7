// The files that are kept in memory.
ghost use Rattle.std.specs.Prelude.{◌≡◌, OnOk, OnErr, Some, option_copied, ◌∷◌};
ghost use Rattle.ksi_ports.specs.Memory.{LoadAnswers, held_in, up_to};

use crate::LoadRefusal;
use ksi_imprint::{Bytes, NoMemory};
use std::alloc::Global;

/// A file in memory.
#[derive(Drop)]
pub(crate) struct Entry {
    name: Bytes,
    bytes: Bytes,
}

/// The bytes of the first entry of that name.
pub(crate) fn bytes_at<'a>(entries: &'a [Entry], name: &str) -> Option<&'a Bytes>
    ensures { option_copied result ≡ held_in entries.now name.now }
{
    for entry in entries {
        if entry.name.as_slice() == name.as_bytes() {
            return Some(&entry.bytes);
        }
    }
    None
}

/// Puts an entry before the others.
pub(crate) fn put_first(
    alloc: Global,
    entries: &mut Vec<Entry>,
    name: &str,
    bytes: &[u8],
) -> Result<(), NoMemory>
    ensures ok { OnOk result (entries.new.items ≡ record { name = name.now; bytes = bytes.now } ∷ entries.old.items) }
    ensures err { OnErr result (entries.new.items ≡ entries.old.items) }
{
    let name = Bytes::copy_of(alloc, name.as_bytes())?;
    let bytes = Bytes::copy_of(alloc, bytes)?;
    entries.insert(0, Entry { name, bytes })?;
    Ok(())
}

/// A copy of the bytes of a file, which are to be at most `most`.
pub(crate) fn copied_up_to(alloc: Global, bytes: &[u8], most: usize) -> Result<Bytes, LoadRefusal>
    ensures { LoadAnswers (up_to most (Some bytes.now)) result }
{
    if bytes.len() > most {
        return Err(LoadRefusal::TooLong);
    }
    Ok(Bytes::copy_of(alloc, bytes)?)
}
