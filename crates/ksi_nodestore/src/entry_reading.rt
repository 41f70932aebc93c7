// How items are read of their spelling.
ghost use Rattle.std.specs.Int.{w32, to_be_bytes};
ghost use Rattle.std.specs.List.{All, flat_map};
ghost use Rattle.std.specs.Prelude.{◌≡◌, ◌≤◌, ◌++◌, [], ◌∷◌, length, take, IfOk, IfSome, OnOk, Some, None};
ghost use Rattle.ksi_imprint.specs.Reading.{imprint_at};
ghost use Rattle.ksi_aggtree.specs.Names.{IsName};
ghost use Rattle.ksi_nodestore.specs.Texts.{entry_text, name_text, IsSpelled};
ghost use Rattle.ksi_nodestore.specs.TextReading.{entry_at, entry_of, entries_at, name_at, IsMore};

use crate::numbers::number4;
use ksi_aggtree::{Entry, Item, Name, Origin};
use ksi_imprint::{Imprint, NoMemory};
use std::alloc::Global;

/// How many bytes an item without a name has.
const NAMELESS: usize = 39;

/// This many items, and no bytes behind them; none where the bytes are not that.
pub(crate) fn read_entries(
    alloc: Global,
    count: u32,
    bytes: &[u8],
) -> Result<Option<Vec<Entry>>, NoMemory>
    ensures read { IfOk result (λ found. IfSome found (λ entries. entries_at count bytes.now ≡ Some entries.items)) }
    ensures sound { IfOk result (λ found. IfSome found (λ entries. (length entries.items ≡ count) × All IsSpelled entries.items × (flat_map entry_text entries.items ≡ bytes.now))) }
    ensures none { IfOk result (λ found. found ≡ None → entries_at count bytes.now ≡ None) }
{
    let mut entries = Vec::new(alloc);
    let mut place = 0;
    let mut left = count;
    'reading: while left > 0 {
        match read_more(bytes, place, &mut entries)? {
            None => return Ok(None),
            Some(next) => {
                place = next;
                left -= 1;
            }
        }
    }
    if place < bytes.len() {
        return Ok(None);
    }
    Ok(Some(entries))
}

/// Reads an item more, from a place on: the place behind it, none where no item is there.
fn read_more(
    bytes: &[u8],
    place: usize,
    entries: &mut Vec<Entry>,
) -> Result<Option<usize>, NoMemory>
    requires { place ≤ length bytes.now }
    ensures { IfOk result (IsMore bytes.now place entries.old.items entries.new.items) }
{
    let (_, rest) = bytes.split_at(place);
    match read_entry(rest) {
        None => Ok(None),
        Some(entry) => {
            keep(entries, &entry)?;
            Ok(Some(place + size_of(&entry)))
        }
    }
}

/// Puts a copy behind the others.
fn keep<T: Copy>(items: &mut Vec<T>, one: &T) -> Result<(), NoMemory>
    ensures { OnOk result (items.new.items ≡ items.old.items ++ one.now ∷ []) }
{
    items.push(*one)?;
    Ok(())
}

/// How many bytes an item has.
pub(crate) fn size_of(entry: &Entry) -> usize
    ensures size { result ≡ length (entry_text entry.now) }
    ensures few { result ≤ 103 }
{
    let imprint = entry.item.imprint.bytes().len();
    let name = match &entry.item.name {
        None => 0,
        Some(name) => name.as_bytes().len(),
    };
    6 + imprint + name
}

/// The item at the start of bytes, or none.
#[tactic(auto, unfolding(crate::specs::TextReading::entry_at))]
fn read_entry(bytes: &[u8]) -> Option<Entry>
    ensures read { result ≡ entry_at bytes.now }
    ensures sound { IfSome result (λ entry. IsSpelled entry × (take (length (entry_text entry)) bytes.now ≡ entry_text entry)) }
{
    if bytes.len() < NAMELESS {
        return None;
    }
    let (_, rest) = bytes.split_at(4);
    let (imprint, rest) = rest.split_at(33);
    let (_, name) = rest.split_at(2);
    let name = read_name(rest[1], name);
    entry_of(number4(bytes), imprint, rest[0], name)
}

/// An item of its parts.
fn entry_of(from: u32, imprint: &[u8], level: u8, name: Option<Option<Name>>) -> Option<Entry>
    requires { IfSome name (λ name. IfSome name IsName) }
    ensures read { result ≡ entry_of from (imprint_at imprint.now) level name }
    ensures sound { IfSome result (λ entry. IsSpelled entry × (entry_text entry ≡ to_be_bytes w32 from ++ (imprint.now ++ level ∷ name_text entry.item.name)) × (name ≡ Some entry.item.name)) }
{
    let imprint = Imprint::read(imprint).ok()?;
    let name = name?;
    let item = Item {
        imprint,
        level,
        name,
    };
    Some(Entry {
        origin: Origin::Aggregator(from),
        item,
    })
}

/// A name of this many bytes at the start of others, or none.
fn read_name(count: u8, bytes: &[u8]) -> Option<Option<Name>>
    ensures read { result ≡ name_at count bytes.now }
    ensures sound { IfSome result (λ name. IfSome name IsName × (take (length (name_text name)) (count ∷ bytes.now) ≡ name_text name)) }
{
    if count == 0 {
        return Some(None);
    }
    let count = count as usize;
    if bytes.len() < count {
        return None;
    }
    let (front, _) = bytes.split_at(count);
    match Name::read(front) {
        None => None,
        Some(name) => Some(Some(name)),
    }
}
