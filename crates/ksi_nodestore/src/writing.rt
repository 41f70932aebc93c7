// How a fact is spelled into a record.
ghost use Rattle.std.specs.Int.{w32, w64, to_be_bytes};
ghost use Rattle.std.specs.List.{flat_map};
ghost use Rattle.std.specs.Prelude.{◌≡◌, ◌≤◌, ◌<◌, ◌^◌, ◌+◌, ◌*◌, ◌++◌, ◌∷◌, [], true, length, All};
ghost use Rattle.ksi_aggtree.specs.Rounds.{most_items};
ghost use Rattle.ksi_corenode.specs.Lawful.{is_submitted, AreSubmitted};
ghost use Rattle.ksi_nodestore.specs.Texts.{entry_text, fact_text, name_text, number_of, tag_of, what_text, FitsWhat, IsSpelled, IsTextOf};
ghost use Rattle.ksi_nodestore.specs.Writing.{CanSpell, most_bytes};

use ksi_aggtree::{Entry, Name, Origin};
use ksi_corenode::{Fact, What};
use ksi_disk::Record;

/// Spells a fact into an empty record.
pub(crate) fn put_fact(record_: &mut Record, fact: &Fact)
    requires empty { record_.old.content ≡ [] }
    requires room { most_bytes fact.now.what ≤ record_.old.room }
    requires lawful { CanSpell fact.now.what }
    ensures text { IsTextOf fact.now record_.new.content }
{
    put_byte(record_, tag_of(&fact.what));
    put_number8(record_, fact.second);
    put_what(record_, &fact.what);
}

/// The byte that says what is stored.
fn tag_of(what: &What) -> u8
    ensures { result ≡ tag_of what.now }
{
    match what {
        What::Sealed(_) => 1,
        What::Tried(_) => 2,
        What::Promised(_) => 3,
        What::Cast(_) => 4,
        What::Holds(_) => 5,
    }
}

/// Spells what is stored.
fn put_what(record_: &mut Record, what: &What)
    requires room { most_bytes what.now ≤ record_.old.room + 9 }
    requires lawful { CanSpell what.now }
    ensures text { record_.new.content ≡ record_.old.content ++ what_text what.now }
    ensures fits { FitsWhat what.now }
{
    match what {
        What::Sealed(items) => {
            let entries = items.as_slice();
            put_number4(record_, entries.len() as u32);
            put_entries(record_, entries);
        }
        What::Tried(ballot) => put_number8(record_, *ballot),
        What::Promised(ballot) => put_number8(record_, *ballot),
        What::Cast(vote) => {
            put_number8(record_, vote.ballot);
            record_.put(vote.imprint.bytes());
        }
        What::Holds(root) => record_.put(root.bytes()),
    }
}

/// Spells items, one behind the other.
fn put_entries(record_: &mut Record, entries: &[Entry])
    requires room { 103 * length entries.now ≤ record_.old.room }
    requires lawful { AreSubmitted entries.now }
    ensures text { record_.new.content ≡ record_.old.content ++ flat_map entry_text entries.now }
    ensures spelled { All IsSpelled entries.now }
{
    'writing: for k in 0..entries.len() {
        put_entry(record_, &entries[k]);
    }
}

/// Spells an item.
fn put_entry(record_: &mut Record, entry: &Entry)
    requires room { 103 ≤ record_.old.room }
    requires submitted { is_submitted entry.now.origin ≡ true }
    ensures text { record_.new.content ≡ record_.old.content ++ entry_text entry.now }
    ensures room { record_.old.room ≤ record_.new.room + 103 }
    ensures spelled { IsSpelled entry.now }
{
    put_origin(record_, &entry.origin);
    record_.put(entry.item.imprint.bytes());
    put_byte(record_, entry.item.level);
    let _ = entry.item.is_named();
    put_name(record_, &entry.item.name);
}

/// Spells the aggregator that an item came from.
fn put_origin(record_: &mut Record, origin: &Origin)
    requires room { 4 ≤ record_.old.room }
    requires submitted { is_submitted origin.now ≡ true }
    ensures text { record_.new.content ≡ record_.old.content ++ to_be_bytes w32 (number_of origin.now) }
    ensures room { record_.old.room ≡ record_.new.room + 4 }
    ensures fits { number_of origin.now < 2 ^ 32 }
{
    match origin {
        Origin::Request(_) => unreachable!(),
        Origin::Aggregator(from) => put_number4(record_, *from),
    }
}

/// Spells a name, or that there is none.
fn put_name(record_: &mut Record, name: &Option<Name>)
    requires room { 65 ≤ record_.old.room }
    ensures text { record_.new.content ≡ record_.old.content ++ name_text name.now }
    ensures room { record_.old.room ≤ record_.new.room + 65 }
{
    match name {
        None => put_byte(record_, 0),
        Some(name) => {
            let bytes = name.as_bytes();
            put_byte(record_, bytes.len() as u8);
            record_.put(bytes);
        }
    }
}

fn put_byte(record_: &mut Record, byte: u8)
    requires room { 1 ≤ record_.old.room }
    ensures text { record_.new.content ≡ record_.old.content ++ byte ∷ [] }
    ensures room { record_.old.room ≡ record_.new.room + 1 }
{
    record_.put(&[byte]);
}

fn put_number4(record_: &mut Record, number: u32)
    requires room { 4 ≤ record_.old.room }
    ensures text { record_.new.content ≡ record_.old.content ++ to_be_bytes w32 number }
    ensures room { record_.old.room ≡ record_.new.room + 4 }
    ensures fits { number < 2 ^ 32 }
{
    record_.put(&number.to_be_bytes());
}

fn put_number8(record_: &mut Record, number: u64)
    requires room { 8 ≤ record_.old.room }
    ensures text { record_.new.content ≡ record_.old.content ++ to_be_bytes w64 number }
    ensures room { record_.old.room ≡ record_.new.room + 8 }
    ensures fits { number < 2 ^ 64 }
{
    record_.put(&number.to_be_bytes());
}
