//! Items that keep where they came from.
ghost use Rattle.std.specs.Prelude.{◌<◌, length};

use crate::printed::put_item;
use crate::rounds::{put_climb, put_node};
use crate::same::same;
use crate::text::Text;
use ksi_aggtree::{AddRefusal, Entries, Entry, Item, Origin};
use ksi_imprint::{Compress, NoMemory, Refused, Sha};
use std::alloc::Global;
use std::process::Abort;
use std::test::Fail;

/// An item that the request 7 made, and one that aggregator 3 submitted.
fn two(alloc: Global) -> Result<Entries<Sha>, Refused<AddRefusal>> {
    let mut entries = Entries::new(alloc)?;
    entries.add(Entry {
        origin: Origin::Request(7),
        item: Item::new(Sha::of(b""), 0),
    })?;
    entries.add(Entry {
        origin: Origin::Aggregator(3),
        item: Item::new(Sha::of(b"abc"), 2),
    })?;
    Ok(entries)
}

pub(crate) fn put_origin(text: &mut Text, origin: Origin) {
    match origin {
        Origin::Request(number) => text.number("request ", number),
        Origin::Aggregator(aggregator) => text.number("a", u64::from(aggregator)),
    }
}

fn put_entry(text: &mut Text, entries: &Entries<Sha>, k: usize) -> Result<(), NoMemory>
    requires { k < length entries.now }
{
    let entry = entries.entry(k);
    put_origin(text, entry.origin);
    put_item(text, &entry.item);
    put_climb(text, &entry.item, entries.path(k)?.as_slice());
    text.end();
    Ok(())
}

/// The candidate and the root, whether there are items of aggregators 3 and 7, and each item with its way.
fn put_entries(text: &mut Text, entries: &Entries<Sha>) -> Result<(), NoMemory> {
    text.imprint(&entries.candidate());
    put_node(text, entries.root());
    text.number("a3 ", u64::from(entries.has_from(3)));
    text.number("a7 ", u64::from(entries.has_from(7)));
    text.end();
    for k in 0..entries.count() {
        put_entry(text, entries, k)?;
    }
    Ok(())
}

fn are_told(
    rt: &impl Abort,
    alloc: Global,
    entries: &Entries<Sha>,
    want: &str,
) -> Result<(), Fail> {
    let mut text = Text::new(alloc);
    put_entries(&mut text, entries)?;
    same(rt, "entries", text.as_str().trim_end(), want);
    Ok(())
}

const TWO: &str = "A-B A-B 3 a3 1 a7 0
request 7 A 0 / L 2 B shape 3 A-B 3
a3 B 2 / R 0 A shape 2 A-B 3";

#[test]
fn items_keep_where_they_came_from(rt: HostRuntime) -> Result<(), Fail> {
    let entries = two(rt.alloc())?;
    are_told(&rt, rt.alloc(), &entries, TWO)
}

const NONE: &str = "Z - a3 0 a7 0";

#[test]
fn no_items_have_no_root(rt: HostRuntime) -> Result<(), Fail> {
    let entries = Entries::new(rt.alloc())?;
    are_told(&rt, rt.alloc(), &entries, NONE)
}
