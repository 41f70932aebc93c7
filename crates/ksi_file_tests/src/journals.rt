// Journals that are loaded, asked and written again.
use crate::imprints::named;
use crate::same::same;
use crate::text::{bytes, is_text, is_told, sides};
use ksi_aggtree::chains::Node;
use ksi_imprint::{Bytes, Compress, Imprint, NoMemory, Tiny};
use ksi_journal::{Journal, Parts, Refused, Version, VersionRefusal, load, write, write_version};
use ksi_split::Side;
use ksi_split::Side::{Left, Right};
use std::alloc::Global;
use std::process::Abort;
use std::test::Fail;

/// The journal of these words.
pub(crate) fn journal_of<C: Compress>(alloc: Global, words: &str) -> Result<Journal<C>, Fail> {
    let text = bytes(alloc, words)?;
    match load::<C>(alloc, text.as_slice()) {
        Ok(journal) => Ok(journal),
        Err(_) => Err(Fail::from("it does not load")),
    }
}

/// What is written of a journal in version 1 or 2, or in its own.
fn written(
    alloc: Global,
    journal: &Journal<Tiny>,
    version: &str,
) -> Result<Bytes, Refused<VersionRefusal>> {
    match version {
        "1" => write_version(alloc, journal, Version::One),
        "2" => write_version(alloc, journal, Version::Two),
        _ => Ok(write(alloc, journal)?),
    }
}

/// The journal of a row is written as its words.
fn is_written(rt: &impl Abort, alloc: Global, row: &str) -> Result<(), Fail> {
    let (words, _) = sides(row);
    let (version, words) = words.split_once(" ").unwrap_or(("", words));
    let journal = journal_of::<Tiny>(alloc, words)?;
    is_told(rt, alloc, row, written(alloc, &journal, version))
}

/// A version, a journal that is loaded, and what is written of it in that version, or in its own: voters and names want
/// version 2.
const WRITTEN: &str =
    "own J1 010105 0229010105 0221 one 030101 0322 one 00 0228010106 0221 zero 0300 0229010108 0221 pair 030102 0322 two 00 0322 three 00 040701000203070809 0526010106 0221 four 0600 = J1 010105 0229010105 0221 one 030101 0322 one 00 0228010106 0221 zero 0300 0229010108 0221 pair 030102 0322 two 00 0322 three 00 040701000203070809 0526010106 0221 four 0600
own J2 01046553f100 0600 = J1 01046553f100 0600
1 J2 01046553f100 0600 = J1 01046553f100 0600
2 J2 01046553f100 0600 = J2 01046553f100 0600
own J1 01046553f100 0600 = J1 01046553f100 0600
own J2 01046553f100 0809 01046553f100 020102 022b 01046553f100 0221 zero 0300 0600 = J2 01046553f100 0809 01046553f100 020102 022b 01046553f100 0221 zero 0300 0600
1 J2 01046553f100 0809 01046553f100 020102 022b 01046553f100 0221 zero 0300 0600 = NeedsTwo
2 J2 01046553f100 0809 01046553f100 020102 022b 01046553f100 0221 zero 0300 0600 = J2 01046553f100 0809 01046553f100 020102 022b 01046553f100 0221 zero 0300 0600
own J2 010105 0806010105020101 0807010107020201ff 0600 = J2 010105 0806010105020101 0807010107020201ff 0600
1 J2 010105 0806010105020101 0807010107020201ff 0600 = NeedsTwo
2 J2 010105 0806010105020101 0807010107020201ff 0600 = J2 010105 0806010105020101 0807010107020201ff 0600
own J2 010105 0229010105 0221 one 030101 0322 one ef 0600 = J1 010105 0229010105 0221 one 030101 0322 one ef 0600
1 J2 010105 0229010105 0221 one 030101 0322 one ef 0600 = J1 010105 0229010105 0221 one 030101 0322 one ef 0600
2 J2 010105 0229010105 0221 one 030101 0322 one ef 0600 = J2 010105 0229010105 0221 one 030101 0322 one ef 0600
own J1 010105 0229010105 0221 one 030101 0322 one ef 0600 = J1 010105 0229010105 0221 one 030101 0322 one ef 0600
own J2 010105 0229010105 0221 leaf 030101 0723 one ee 61 0600 = J2 010105 0229010105 0221 leaf 030101 0723 one ee 61 0600
1 J2 010105 0229010105 0221 leaf 030101 0723 one ee 61 0600 = NeedsTwo
2 J2 010105 0229010105 0221 leaf 030101 0723 one ee 61 0600 = J2 010105 0229010105 0221 leaf 030101 0723 one ee 61 0600
own J2 010105 0229010105 0221 wide 030101 0762 one 00 61616161616161616161616161616161616161616161616161616161616161616161616161616161616161616161616161616161616161616161616161616161 0600 = J2 010105 0229010105 0221 wide 030101 0762 one 00 61616161616161616161616161616161616161616161616161616161616161616161616161616161616161616161616161616161616161616161616161616161 0600
1 J2 010105 0229010105 0221 wide 030101 0762 one 00 61616161616161616161616161616161616161616161616161616161616161616161616161616161616161616161616161616161616161616161616161616161 0600 = NeedsTwo
2 J2 010105 0229010105 0221 wide 030101 0762 one 00 61616161616161616161616161616161616161616161616161616161616161616161616161616161616161616161616161616161616161616161616161616161 0600 = J2 010105 0229010105 0221 wide 030101 0762 one 00 61616161616161616161616161616161616161616161616161616161616161616161616161616161616161616161616161616161616161616161616161616161 0600";

#[test]
fn what_is_loaded_is_written_again(rt: HostRuntime) -> Result<(), Fail> {
    for row in WRITTEN.lines() {
        is_written(&rt, rt.alloc(), row)?;
    }
    Ok(())
}

const EMPTY: &str = "J1 01046553f100 0600";

/// The first missing second up to another one.
fn misses(rt: &impl Abort, journal: &Journal<Tiny>, rows: &[(&str, u64, Option<u64>)]) {
    for (row, last, want) in rows {
        same(rt, *row, journal.first_missing(*last), *want);
    }
}

fn keeps_no_second(rt: &impl Abort, journal: &Journal<Tiny>) {
    static MISSING: [(&str, u64, Option<u64>); 2] = [
        ("missing", 1_700_000_000, Some(1_700_000_000)),
        ("none before", 1_699_999_999, None),
    ];
    same(rt, "start", journal.start(), 1_700_000_000);
    same(rt, "root", journal.root(1_700_000_000), None);
    misses(rt, journal, &MISSING);
}

#[test]
fn the_empty_journal_keeps_no_second(rt: HostRuntime) -> Result<(), Fail> {
    let journal = journal_of::<Tiny>(rt.alloc(), EMPTY)?;
    keeps_no_second(&rt, &journal);
    Ok(())
}

fn keeps_roots(rt: &impl Abort, journal: &Journal<Tiny>) {
    static ROOTS: [(&str, u64, Option<u8>); 4] = [
        ("5", 5, Some(1)),
        ("6", 6, Some(0)),
        ("7", 7, None),
        ("8", 8, Some(8)),
    ];
    for (row, second, first) in &ROOTS {
        same(rt, *row, journal.root(*second), first.map(named));
    }
}

fn keeps_seconds(rt: &impl Abort, journal: &Journal<Tiny>) {
    static MISSING: [(&str, u64, Option<u64>); 2] = [
        ("missing to 6", 6, None),
        ("missing to 9", 9, Some(7)),
    ];
    same(rt, "zero", named(0), Imprint::ZERO);
    keeps_roots(rt, journal);
    misses(rt, journal, &MISSING);
}

fn keeps_one_publication(rt: &impl Abort, journal: &Journal<Tiny>) {
    same(rt, "items", journal.items(8).len(), 2);
    same(rt, "issued", journal.issued().len(), 1);
    same(rt, "count", journal.calendar().count(), 2);
    same(rt, "publications", journal.publications(), &[(6, named(4))]);
}

/// The level and the first byte of the digest of a node.
type Short = (u8, u8);

fn short(node: Node) -> Short {
    (node.level, node.imprint.bytes()[1])
}

/// The root of a second's tree, and its node on a way from there.
fn nodes(journal: &Journal<Tiny>, second: u64, way: &[Side]) -> Option<(Short, Option<Short>)> {
    let tree = journal.tree(second)?;
    match tree.node(way) {
        Some(node) => Some((short(tree.root()), Some(short(node)))),
        None => Some((short(tree.root()), None)),
    }
}

fn keeps_trees(rt: &impl Abort, journal: &Journal<Tiny>) {
    static NODES: [(&str, u64, &[Side], Option<(Short, Option<Short>)>); 7] = [
        ("5", 5, &[], Some(((0, 1), Some((0, 1))))),
        ("6", 6, &[], None),
        ("7", 7, &[], None),
        ("8", 8, &[], Some(((1, 8), Some((1, 8))))),
        ("8 left", 8, &[Left], Some(((1, 8), Some((0, 2))))),
        ("8 right", 8, &[Right], Some(((1, 8), Some((0, 3))))),
        ("8 below", 8, &[Left, Right], Some(((1, 8), None))),
    ];
    for (row, second, way, want) in &NODES {
        same(rt, *row, nodes(journal, *second, way), *want);
    }
}

fn keeps_whole(rt: &impl Abort, journal: &Journal<Tiny>) {
    keeps_seconds(rt, journal);
    keeps_one_publication(rt, journal);
    keeps_trees(rt, journal);
}

/// One item, a second that was missed, two items; a signature and a publication.
const WHOLE: &str =
    "J1 010105 0229010105 0221 one 030101 0322 one 00 0228010106 0221 zero 0300 0229010108 0221 pair 030102 0322 two 00 0322 three 00 040701000203070809 0526010106 0221 four 0600";

#[test]
fn a_journal_answers_what_was_loaded(rt: HostRuntime) -> Result<(), Fail> {
    let journal = journal_of::<Tiny>(rt.alloc(), WHOLE)?;
    keeps_whole(&rt, &journal);
    Ok(())
}

fn of_nothing(alloc: Global) -> Result<Journal<Tiny>, NoMemory> {
    let parts = Parts {
        start: 5,
        voters: Vec::new(alloc),
        seconds: Vec::new(alloc),
        issued: Vec::new(alloc),
        publications: Vec::new(alloc),
    };
    Journal::new(alloc, parts)
}

const NOTHING: &str = "written = J1 010105 0600";

fn is_nothing(rt: &impl Abort, alloc: Global, journal: &Journal<Tiny>) -> Result<(), Fail> {
    same(rt, "start", journal.start(), 5);
    let text = write(alloc, journal)?;
    is_text(rt, alloc, NOTHING, text.as_slice())
}

#[test]
fn a_journal_of_nothing_is_made(rt: HostRuntime) -> Result<(), Fail> {
    let journal = of_nothing(rt.alloc())?;
    is_nothing(&rt, rt.alloc(), &journal)
}
