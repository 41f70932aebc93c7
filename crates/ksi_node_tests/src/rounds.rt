//! Rounds of items as rows of text, and what their trees have.
ghost use Rattle.std.specs.Prelude.{◌≡◌, ◌<◌, ◌≤◌, length, IfSome};
ghost use Rattle.ksi_aggtree.specs.Rounds.{leaf_level};

use crate::printed::{put_item, put_links};
use crate::same::same;
use crate::text::{Text, meant};
use ksi_aggtree::chains::{Link, Node, climb, shape};
use ksi_aggtree::{AddRefusal, Builder, Item, ItemPath, Name, Steps};
use ksi_imprint::{Compress, Imprint, NoMemory, Refused, Sha, Tiny};
use ksi_split::Side;
use std::alloc::Global;
use std::marker::Brand;
use std::process::Abort;
use std::sync::ledger::{Blank, Ledger};
use std::test::Fail;

/// The item of a row: its digest, its level and its name, if it has one.
pub(crate) fn item_of(row: &str) -> Option<Item>
    ensures { IfSome result (λ item. leaf_level item ≤ 239) }
{
    let mut words = row.split_whitespace();
    let imprint = Imprint::from_hex(meant(words.next()?)).ok()?;
    let level: u8 = words.next()?.parse().ok()?;
    let name = Name::read(words.next().unwrap_or("").as_bytes());
    if level > 238 {
        return None;
    }
    Some(Item::new(imprint, level).with_name(name))
}

/// The round of the items of rows.
fn gathered(alloc: Global, rows: &str) -> Result<Builder<Sha>, Fail> {
    let mut round = Builder::new(alloc)?;
    for row in rows.lines() {
        if let Some(item) = item_of(row) {
            round.add(item)?;
        }
    }
    Ok(round)
}

/// The sides that letters stand for.
pub(crate) fn sides_of(alloc: Global, letters: &str) -> Result<Vec<Side>, NoMemory> {
    let mut sides = Vec::new(alloc);
    for letter in letters.chars() {
        let side = if letter == 'L' {
            Side::Left
        } else {
            Side::Right
        };
        sides.push(side)?;
    }
    Ok(sides)
}

/// A node, or a dash.
pub(crate) fn put_node(text: &mut Text, node: Option<Node>) {
    match &node {
        Some(node) => {
            text.imprint(&node.imprint);
            text.number("", u64::from(node.level));
        }
        None => text.word("-"),
    }
}

/// Links, their shape, and the node that they lead to from the item.
pub(crate) fn put_climb(text: &mut Text, item: &Item, links: &[Link]) {
    text.word("/");
    put_links(text, links);
    if links.len() <= 63 {
        text.number("shape ", shape(links));
    }
    put_node(
        text,
        climb::<Sha, Link>(item.imprint, item.level, links).ok(),
    );
}

fn counted<L: Ledger>(round: &Builder<Sha>, k: usize, blank: Blank) -> Result<ItemPath, NoMemory>
    requires name { blank.name ≡ L.name }
    requires parts { blank.parts ≡ L.parts }
    requires one { blank.parts ≡ 1 }
    requires there { k < length round.now }
{
    let mut steps = Steps::<L>::open(blank);
    round.path_counted(k, &mut steps)
}

/// The links of an item, with the steps counted.
fn counted_path(round: &Builder<Sha>, k: usize) -> Result<ItemPath, NoMemory>
    requires { k < length round.now }
{
    counted::<Brand>(round, k, Blank::new(1))
}

/// An item, its leaf and its links, without and with the steps counted.
fn put_path(text: &mut Text, round: &Builder<Sha>, k: usize) -> Result<(), NoMemory>
    requires { k < length round.now }
{
    let item = round.item(k);
    put_item(text, &item);
    put_node(text, Some(item.leaf::<Sha>()));
    put_climb(text, &item, round.path(k)?.as_slice());
    put_climb(text, &item, counted_path(round, k)?.as_slice());
    text.end();
    Ok(())
}

const SIDES: &str = "L R LL LR RL RR RLL";

/// The node at the sides of these letters.
fn put_node_at(
    text: &mut Text,
    alloc: Global,
    round: &Builder<Sha>,
    letters: &str,
) -> Result<(), NoMemory> {
    let sides = sides_of(alloc, letters)?;
    text.word(letters);
    put_node(text, round.node(sides.as_slice()));
    text.end();
    Ok(())
}

/// How many items there are, the root and the way of each item.
fn put_items(text: &mut Text, round: &Builder<Sha>) -> Result<(), NoMemory> {
    text.number("count ", round.count() as u64);
    put_node(text, round.root());
    text.end();
    for k in 0..round.count() {
        put_path(text, round, k)?;
    }
    Ok(())
}

/// The items of a round, and the nodes at these sides.
fn put_tree(text: &mut Text, alloc: Global, round: &Builder<Sha>) -> Result<(), NoMemory> {
    put_items(text, round)?;
    for letters in SIDES.split_whitespace() {
        put_node_at(text, alloc, round, letters)?;
    }
    Ok(())
}

fn is_tree(
    rt: &impl Abort,
    alloc: Global,
    rows: &str,
    round: &Builder<Sha>,
    want: &str,
) -> Result<(), Fail> {
    let mut text = Text::new(alloc);
    put_tree(&mut text, alloc, round)?;
    same(rt, rows, text.as_str().trim_end(), want);
    Ok(())
}

/// The round of the items of rows has this tree.
fn has_tree(rt: &impl Abort, alloc: Global, rows: &str, want: &str) -> Result<(), Fail> {
    let round = gathered(alloc, rows)?;
    is_tree(rt, alloc, rows, &round, want)
}

/// The tree of three items of two levels.
const THREE: &str = "count 3 ABA 4
A 0 A 0 / L 0 B L 2 A shape 7 ABA 4 / L 0 B L 2 A shape 7 ABA 4
B 0 B 0 / R 0 A L 2 A shape 6 ABA 4 / R 0 A L 2 A shape 6 ABA 4
A 3 A 3 / R 0 AB shape 2 ABA 4 / R 0 AB shape 2 ABA 4
L AB 1
R A 3
LL A 0
LR B 0
RL -
RR -
RLL -";

#[test]
fn the_tree_of_three_items(rt: HostRuntime) -> Result<(), Fail> {
    has_tree(&rt, rt.alloc(), "A 0\nB 0\nA 3", THREE)
}

/// Four items stand on the left side of the top, and one on the right side.
const FIVE: &str = "count 5 AAAAA 3
A 0 A 0 / L 0 A L 0 AA L 0 A shape 15 AAAAA 3 / L 0 A L 0 AA L 0 A shape 15 AAAAA 3
A 0 A 0 / R 0 A L 0 AA L 0 A shape 14 AAAAA 3 / R 0 A L 0 AA L 0 A shape 14 AAAAA 3
A 0 A 0 / L 0 A R 0 AA L 0 A shape 13 AAAAA 3 / L 0 A R 0 AA L 0 A shape 13 AAAAA 3
A 0 A 0 / R 0 A R 0 AA L 0 A shape 12 AAAAA 3 / R 0 A R 0 AA L 0 A shape 12 AAAAA 3
A 0 A 0 / R 2 AAAA shape 2 AAAAA 3 / R 2 AAAA shape 2 AAAAA 3
L AAAA 2
R A 0
LL AA 1
LR AA 1
RL -
RR -
RLL -";

#[test]
fn the_ways_of_five_items(rt: HostRuntime) -> Result<(), Fail> {
    has_tree(&rt, rt.alloc(), "A 0\nA 0\nA 0\nA 0\nA 0", FIVE)
}

/// The item with a name stands below its leaf, and its first link leads past the name.
const NAMED: &str = "count 2 AB.al 4
A 0 A 0 / L 3 B.al shape 3 AB.al 4 / L 3 B.al shape 3 AB.al 4
B 2 al B.al 3 / L 0 m.al R 0 A shape 5 AB.al 4 / L 0 m.al R 0 A shape 5 AB.al 4
L A 0
R B.al 3
LL -
LR -
RL B 2
RR -
RLL -";

#[test]
fn an_item_stands_below_its_leaf(rt: HostRuntime) -> Result<(), Fail> {
    has_tree(&rt, rt.alloc(), "A 0\nB 2 al", NAMED)
}

const LONGEST: &str = "A 238 aaaaaaaaaaaaaaaaaaaaaaaaaaaaaaaaaaaaaaaaaaaaaaaaaaaaaaaaaaaaaaaa";

const LONGEST_TREE: &str = "count 1 A.a 239
A 238 aaaaaaaaaaaaaaaaaaaaaaaaaaaaaaaaaaaaaaaaaaaaaaaaaaaaaaaaaaaaaaaa A.a 239 / L 0 m.a shape 3 A.a 239 / L 0 m.a shape 3 A.a 239
L A 238
R -
LL -
LR -
RL -
RR -
RLL -";

#[test]
fn the_longest_name_at_the_highest_level(rt: HostRuntime) -> Result<(), Fail> {
    has_tree(&rt, rt.alloc(), LONGEST, LONGEST_TREE)
}

/// A round of as many items as there may be.
fn full(alloc: Global) -> Result<Builder<Tiny>, Refused<AddRefusal>> {
    let mut round = Builder::new(alloc)?;
    for _ in 0..65536usize {
        round.add(Item::new(Sha::of(b""), 239))?;
    }
    Ok(round)
}

/// What comes of one item more, and how many items and what level there are.
fn one_more(round: &mut Builder<Tiny>) -> Option<(usize, u8)> {
    match round.add(Item::new(Sha::of(b""), 239)) {
        Err(Refused::Fault(AddRefusal::Full)) => Some((round.count(), round.root()?.level)),
        _ => None,
    }
}

#[test]
fn a_full_round_refuses_the_next_item(rt: HostRuntime) {
    let refused = match full(rt.alloc()) {
        Ok(mut round) => one_more(&mut round) == Some((65536, 255)),
        Err(_) => false,
    };
    if !refused {
        rt.panic("the next item");
    }
}
