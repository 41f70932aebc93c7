//! The tree over lent items.
ghost use Rattle.std.specs.Prelude.{◌≤◌};
ghost use Rattle.ksi_aggtree.specs.Rounds.{leaf_level, IsRound};

use crate::rounds::{put_node, sides_of};
use crate::same::same;
use crate::text::Text;
use ksi_aggtree::{Item, Name, NodeParts, Tree, node_over};
use ksi_imprint::{Compress, NoMemory, Sha};
use ksi_split::Side;
use std::alloc::Global;
use std::test::Fail;

/// An item of level 0 without a name, and one of level 2 whose name is `al`.
fn two() -> [Item; 2]
    ensures { IsRound result }
{
    let named = Item::new(Sha::of(b"abc"), 2).with_name(Name::read(b"al"));
    [Item::new(Sha::of(b""), 0), named]
}

/// What a node is joined of, or a dash.
fn put_parts(text: &mut Text, parts: &Option<NodeParts>) {
    match parts {
        Some(parts) => {
            text.imprint(&parts.left);
            text.bytes(parts.other.bytes());
            text.number("", u64::from(parts.level));
        }
        None => text.word("-"),
    }
}

fn parts_of(items: &[Item; 2], sides: &[Side]) -> Option<NodeParts>
    requires { IsRound items.now }
{
    Tree::<Sha>::over(items)?.parts(sides)
}

/// The node at these sides, and what it is joined of.
fn put_at(text: &mut Text, alloc: Global, row: &str) -> Result<(), NoMemory> {
    let items = two();
    let sides = sides_of(alloc, row)?;
    text.word(row);
    put_node(text, node_over::<Sha>(&items, sides.as_slice()));
    put_parts(text, &parts_of(&items, sides.as_slice()));
    text.end();
    Ok(())
}

/// The node at each of these sides, and what it is joined of.
fn nodes(alloc: Global, rows: &str) -> Result<Text, NoMemory> {
    let mut text = Text::new(alloc);
    for row in rows.lines() {
        put_at(&mut text, alloc, row)?;
    }
    Ok(text)
}

const SIDES: &str = "
L
R
RL
RR
RLL
LL";

const NODES: &str = "AB.al 4 A B.al 4
L A 0 -
R B.al 3 B m.al 3
RL B 2 -
RR - -
RLL - -
LL - -";

#[test]
fn a_leaf_is_joined_of_its_item_and_metadata(rt: HostRuntime) -> Result<(), Fail> {
    let told = nodes(rt.alloc(), SIDES)?;
    same(&rt, "two", told.as_str().trim(), NODES);
    Ok(())
}
