//! Trees over a slice of items and a last one behind it, which take no memory: each node is computed from its leaves.
ghost use Rattle.std.specs.Prelude.{◌≡◌, ◌<◌, ◌≤◌, ◌+◌, ◌^◌, ◌++◌, ◌∷◌, [], ℕ, length, option_map};
ghost use Rattle.ksi_aggtree.specs.Rounds.{most_items, highest_item, leaf_level, item_at, as_node, tree_from, tree_of, IsRound};
ghost use Rattle.ksi_aggtree.specs.Nodes.{node_of, node_below, text_of, text_from, leaf_text, node_text};

use crate::chains::Node;
use crate::item::Item;
use crate::laws::one_round;
use crate::parts::{NodeParts, OtherPart};
use crate::reached::{Reached, left_half, reach};
use ksi_imprint::Compress;
use ksi_split::Side;

/// The node of the tree of the items that sides from the top lead to, none where they lead to no node.
pub fn node_over<C: Compress>(items: &[Item], sides: &[Side]) -> Option<Node>
    requires { IsRound items.now }
    ensures { result ≡ node_of C.image items.now sides.now }
{
    let (last, others) = items.split_last()?;
    node_with::<C>(others, last, sides)
}

/// The tree of items and a last one behind them, together at most 65,536, whose leaves have levels to 239.
pub fn root_with<C: Compress>(items: &[Item], last: &Item) -> Node
    requires few { length items.now < most_items }
    requires low { (k : ℕ) → leaf_level (item_at items.now k) ≤ highest_item }
    requires last { leaf_level last.now ≤ highest_item }
    ensures { result ≡ tree_of C.image (items.now ++ last.now ∷ []) }
{
    part::<C>(items, last, 0, items.len() + 1, 16)
}

/// The node of this tree that sides from the top lead to, none where they lead to none.
pub(crate) fn node_with<C: Compress>(items: &[Item], last: &Item, sides: &[Side]) -> Option<Node>
    requires few { length items.now < most_items }
    requires low { (k : ℕ) → leaf_level (item_at items.now k) ≤ highest_item }
    requires last { leaf_level last.now ≤ highest_item }
    ensures { result ≡ node_of C.image (items.now ++ last.now ∷ []) sides.now }
{
    match reach(0, items.len() + 1, sides)? {
        Reached::Items(first, count) => Some(part::<C>(items, last, first, count, 16)),
        Reached::Below(k) => below(&item_or(items, last, k)),
    }
}

/// The left child of the leaf of an item: the item, where it has a name.
pub(crate) fn below(item: &Item) -> Option<Node>
    ensures { result ≡ node_below item.now item.now.name }
{
    match &item.name {
        None => None,
        Some(_) => Some(item.node()),
    }
}

/// What the node of this tree that sides from the top lead to is joined of, none where they lead to no join.
pub(crate) fn parts_with<C: Compress>(
    items: &[Item],
    last: &Item,
    sides: &[Side],
) -> Option<NodeParts>
    requires few { length items.now < most_items }
    requires low { (k : ℕ) → leaf_level (item_at items.now k) ≤ highest_item }
    requires last { leaf_level last.now ≤ highest_item }
    ensures { option_map node_text result ≡ text_of C.image (items.now ++ last.now ∷ []) sides.now }
{
    match reach(0, items.len() + 1, sides)? {
        Reached::Items(first, count) => parts_of::<C>(items, last, first, count),
        Reached::Below(_) => None,
    }
}

/// What the tree of the `count` items from `first` is joined of.
fn parts_of<C: Compress>(
    items: &[Item],
    last: &Item,
    first: usize,
    count: usize,
) -> Option<NodeParts>
    requires some { 0 < count }
    requires within { first + count ≤ length items.now + 1 }
    requires few { length items.now < most_items }
    requires low { (k : ℕ) → leaf_level (item_at items.now k) ≤ highest_item }
    requires last { leaf_level last.now ≤ highest_item }
    ensures { option_map node_text result ≡ text_from C.image (items.now ++ last.now ∷ []) first count }
{
    if count == 1 {
        return named_parts(&item_or(items, last, first));
    }
    let half = left_half(count, 16);
    let left = part::<C>(items, last, first, half, 15);
    let right = part::<C>(items, last, first + half, count - half, 15);
    Some(NodeParts {
        left: left.imprint,
        other: OtherPart::Imprint(right.imprint),
        level: left.level.max(right.level) + 1,
    })
}

/// What the leaf of an item is joined of, where the item has a name.
fn named_parts(item: &Item) -> Option<NodeParts>
    requires { leaf_level item.now ≤ highest_item }
    ensures { option_map node_text result ≡ leaf_text item.now item.now.name }
{
    match &item.name {
        None => None,
        Some(name) => Some(NodeParts {
            left: item.imprint,
            other: OtherPart::Metadata(name.meta()),
            level: item.level + 1,
        }),
    }
}

/// The tree of the `count` items from `first`, of which there are at most 2^`height`.
fn part<C: Compress>(items: &[Item], last: &Item, first: usize, count: usize, height: u8) -> Node
    requires some { 0 < count }
    requires within { first + count ≤ length items.now + 1 }
    requires few { count ≤ 2 ^ height }
    requires height { height ≤ 16 }
    requires low { (k : ℕ) → leaf_level (item_at items.now k) ≤ highest_item }
    requires last { leaf_level last.now ≤ highest_item }
    ensures tree { result ≡ tree_from C.image (items.now ++ last.now ∷ []) first count }
    ensures level { result.level ≤ highest_item + height }
{
    one_round();
    if count == 1 {
        return item_or(items, last, first).leaf::<C>();
    }
    let half = left_half(count, height);
    let left = part::<C>(items, last, first, half, height - 1);
    let right = part::<C>(items, last, first + half, count - half, height - 1);
    let level = left.level.max(right.level) + 1;
    let imprint = C::join(left.imprint.bytes(), right.imprint.bytes(), level);
    Node { imprint, level }
}

/// The item at a place, behind the others the last.
pub(crate) fn item_or(items: &[Item], last: &Item, place: usize) -> Item
    requires within { place ≤ length items.now }
    requires low { (k : ℕ) → leaf_level (item_at items.now k) ≤ highest_item }
    requires last { leaf_level last.now ≤ highest_item }
    ensures item { result ≡ item_at (items.now ++ last.now ∷ []) place }
    ensures level { leaf_level result ≤ highest_item }
{
    if place < items.len() {
        items[place]
    } else {
        *last
    }
}
