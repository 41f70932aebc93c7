//! What the nodes of a block's tree are joined of, down to what its leaves are made of.
ghost use Rattle.std.specs.Prelude.{◌≡◌, ◌<◌, ◌≤◌, ◌+◌, ℕ, List, Some, length, option_map};
ghost use Rattle.ksi_split.specs.declared.side.Side.{Side};
ghost use Rattle.ksi_aggtree.specs.Nodes.{node_text};
ghost use Rattle.ksi_logblock.specs.Blocks.{Masked, most_lines};
ghost use Rattle.ksi_logblock.specs.Locating.{part_text, text_below, block_text};

use crate::block::Block;
use ksi_aggtree::{NodeParts, OtherPart};
use ksi_imprint::Compress;
use ksi_split::laws::{parts, short_ways};
use ksi_split::{Side, split};

/// What the node that sides lead to, from a part of the lines down, is joined of: none below a leaf.
pub(crate) fn parts_below<C: Compress>(
    block: &Block<'_, C>,
    first: usize,
    count: usize,
    sides: &[Side],
) -> Option<NodeParts>
    requires some { 0 < count }
    requires within { first + count ≤ length block.now.lines }
    requires few { length block.now.lines ≤ most_lines }
    ensures { option_map node_text result ≡ text_below C.image block.now (record { first = first; count = count }) sides.now }
{
    let (side, lower) = match sides.split_first() {
        None => return Some(parts_of(block, first, count)),
        Some(first) => first,
    };
    if count == 1 {
        return None;
    }
    let half = split(count as u64) as usize;
    match side {
        Side::Left => parts_below(block, first, half, lower),
        Side::Right => parts_below(block, first + half, count - half, lower),
    }
}

/// What the tree of a part of the lines is joined of.
fn parts_of<C: Compress>(block: &Block<'_, C>, first: usize, count: usize) -> NodeParts
    requires some { 0 < count }
    requires within { first + count ≤ length block.now.lines }
    requires few { length block.now.lines ≤ most_lines }
    ensures { node_text result ≡ part_text C.image block.now (record { first = first; count = count }) }
{
    if count == 1 {
        return block.leaf_parts(first);
    }
    let half = split(count as u64) as usize;
    let left = block.tree(first, half);
    let right = block.tree(first + half, count - half);
    NodeParts {
        left: left.imprint,
        other: OtherPart::Imprint(right.imprint),
        level: left.level.max(right.level) + 1,
    }
}

/// No string stands deeper than 16 sides.
pub(crate) fn short_places()
    ensures { (image : List ℕ → List ℕ) (block : Masked) (sides : List Side) (text : List ℕ) → 0 < length block.lines →
        length block.lines ≤ most_lines → block_text image block sides ≡ Some text → length sides ≤ 16 }
{
    parts();
    short_ways();
}
