//! The tree over leaves that are all of level 1, and the links up from one of them. Each node is computed from its leaves.
ghost use Rattle.std.specs.Prelude.{◌≡◌, ◌<◌, ◌≤◌, ◌+◌, ◌-◌, ◌*◌, ◌^◌, ◌++◌, ◌∷◌, [], map, max, length, IfOk};
ghost use Rattle.ksi_split.specs.Trees.{tree_within, path_within};
ghost use Rattle.ksi_split.specs.declared.side.Side.TheVariants as sides;
ghost use Rattle.ksi_aggtree.specs.Owned.{plain_link, plain_links};
ghost use Rattle.ksi_aggtree.specs.Paths.{link_beside, links_from};
ghost use Rattle.ksi_aggtree.specs.Rounds.{aggregation_join, leaf_of_place};
ghost use Rattle.ksi_logblock.specs.Blocks.{leaf_item};
ghost use Rattle.ksi_logblock.specs.Links.{plain_line_link};
ghost use Rattle.ksi_logblock.specs.Upward.{level_above};

use crate::line_proof::LineLink;
use ksi_aggtree::chains::Node;
use ksi_imprint::{Compress, Imprint, NoMemory};
use ksi_split::Side;
use ksi_split::trees::enough_levels;

/// The tree of the `count` leaves from `first`, of which there are at most 2^`height`.
pub(crate) fn tree_over<C: Compress>(
    leaves: &[Imprint],
    first: usize,
    count: usize,
    height: u8,
) -> Node
    requires some { 0 < count }
    requires within { first + count ≤ length leaves.now }
    requires few { count ≤ 2 ^ height }
    requires height { height ≤ 16 }
    ensures tree { result ≡ tree_within (aggregation_join C.image) (leaf_of_place C.image (map leaf_item leaves.now)) height first count }
    ensures level { result.level ≤ height + 1 }
{
    if height == 0 {
        return Node {
            imprint: leaves[first],
            level: 1,
        };
    }
    let half = half_of(height);
    if count <= half {
        return tree_over::<C>(leaves, first, count, height - 1);
    }
    let left = tree_over::<C>(leaves, first, half, height - 1);
    let right = tree_over::<C>(leaves, first + half, count - half, height - 1);
    let level = left.level.max(right.level) + 1;
    let imprint = C::join(left.imprint.bytes(), right.imprint.bytes(), level);
    Node { imprint, level }
}

/// Adds the links up from leaf `first + place`, among the `count` from `first`, of which there are at most 2^`height`, and
/// says to what level they lead.
pub(crate) fn links_over<C: Compress>(
    leaves: &[Imprint],
    place: usize,
    first: usize,
    count: usize,
    height: u8,
    links: &mut Vec<LineLink>,
) -> Result<u8, NoMemory>
    requires there { place < count }
    requires within { first + count ≤ length leaves.now }
    requires few { count ≤ 2 ^ height }
    requires height { height ≤ 16 }
    ensures links { IfOk result (λ level. map plain_line_link links.new.items ≡ map plain_line_link links.old.items ++
        plain_links (links_from 1 (path_within (aggregation_join C.image) (leaf_of_place C.image (map leaf_item leaves.now)) height first place count))) }
    ensures level { IfOk result (λ level. level ≡
        level_above 1 (path_within (aggregation_join C.image) (leaf_of_place C.image (map leaf_item leaves.now)) height first place count)) }
    ensures low { IfOk result (λ level. level ≤ height + 1) }
{
    enough_levels::<Node>();
    if height == 0 {
        return Ok(1);
    }
    let half = half_of(height);
    if count <= half {
        return links_over::<C>(leaves, place, first, count, height - 1, links);
    }
    if place < half {
        let level = links_over::<C>(leaves, place, first, half, height - 1, links)?;
        let other = tree_over::<C>(leaves, first + half, count - half, height - 1);
        add_link(links, Side::Left, level, &other)
    } else {
        let rest = count - half;
        let level = links_over::<C>(leaves, place - half, first + half, rest, height - 1, links)?;
        let other = tree_over::<C>(leaves, first, half, height - 1);
        add_link(links, Side::Right, level, &other)
    }
}

/// Half as many as 2^`height`.
fn half_of(height: u8) -> usize
    requires some { 0 < height }
    requires few { height ≤ 16 }
    ensures half { result ≡ 2 ^ (height - 1) }
    ensures both { 2 ^ height ≡ 2 * result }
{
    1 << (height - 1)
}

/// Adds the link from a level beside another part, and says to what level it leads.
fn add_link(links: &mut Vec<LineLink>, side: Side, level: u8, other: &Node) -> Result<u8, NoMemory>
    requires level { level ≤ 16 }
    requires other { other.now.level ≤ 16 }
    ensures links { IfOk result (λ above. map plain_line_link links.new.items ≡ map plain_line_link links.old.items ++
        plain_link (link_beside level (record { side = side; sibling = other.now })) ∷ []) }
    ensures level { IfOk result (λ above. above ≡ max level other.now.level + 1) }
{
    let greater = level.max(other.level);
    links.push(LineLink {
        side,
        correction: greater - level,
        sibling: other.imprint,
    })?;
    Ok(greater + 1)
}
