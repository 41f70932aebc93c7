ghost use Rattle.std.specs.Prelude.{◌≡◌, ◌≤◌, ◌+◌, ◌++◌, length, IfOk};
ghost use Rattle.ksi_imprint.specs.Imprints.{join_text};
ghost use Rattle.std.specs.Str.{bytes_eq};
ghost use Rattle.ksi_beside.specs.Beside.{rung_text};
ghost use Rattle.ksi_aggtree.specs.Nodes.{node_text};
ghost use Rattle.ksi_beside.specs.Walks.{view_rung};

use ksi_aggtree::NodeParts;
use ksi_imprint::{Bytes, Compress, Imprint, NoMemory};
use ksi_split::Side;
use std::alloc::Global;

/// A link as it is climbed: the side on which the node below it stands, that node's imprint, the other part, and the level
/// of the join.
#[derive(Drop)]
pub(crate) struct Rung<'a> {
    pub(crate) side: Side,
    pub(crate) below: &'a Imprint,
    pub(crate) sibling: &'a [u8],
    pub(crate) level: u8,
}

/// The imprint that a link leads to.
pub(crate) fn join_of<C: Compress>(rung: &Rung<'_>) -> Imprint
    ensures { result ≡ C.image (rung_text (view_rung rung.now)) }
{
    match rung.side {
        Side::Left => C::join(rung.below.bytes(), rung.sibling, rung.level),
        Side::Right => C::join(rung.sibling, rung.below.bytes(), rung.level),
    }
}

/// Whether the string of a link is that of both parts.
pub(crate) fn is_joined_of(rung: &Rung<'_>, parts: &NodeParts) -> bool
    ensures { result ≡ bytes_eq (rung_text (view_rung rung.now)) (node_text parts.now) }
{
    let below = rung.below.bytes().as_slice();
    match rung.side {
        Side::Left => is_text_of(below, rung.sibling, rung.level, parts),
        Side::Right => is_text_of(rung.sibling, below, rung.level, parts),
    }
}

/// The string of a link.
pub(crate) fn text_of(alloc: Global, rung: &Rung<'_>) -> Result<Bytes, NoMemory>
    requires { length rung.now.sibling.now ≤ 4096 }
    ensures text { IfOk result (λ text. text ≡ rung_text (view_rung rung.now)) }
    ensures short { IfOk result (λ text. length text ≤ 4130) }
{
    match rung.side {
        Side::Left => join_text(alloc, rung.below.bytes(), rung.sibling, rung.level),
        Side::Right => join_text(alloc, rung.sibling, rung.below.bytes(), rung.level),
    }
}

/// The string of both parts of a node.
pub(crate) fn text_of_parts(alloc: Global, parts: &NodeParts) -> Result<Bytes, NoMemory>
    ensures text { IfOk result (λ text. text ≡ node_text parts.now) }
    ensures short { IfOk result (λ text. length text ≤ 4130) }
{
    join_text(alloc, parts.left.bytes(), parts.other.bytes(), parts.level)
}

fn join_text(alloc: Global, left: &[u8], right: &[u8], level: u8) -> Result<Bytes, NoMemory>
    ensures text { IfOk result (λ text. text ≡ join_text left.now right.now level) }
    ensures size { IfOk result (λ text. length text ≡ length left.now + length right.now + 1) }
{
    let mut text = Vec::with_capacity(alloc, left.len() + right.len() + 1)?;
    text.extend_from_slice(left)?;
    text.extend_from_slice(right)?;
    text.push(level)?;
    Ok(Bytes::from_vec(text))
}

/// Whether the string of two parts is that of both parts of a node, wherever it is cut.
fn is_text_of(left: &[u8], right: &[u8], level: u8, parts: &NodeParts) -> bool
    ensures { result ≡ bytes_eq (join_text left.now right.now level) (node_text parts.now) }
{
    if level != parts.level {
        return false;
    }
    let first = parts.left.bytes().as_slice();
    are_together(left, right, first, parts.other.bytes())
}

/// Whether two pieces, one after the other, are the bytes of two others.
fn are_together(left: &[u8], right: &[u8], first: &[u8], second: &[u8]) -> bool
    ensures { result ≡ bytes_eq (left.now ++ right.now) (first.now ++ second.now) }
{
    if left.len() <= first.len() {
        are_cut(left, right, first, second)
    } else {
        are_cut(first, second, left, right)
    }
}

/// The same of pieces of which the first is no longer than the first of the others, so that what is left of that one begins
/// the second piece.
fn are_cut(short: &[u8], rest: &[u8], long: &[u8], end: &[u8]) -> bool
    requires { length short.now ≤ length long.now }
    ensures { result ≡ bytes_eq (short.now ++ rest.now) (long.now ++ end.now) }
{
    match long.strip_prefix(short) {
        None => false,
        Some(middle) => match rest.strip_prefix(middle) {
            None => false,
            Some(last) => last == end,
        },
    }
}
