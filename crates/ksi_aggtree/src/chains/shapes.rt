ghost use Rattle.std.specs.Prelude.{◌≡◌, ◌≤◌, ◌<◌, ◌+◌, ◌^◌, ◌∷◌, [], map, length};
ghost use Rattle.ksi_aggtree.specs.Shapes.{IsShape, left_powers, shape_of};

use crate::chains::chain_link::ChainLink;
use ksi_split::Side;

/// The links' sides as bits, the lowest link's lowest: 1 for a left link, and a leading one above them all.
pub fn shape<L: ChainLink>(links: &[L]) -> u64
    requires { length links.now ≤ 63 }
    ensures shape { IsShape (map (λ link. (L.plain link).side) links.now) result }
    ensures value { result ≡ shape_of (map (λ link. (L.plain link).side) links.now) }
{
    let mut bits = 0;
    for (place, link) in links.iter().enumerate() {
        bits = with_side(bits, place, link.side());
    }
    with_leading_one(bits, links.len())
}

/// Bits and that of a link's side at its place, which is above theirs.
pub fn with_side(bits: u64, place: usize, side: Side) -> u64
    requires place { place ≤ 62 }
    requires fits { bits + left_powers place (side ∷ []) < 2 ^ 64 }
    ensures { result ≡ bits + left_powers place (side ∷ []) }
{
    match side {
        Side::Left => bits + (1 << place),
        Side::Right => bits,
    }
}

/// The bits of this many links, and a one above them.
pub fn with_leading_one(bits: u64, links: usize) -> u64
    requires links { links ≤ 63 }
    requires fits { bits + 2 ^ links < 2 ^ 64 }
    ensures { result ≡ bits + 2 ^ links }
{
    bits + (1 << links)
}
