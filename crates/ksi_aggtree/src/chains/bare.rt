//! Raw siblings that begin as an imprint does.
ghost use Rattle.std.specs.Prelude.{◌≡◌, map};
ghost use Rattle.ksi_aggtree.specs.Links.{begins_as_imprint, is_bare, first_bare};

use crate::chains::chain_link::ChainLink;
use ksi_split::Side;

/// The first right link whose raw sibling begins with 0x01, as an imprint does, or none.
pub fn find_bare<L: ChainLink>(links: &[L]) -> Option<usize>
    ensures { result ≡ first_bare 0 (map L.plain links.now) }
{
    for (place, link) in links.iter().enumerate() {
        if is_bare(link) {
            return Some(place);
        }
    }
    None
}

/// Whether it is a right link whose raw sibling begins with 0x01, as an imprint does.
pub fn is_bare<L: ChainLink>(link: &L) -> bool
    ensures { result ≡ is_bare (L.plain link.now) }
{
    match link.side() {
        Side::Left => false,
        Side::Right => link.is_raw() && begins_as_imprint(link.sibling()),
    }
}

fn begins_as_imprint(sibling: &[u8]) -> bool
    ensures { result ≡ begins_as_imprint sibling.now }
{
    match sibling {
        [] => false,
        [first, ..] => *first == 1,
    }
}
