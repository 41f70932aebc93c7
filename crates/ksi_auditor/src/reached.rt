ghost use Rattle.std.specs.Prelude.{◌≡◌, ◌≤◌, map};
ghost use Rattle.ksi_aggtree.specs.Climbing.{level_after};
ghost use Rattle.ksi_aggtree.specs.Links.{highest_level};
ghost use Rattle.ksi_auditor.specs.Climbed.{climbed_to};

use ksi_aggtree::chains::{ChainLink, Node, climb};
use ksi_imprint::Compress;

/// The item that links lead to, where no level passes 255.
pub(crate) fn top_of<C: Compress, L: ChainLink>(below: &Node, links: &[L]) -> Node
    requires { level_after below.now.level (map L.plain links.now) ≤ highest_level }
    ensures { result ≡ climbed_to C.image below.now (map L.plain links.now) }
{
    match climb::<C, L>(below.imprint, below.level, links) {
        Ok(top) => top,
        Err(_) => *below,
    }
}
