ghost use Rattle.std.specs.Prelude.{◌≡◌, ◌≤◌, ◌<◌, ◌+◌, ◌↔◌, ℕ, List, ◌∷◌, map, Ok, Err, IfOk, IfErr};
ghost use Rattle.ksi_aggtree.specs.Links.{PlainLink, side_text};
ghost use Rattle.ksi_aggtree.specs.Climbing.{Climbs, PassesLevels, climbed};
ghost use Rattle.ksi_aggtree.specs.declared.chains.climbing.LevelFault.TheVariants.{Over};
ghost use Rattle.ksi_aggtree.specs.declared.chains.node.Node.{Node};

use crate::chains::chain_link::ChainLink;
use crate::chains::node::{HIGHEST_LEVEL, Node};
use ksi_imprint::{Compress, Imprint};
use ksi_split::Side;

/// Why links lead to no node.
#[derive(Clone, Copy, PartialEq, Eq, Debug)]
pub enum LevelFault {
    /// The first link whose level passes 255, counted from 0 at the bottom, and that level.
    Over { link: usize, level: u16 },
}

/// The node that links lead to, the lowest first, from an imprint at a level, whoever owns the siblings.
///
/// # Errors
/// `Over` with the first link whose level passes 255.
pub fn climb<C: Compress, L: ChainLink>(
    start: Imprint,
    level: u8,
    links: &[L],
) -> Result<Node, LevelFault>
    ensures climbs { (node : Node) → (result ≡ Ok node) ↔
        Climbs C.image (record { imprint = start; level = level }) (map L.plain links.now) node }
    ensures over { (place high : ℕ) → (result ≡ Err (Over place high)) ↔
        PassesLevels level (map L.plain links.now) place high }
    ensures value { result ≡
        climbed C.image 0 (record { imprint = start; level = level }) (map L.plain links.now) }
{
    let mut node = Node {
        imprint: start,
        level,
    };
    for (place, link) in links.iter().enumerate() {
        match climb_link::<C, L>(node, place, link) {
            Ok(above) => node = above,
            Err(fault) => return Err(fault),
        }
    }
    Ok(node)
}

/// The node that one link leads to, the one at that place among others.
///
/// # Errors
/// `Over` where its level passes 255.
pub fn climb_link<C: Compress, L: ChainLink>(
    node: Node,
    place: usize,
    link: &L,
) -> Result<Node, LevelFault>
    ensures goes { IfOk result (λ above. (links : List PlainLink) →
        climbed C.image place node (L.plain link.now ∷ links) ≡ climbed C.image (place + 1) above links) }
    ensures stops { IfErr result (λ fault. (links : List PlainLink) →
        climbed C.image place node (L.plain link.now ∷ links) ≡ Err fault) }
{
    let level = node.level as u16 + link.correction() as u16 + 1;
    if level > HIGHEST_LEVEL as u16 {
        return Err(LevelFault::Over { link: place, level });
    }
    let level = level as u8;
    let imprint = join_beside::<C>(link.side(), node.imprint.bytes(), link.sibling(), level);
    Ok(Node { imprint, level })
}

/// The join of a node and its sibling, the node on the side that is given.
fn join_beside<C: Compress>(side: Side, node: &[u8], sibling: &[u8], level: u8) -> Imprint
    ensures { result ≡ C.image (side_text side node.now sibling.now level) }
{
    match side {
        Side::Left => C::join(node, sibling, level),
        Side::Right => C::join(sibling, node, level),
    }
}
