ghost use Rattle.std.specs.Prelude.{◌≡◌, ◌≤◌, [], length, map, IfOk, IfSome, OnErr};
ghost use Rattle.std.specs.List.{AllByRecursion};
ghost use Rattle.ksi_aggtree.specs.Links.{highest_level};
ghost use Rattle.ksi_aggtree.specs.Climbing.{level_after};
ghost use Rattle.ksi_beside.specs.Beside.{AreShort, IsApart, IsShortLink, IsShortWalk, calendar_rungs_from, clash_in, laid_from, laid_on, rungs_from};
ghost use Rattle.ksi_beside.specs.Walks.{go, laid, step, view_rung};
ghost use Rattle.ksi_beside.specs.declared.walk.Walk.TheVariants as walks;

use crate::kept::KeptTree;
use crate::place::Place;
use crate::rung::{Rung, is_joined_of, join_of, text_of, text_of_parts};
use ksi_aggtree::chains::{ChainLink, Node};
use ksi_calendar::CalendarLink;
use ksi_imprint::{Clash, Compress, Imprint, NoMemory};
use std::alloc::Global;

/// Where links end that are laid beside a kept tree, from the top.
#[derive(Drop)]
pub enum Walk {
    /// The string of a link, and the kept one that it differs from.
    Apart(Clash),
    /// Each link's string is the kept one, down to this place.
    At(Place),
    /// Each link's string is the kept one down to this place, which is no join, and further links are left.
    Past(Place),
}

impl Walk {
    /// The clash that it came to, if any.
    pub fn clash(self) -> Option<Clash>
        requires { IsShortWalk self }
        ensures clash { result ≡ clash_in self }
        ensures short { IfSome result AreShort }
    {
        match self {
            Walk::Apart(clash) => Some(clash),
            Walk::At(_) => None,
            Walk::Past(_) => None,
        }
    }
}

/// Lays the links of a calendar chain, which lead up from an imprint to the root of a tree, beside it.
///
/// # Errors
/// `NoMemory` only where it would come to a clash.
pub fn along_calendar<C: Compress, K: KeptTree>(
    alloc: Global,
    tree: &K,
    below: &Imprint,
    links: &[CalendarLink],
) -> Result<Walk, NoMemory>
    ensures walk { IfOk result (λ walk. walk ≡
        laid_from (K.text tree.now) [] (calendar_rungs_from C.image below.now links.now)) }
    ensures short { IfOk result IsShortWalk }
    ensures memory { OnErr result (IsApart
        (laid_from (K.text tree.now) [] (calendar_rungs_from C.image below.now links.now))) }
{
    down_calendar::<C, K>(alloc, tree, below, links)
}

/// Lays the links of an aggregation chain, which lead up from an item, beside a tree, below links that ended so.
///
/// # Errors
/// `NoMemory` only where these links would come to a clash.
pub fn along_links<C: Compress, K: KeptTree, L: ChainLink>(
    alloc: Global,
    tree: &K,
    start: Walk,
    below: &Node,
    links: &[L],
) -> Result<Walk, NoMemory>
    requires levels { level_after below.now.level (map L.plain links.now) ≤ highest_level }
    requires sizes { AllByRecursion IsShortLink (map L.plain links.now) }
    requires start { IsShortWalk start }
    ensures walk { IfOk result (λ walk. walk ≡
        laid_on (K.text tree.now) start (rungs_from C.image below.now (map L.plain links.now))) }
    ensures short { IfOk result IsShortWalk }
    ensures memory { OnErr result (IsApart
        (laid_on (K.text tree.now) start (rungs_from C.image below.now (map L.plain links.now)))) }
{
    down_links::<C, K, L>(alloc, tree, start, below, links)
}

fn down_calendar<C: Compress, K: KeptTree>(
    alloc: Global,
    tree: &K,
    below: &Imprint,
    links: &[CalendarLink],
) -> Result<Walk, NoMemory>
    ensures walk { IfOk result (λ walk. walk ≡
        go (K.text tree.now) (walks.At []) (calendar_rungs_from C.image below.now links.now)) }
    ensures short { IfOk result IsShortWalk }
    ensures memory { OnErr result (IsApart
        (go (K.text tree.now) (walks.At []) (calendar_rungs_from C.image below.now links.now))) }
{
    let (link, higher) = match links.split_first() {
        None => return Ok(Walk::At(Place::top())),
        Some(first) => first,
    };
    let rung = Rung {
        side: link.side,
        below,
        sibling: link.sibling.bytes(),
        level: 0xff,
    };
    let above = join_of::<C>(&rung);
    let walk = down_calendar::<C, K>(alloc, tree, &above, higher)?;
    step(alloc, tree, walk, &rung)
}

fn down_links<C: Compress, K: KeptTree, L: ChainLink>(
    alloc: Global,
    tree: &K,
    start: Walk,
    below: &Node,
    links: &[L],
) -> Result<Walk, NoMemory>
    requires levels { level_after below.now.level (map L.plain links.now) ≤ highest_level }
    requires sizes { AllByRecursion IsShortLink (map L.plain links.now) }
    requires start { IsShortWalk start }
    ensures walk { IfOk result (λ walk. walk ≡
        go (K.text tree.now) start (rungs_from C.image below.now (map L.plain links.now))) }
    ensures short { IfOk result IsShortWalk }
    ensures memory { OnErr result (IsApart
        (go (K.text tree.now) start (rungs_from C.image below.now (map L.plain links.now)))) }
{
    let (link, higher) = match links.split_first() {
        None => return Ok(start),
        Some(first) => first,
    };
    let level = below.level + link.correction() + 1;
    let rung = Rung {
        side: link.side(),
        below: &below.imprint,
        sibling: link.sibling(),
        level,
    };
    let above = Node {
        imprint: join_of::<C>(&rung),
        level,
    };
    let walk = down_links::<C, K, L>(alloc, tree, start, &above, higher)?;
    step(alloc, tree, walk, &rung)
}

/// Lays one link more beside a tree, further down.
fn step<K: KeptTree>(alloc: Global, tree: &K, walk: Walk, rung: &Rung<'_>) -> Result<Walk, NoMemory>
    requires small { length rung.now.sibling.now ≤ 4096 }
    requires walk { IsShortWalk walk }
    ensures next { IfOk result (λ next. next ≡ step (K.text tree.now) walk (view_rung rung.now)) }
    ensures short { IfOk result IsShortWalk }
    ensures memory { OnErr result (IsApart (step (K.text tree.now) walk (view_rung rung.now))) }
{
    match walk {
        Walk::Apart(clash) => Ok(Walk::Apart(clash)),
        Walk::Past(place) => Ok(Walk::Past(place)),
        Walk::At(place) => lay(alloc, tree, place, rung),
    }
}

/// Lays a link beside the node at a place.
fn lay<K: KeptTree>(
    alloc: Global,
    tree: &K,
    place: Place,
    rung: &Rung<'_>,
) -> Result<Walk, NoMemory>
    requires { length rung.now.sibling.now ≤ 4096 }
    ensures next { IfOk result (λ next. next ≡ laid (K.text tree.now place) place (view_rung rung.now)) }
    ensures short { IfOk result IsShortWalk }
    ensures memory { OnErr result (IsApart (laid (K.text tree.now place) place (view_rung rung.now))) }
{
    let parts = match tree.parts(&place) {
        None => return Ok(Walk::Past(place)),
        Some(parts) => parts,
    };
    if is_joined_of(rung, &parts) {
        return Ok(Walk::At(place.below(rung.side)));
    }
    let one = text_of(alloc, rung)?;
    let two = text_of_parts(alloc, &parts)?;
    Ok(Walk::Apart(Clash { one, two }))
}
