//! The place of a proof's line in a kept block.
ghost use Rattle.std.specs.Prelude.{◌≡◌, ◌≤◌, ◌<◌, ◌↔◌, ℕ, [], length, IfOk, IfSome, OnErr};
ghost use Rattle.std.specs.List.{AllByRecursion};
ghost use Rattle.ksi_beside.specs.Beside.{IsApart, IsShortWalk, differing, laid_from};
ghost use Rattle.ksi_aggtree.specs.Climbing.{level_after};
ghost use Rattle.ksi_aggtree.specs.Links.{highest_level};
ghost use Rattle.ksi_logblock.specs.Logs.{IsShort};
ghost use Rattle.ksi_logblock.specs.Links.{most_links, plain_line_links, sides_of};
ghost use Rattle.ksi_logblock.specs.Locating.{block_text, compared, first_pair, found, line_named, line_pairs, line_rungs, located};
ghost use Rattle.ksi_logblock.specs.Shown.{Shows, HasClash, IsLine, IsShortAnswer, LeadsToRoot};
ghost use Rattle.ksi_logblock.specs.declared.locating.Located.TheVariants as answers;

use crate::block::Block;
use crate::climbing::root_of;
use crate::hashing::leaf_of;
use crate::kept::BlockTree;
use crate::laws::{location_shows, low_levels};
use crate::line_proof::{LineLink, LineProof};
use ksi_aggtree::chains::{LevelFault, Node};
use ksi_beside::laws::one_after_another;
use ksi_beside::{Clash, Place, Walk, along_links};
use ksi_imprint::{Bytes, Compress, Imprint, NoMemory};
use ksi_split::{Side, second_of};
use std::alloc::Global;

/// Why a line and its proof do not lead to a block's root.
#[derive(Clone, Copy, PartialEq, Eq)]
pub enum LineRefusal {
    /// The first link whose level passes 255.
    Level(LevelFault),
    /// The root that they lead to, and the kept one.
    RootDiffers(Imprint, Imprint),
}

/// The place of a proof's line in a kept block.
#[derive(Drop)]
pub enum Located {
    /// It and its proof do not lead to the block's root.
    NotAccepted(LineRefusal),
    /// It is this line of the block, and the proof's mask and sides are its own.
    In(usize),
    /// Two different strings with one imprint, of nodes or of lines.
    Clash(Clash),
}

/// The place of a proof's line in a block that has lines.
///
/// First it is checked that line and proof lead to the block's root. Then the line is the one that the links' sides name,
/// if that one is this line and the proof's mask is its own. Otherwise each link's string, from the top, and at last the
/// line are compared with the kept ones: the first that differs is a clash. Only a clash allocates memory.
///
/// # Errors
/// `NoMemory` only if the answer would be a clash.
pub fn locate<C: Compress>(
    alloc: Global,
    block: &Block<'_, C>,
    line: &[u8],
    proof: &LineProof,
) -> Result<Located, NoMemory>
    requires { 0 < length block.now.lines }
    ensures answer { IfOk result (λ answer. answer ≡ located C.image block.now line.now proof.now) }
    ensures shown { IfOk result (Shows C.image block.now line.now proof.now) }
    ensures inside { IfOk result (λ answer. (k : ℕ) → (answer ≡ answers.In k) ↔
        (LeadsToRoot C.image block.now line.now proof.now × IsLine C.image block.now line.now proof.now k)) }
    ensures short { AllByRecursion IsShort block.now.lines → IsShort line.now → IfOk result IsShortAnswer }
    ensures memory { OnErr result (HasClash (located C.image block.now line.now proof.now)) }
{
    location_shows();
    let _mask = proof.mask.bytes();
    have_imprints(proof.links.as_slice());
    answer(alloc, block, line, proof)
}

#[tactic(auto, unfolding(crate::specs::Locating::located))]
fn answer<C: Compress>(
    alloc: Global,
    block: &Block<'_, C>,
    line: &[u8],
    proof: &LineProof,
) -> Result<Located, NoMemory>
    requires { 0 < length block.now.lines }
    ensures answer { IfOk result (λ answer. answer ≡ located C.image block.now line.now proof.now) }
    ensures short { AllByRecursion IsShort block.now.lines → IsShort line.now → IfOk result IsShortAnswer }
    ensures memory { OnErr result (HasClash (located C.image block.now line.now proof.now)) }
{
    low_levels();
    let root = match root_of::<C>(line, proof) {
        Ok(root) => root,
        Err(fault) => return Ok(Located::NotAccepted(LineRefusal::Level(fault))),
    };
    let kept = block.tree(0, block.count()).imprint;
    if root == kept {
        compare(alloc, block, line, proof)
    } else {
        Ok(Located::NotAccepted(LineRefusal::RootDiffers(root, kept)))
    }
}

/// Of a line and a proof that lead to the block's root.
fn compare<C: Compress>(
    alloc: Global,
    block: &Block<'_, C>,
    line: &[u8],
    proof: &LineProof,
) -> Result<Located, NoMemory>
    requires some { 0 < length block.now.lines }
    requires levels { level_after 1 (plain_line_links proof.now.links) ≤ highest_level }
    ensures answer { IfOk result (λ answer. answer ≡ compared C.image block.now line.now proof.now) }
    ensures short { AllByRecursion IsShort block.now.lines → IsShort line.now → IfOk result IsShortAnswer }
    ensures memory { OnErr result (HasClash (compared C.image block.now line.now proof.now)) }
{
    match line_named(block, proof) {
        None => lay_beside(alloc, block, line, proof, None),
        Some(k) => {
            if block.is_own(k, line, &proof.mask) {
                Ok(Located::In(k))
            } else {
                lay_beside(alloc, block, line, proof, Some(k))
            }
        }
    }
}

/// The line that the sides of a proof's links name.
fn line_named<C: Compress>(block: &Block<'_, C>, proof: &LineProof) -> Option<usize>
    requires { 0 < length block.now.lines }
    ensures named { result ≡ line_named block.now proof.now }
    ensures there { IfSome result (λ k. k < length block.now.lines) }
{
    let place = place_of(proof.links.as_slice());
    match second_of(block.count() as u64 - 1, place.way().as_slice()) {
        Ok(k) => Some(k as usize),
        Err(_) => None,
    }
}

/// The place that links lead up from, the lowest first.
fn place_of(links: &[LineLink]) -> Place
    requires { length links.now ≤ most_links }
    ensures { result ≡ sides_of links.now }
{
    match links.split_first() {
        None => Place::top(),
        Some((link, higher)) => place_of(higher).below(link.side),
    }
}

/// Lays the links and the line beside the block's tree and the line that is named, which is not this one with its own mask.
fn lay_beside<C: Compress>(
    alloc: Global,
    block: &Block<'_, C>,
    line: &[u8],
    proof: &LineProof,
    named: Option<usize>,
) -> Result<Located, NoMemory>
    requires some { 0 < length block.now.lines }
    requires there { IfSome named (λ k. k < length block.now.lines) }
    requires levels { level_after 1 (plain_line_links proof.now.links) ≤ highest_level }
    ensures answer { IfOk result (λ answer. answer ≡ found named (first_pair C.image block.now line.now proof.now named)) }
    ensures short { AllByRecursion IsShort block.now.lines → IsShort line.now → IfOk result IsShortAnswer }
    ensures memory { OnErr result (HasClash (found named (first_pair C.image block.now line.now proof.now named))) }
{
    let walk = along_line::<C>(alloc, block, line, proof)?;
    match walk.clash() {
        Some(clash) => Ok(Located::Clash(clash)),
        None => compare_lines(alloc, block, line, named),
    }
}

/// Lays the links of a proof, and the one from its mask to the line's leaf, beside the block's tree.
fn along_line<C: Compress>(
    alloc: Global,
    block: &Block<'_, C>,
    line: &[u8],
    proof: &LineProof,
) -> Result<Walk, NoMemory>
    requires some { 0 < length block.now.lines }
    requires levels { level_after 1 (plain_line_links proof.now.links) ≤ highest_level }
    ensures walk { IfOk result (λ walk. walk ≡ laid_from (block_text C.image block.now) [] (line_rungs C.image line.now proof.now)) }
    ensures short { IfOk result IsShortWalk }
    ensures memory { OnErr result (IsApart (laid_from (block_text C.image block.now) [] (line_rungs C.image line.now proof.now))) }
{
    one_after_another();
    let links = proof.links.as_slice();
    have_imprints(links);
    let leaf = Node {
        imprint: leaf_of::<C>(&proof.mask, line),
        level: 1,
    };
    let tree = BlockTree { block };
    let top = Walk::At(Place::top());
    let walk = along_links::<C, BlockTree<'_, '_, C>, LineLink>(alloc, &tree, top, &leaf, links)?;
    let hash = C::of(line);
    let _bytes = hash.bytes();
    let link = LineLink {
        side: Side::Left,
        correction: 0,
        sibling: hash,
    };
    let mask = Node {
        imprint: proof.mask,
        level: 0,
    };
    along_links::<C, BlockTree<'_, '_, C>, LineLink>(alloc, &tree, walk, &mask, &[link])
}

/// The siblings of links are imprints.
fn have_imprints(links: &[LineLink])
    ensures { AllByRecursion (λ link. length link.sibling ≡ 33) links.now }
{
    match links.split_first() {
        None => {}
        Some((link, higher)) => {
            let _bytes = link.sibling.bytes();
            have_imprints(higher);
        }
    }
}

/// Compares a line with the one that is named, where no string of a node differs.
fn compare_lines<C: Compress>(
    alloc: Global,
    block: &Block<'_, C>,
    line: &[u8],
    named: Option<usize>,
) -> Result<Located, NoMemory>
    requires { IfSome named (λ k. k < length block.now.lines) }
    ensures answer { IfOk result (λ answer. answer ≡ found named (differing (line_pairs block.now line.now named))) }
    ensures short { AllByRecursion IsShort block.now.lines → IsShort line.now → IfOk result IsShortAnswer }
    ensures memory { OnErr result (HasClash (found named (differing (line_pairs block.now line.now named)))) }
{
    let k = match named {
        None => return Ok(Located::In(0)),
        Some(k) => k,
    };
    let kept = block.line(k);
    if line == kept {
        return Ok(Located::In(k));
    }
    Ok(Located::Clash(copied(alloc, line, kept)?))
}

/// Two strings, as a clash has them.
fn copied(alloc: Global, one: &[u8], two: &[u8]) -> Result<Clash, NoMemory>
    ensures { IfOk result (λ clash. clash ≡ record { one = one.now; two = two.now }) }
{
    let one = Bytes::copy_of(alloc, one)?;
    let two = Bytes::copy_of(alloc, two)?;
    Ok(Clash { one, two })
}
