ghost use Rattle.std.specs.Prelude.{◌≡◌, ◌<◌, ◌≤◌, ◌+◌, ◌↔◌, ◌&&◌, [], ℕ, length, OnOk, OnErr, IfOk};
ghost use Rattle.ksi_imprint.specs.declared.refused.Refused.TheVariants as refused;
ghost use Rattle.ksi_aggtree.specs.Owned.{plain_links};
ghost use Rattle.ksi_split.specs.Ways.{way_of};
ghost use Rattle.ksi_aggtree.specs.Nodes.{node_text};
ghost use Rattle.ksi_logblock.specs.Locating.{kept_root};
ghost use Rattle.ksi_logblock.specs.Proofs.{own_proof, root_by};
ghost use Rattle.ksi_aggtree.specs.Paths.{chain_of};
ghost use Rattle.ksi_aggtree.specs.Rounds.{tree_from};
ghost use Rattle.std.specs.Str.{bytes_eq};
ghost use Rattle.ksi_logblock.specs.Links.{plain_line_links, sides_of};
ghost use Rattle.ksi_logblock.specs.Blocks.{with_line, block_root, items_of, leaf_text, leaves_of, line_at, mask_at, most_lines, longest_line};

use crate::hashing::{leaf_of, mask_of};
use crate::laws::own_proofs;
use crate::line_proof::{LineLinks, LineProof};
use crate::over::{links_over, tree_over};
use ksi_aggtree::chains::Node;
use ksi_aggtree::laws::one_chain;
use ksi_aggtree::{NodeParts, OtherPart};
use ksi_imprint::{Compress, Imprint, NoMemory, Refused};
use ksi_split::trees::enough_levels;
use std::alloc::Global;
use std::marker::{Model, PhantomData};

/// How many lines a block may have.
pub const MOST_LINES: usize = 65536;

/// How many bytes a line may have.
pub const LONGEST_LINE: usize = 8000;

/// Why a line is not added to a block.
#[derive(Clone, Copy, PartialEq, Eq)]
pub enum PushRefusal {
    /// The block has 65,536 lines.
    Full,
    /// The line has this many bytes, more than 8,000.
    LineTooLong(usize),
}

/// Lines with the leaves that are made of them, at most 65,536. The lines are lent. A contract sees the seed of the masks and
/// the list of lines.
#[derive(Drop)]
pub struct Block<'a, C: Compress> {
    alloc: Global,
    seed: [u8; 32],
    lines: Vec<&'a [u8]>,
    leaves: Vec<Imprint>,
    compress: PhantomData<C>,
}

impl<'a, C: Compress> Model for Block<'a, C> {
    ghost use Rattle.std.specs.Prelude.{◌≡◌, ◌≤◌, List, ℕ, map, length};
    ghost use Rattle.ksi_logblock.specs.Blocks.{Masked, leaves_behind, most_lines};
    ghost use Rattle.ksi_imprint.specs.Imprints.{zero_imprint};

    ghost Value = { Masked };

    ghost view = { λ b. record { seed = b.seed; lines = map (λ line. line.now) b.lines.items } };

    ghost invariant = { λ b. (b.leaves.items ≡ leaves_behind C.image b.seed zero_imprint (map (λ line. line.now) b.lines.items)) × (length b.lines.items ≤ most_lines) };
}

impl<'a, C: Compress> Block<'a, C> {
    /// A block without lines.
    pub fn new(alloc: Global, seed: [u8; 32]) -> Self
        ensures { result ≡ record { seed = seed; lines = [] } }
    {
        Block {
            alloc,
            seed,
            lines: Vec::new(alloc),
            leaves: Vec::new(alloc),
            compress: PhantomData,
        }
    }

    /// Adds a line after the others.
    ///
    /// # Errors
    /// `Full` exactly if there are 65,536 lines; otherwise `LineTooLong` with the number of bytes, exactly if these are more
    /// than 8,000; or `NoMemory`. After an error all is as before.
    pub fn push(&mut self, line: &'a [u8]) -> Result<(), Refused<PushRefusal>>
        ensures added { OnOk result (self.new ≡ with_line line.now self.old) }
        ensures full { (result ≡ Err (refused.Fault PushRefusal.Full)) ↔ (length self.old.lines ≡ most_lines) }
        ensures long { (n : ℕ) → (result ≡ Err (refused.Fault (PushRefusal.LineTooLong n))) ↔
            ((length self.old.lines < most_lines) × (n ≡ length line.now) × (longest_line < n)) }
        ensures unchanged { OnErr result (self.new ≡ self.old) }
    {
        if self.lines.len() >= MOST_LINES {
            return Err(Refused::Fault(PushRefusal::Full));
        }
        if line.len() > LONGEST_LINE {
            return Err(Refused::Fault(PushRefusal::LineTooLong(line.len())));
        }
        self.add(line)?;
        Ok(())
    }

    /// Adds a line, for which there is room.
    fn add(&mut self, line: &'a [u8]) -> Result<(), NoMemory>
        requires { length self.old.lines < most_lines }
        ensures added { OnOk result (self.new ≡ with_line line.now self.old) }
        ensures unchanged { OnErr result (self.new ≡ self.old) }
    {
        self.lines.reserve(1)?;
        self.leaves.reserve(1)?;
        let mask = mask_of::<C>(&self.seed, &self.leaves, self.leaves.len());
        self.lines.push_reserved(line);
        self.leaves.push_reserved(leaf_of::<C>(&mask, line));
        Ok(())
    }

    /// How many lines the block has.
    pub fn count(&self) -> usize
        ensures count { result ≡ length self.now.lines }
        ensures few { length self.now.lines ≤ most_lines }
    {
        self.lines.len()
    }

    /// The root of the tree over the leaves, or none if there is no line.
    pub fn root(&self) -> Option<Node>
        ensures { result ≡ block_root C.image self.now }
    {
        enough_levels::<Node>();
        let leaves = self.leaves();
        if leaves.is_empty() {
            None
        } else {
            Some(tree_over::<C>(leaves, 0, leaves.len(), 16))
        }
    }

    /// The leaves of the lines.
    fn leaves(&self) -> &[Imprint]
        ensures leaves { result.now ≡ leaves_of C.image self.now }
        ensures count { length result.now ≡ length self.now.lines }
        ensures few { length result.now ≤ most_lines }
    {
        &self.leaves
    }

    /// The proof of line `k`, which is below the count.
    ///
    /// # Errors
    /// `NoMemory`: all is as it was.
    pub fn proof(&self, k: usize) -> Result<LineProof, NoMemory>
        requires { k < length self.now.lines }
        ensures mask { IfOk result (λ proof. proof.mask ≡ mask_at C.image self.now k) }
        ensures links { IfOk result (λ proof. plain_line_links proof.links ≡ plain_links (chain_of C.image (items_of C.image self.now) k)) }
        ensures way { IfOk result (λ proof. sides_of proof.links ≡ way_of k (length self.now.lines)) }
        ensures root { IfOk result (λ proof. root_by C.image (line_at self.now k) proof ≡ Ok (kept_root C.image self.now)) }
        ensures own { IfOk result (λ proof. proof ≡ own_proof C.image self.now k) }
    {
        own_proofs();
        self.mask_and_links(k)
    }

    fn mask_and_links(&self, k: usize) -> Result<LineProof, NoMemory>
        requires { k < length self.now.lines }
        ensures few { length self.now.lines ≤ most_lines }
        ensures mask { IfOk result (λ proof. proof.mask ≡ mask_at C.image self.now k) }
        ensures links { IfOk result (λ proof. plain_line_links proof.links ≡ plain_links (chain_of C.image (items_of C.image self.now) k)) }
    {
        enough_levels::<Node>();
        one_chain();
        let leaves = self.leaves();
        let mask = mask_of::<C>(&self.seed, leaves, k);
        let mut links = Vec::with_capacity(self.alloc, 16)?;
        links_over::<C>(leaves, k, 0, leaves.len(), 16, &mut links)?;
        Ok(LineProof {
            mask,
            links: LineLinks::from_vec(links),
        })
    }

    /// Line `k`, which is below the count.
    pub fn line(&self, k: usize) -> &'a [u8]
        requires { k < length self.now.lines }
        ensures { result.now ≡ line_at self.now k }
    {
        self.lines[k]
    }

    /// Whether line `k`, which is below the count, is this one, and its mask this one.
    pub(crate) fn is_own(&self, k: usize, line: &[u8], mask: &Imprint) -> bool
        requires { k < length self.now.lines }
        ensures { result ≡ (bytes_eq line.now (line_at self.now k) && bytes_eq mask.now (mask_at C.image self.now k)) }
    {
        line == self.line(k) && *mask == mask_of::<C>(&self.seed, self.leaves(), k)
    }

    /// What the leaf of line `k` is joined of.
    pub(crate) fn leaf_parts(&self, k: usize) -> NodeParts
        requires { k < length self.now.lines }
        ensures { node_text result ≡ leaf_text C.image (mask_at C.image self.now k) (line_at self.now k) }
    {
        NodeParts {
            left: mask_of::<C>(&self.seed, self.leaves(), k),
            other: OtherPart::Imprint(C::of(self.line(k))),
            level: 1,
        }
    }

    /// The tree of the `count` leaves from `first`.
    pub(crate) fn tree(&self, first: usize, count: usize) -> Node
        requires some { 0 < count }
        requires within { first + count ≤ length self.now.lines }
        ensures tree { result ≡ tree_from C.image (items_of C.image self.now) first count }
        ensures level { result.level ≤ 17 }
    {
        enough_levels::<Node>();
        tree_over::<C>(self.leaves(), first, count, 16)
    }
}
