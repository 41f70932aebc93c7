ghost use Rattle.std.specs.Prelude.{◌≡◌};
ghost use Rattle.ksi_logblock.specs.Proofs.{root_by};

use crate::hashing::leaf_of;
use crate::line_proof::{LineLink, LineProof};
use ksi_aggtree::chains::{LevelFault, climb};
use ksi_imprint::{Compress, Imprint};

/// The imprint of the root that a line and its proof lead to: from the line's leaf, at level 1, along the links.
///
/// # Errors
/// `Over` with the first link whose level passes 255.
pub fn root_of<C: Compress>(line: &[u8], proof: &LineProof) -> Result<Imprint, LevelFault>
    ensures { result ≡ root_by C.image line.now proof.now }
{
    let leaf = leaf_of::<C>(&proof.mask, line);
    match climb::<C, LineLink>(leaf, 1, proof.links.as_slice()) {
        Ok(top) => Ok(top.imprint),
        Err(fault) => Err(fault),
    }
}
