//! How masks and leaves are hashed.
ghost use Rattle.std.specs.Prelude.{◌≡◌, ◌≤◌, ◌++◌, length};
ghost use Rattle.ksi_logblock.specs.Blocks.{mask_behind, mask_among, leaf_text};

use ksi_imprint::{Compress, Imprint};

/// The mask of line `k`, of which the leaves before it are given, and perhaps more.
pub(crate) fn mask_of<C: Compress>(seed: &[u8; 32], leaves: &[Imprint], k: usize) -> Imprint
    requires { k ≤ length leaves.now }
    ensures { result ≡ mask_among C.image seed.now leaves.now k }
{
    if k == 0 {
        mask_behind::<C>(seed, &Imprint::ZERO)
    } else {
        mask_behind::<C>(seed, &leaves[k - 1])
    }
}

/// The mask of the line behind a leaf: the hash of the leaf and the seed.
fn mask_behind<C: Compress>(seed: &[u8; 32], leaf: &Imprint) -> Imprint
    ensures { result ≡ mask_behind C.image seed.now leaf.now }
{
    let mut text = [0; 65];
    let (first, second) = text.split_at_mut(33);
    first.copy_from_slice(leaf.bytes());
    second.copy_from_slice(seed);
    C::of(&text)
}

/// The leaf of a line behind its mask.
pub(crate) fn leaf_of<C: Compress>(mask: &Imprint, line: &[u8]) -> Imprint
    ensures { result ≡ C.image (leaf_text C.image mask.now line.now) }
{
    C::join(mask.bytes(), C::of(line).bytes(), 1)
}
