//! What holds of blocks, for the layers above to cite. None of these functions does anything.
ghost use Rattle.std.specs.Prelude.{◌≡◌, ◌<◌, ◌≤◌, ◌+◌, ◌↔◌, ◌⊎◌, ◌++◌, ℕ, List, Some, Ok, Err, length};
ghost use Rattle.std.specs.List.{AllByRecursion};
ghost use Rattle.ksi_imprint.specs.Imprints.{IsImprint, join_text, zero_imprint};
ghost use Rattle.ksi_split.specs.Ways.{way_of};
ghost use Rattle.ksi_aggtree.specs.Climbing.{level_after};
ghost use Rattle.ksi_aggtree.specs.Owned.{plain_links};
ghost use Rattle.ksi_aggtree.specs.Paths.{chain_of};
ghost use Rattle.ksi_aggtree.specs.Rounds.{tree_of};
ghost use Rattle.ksi_aggtree.specs.Links.{highest_level};
ghost use Rattle.ksi_logblock.specs.Blocks.{Masked, block_root, items_of, leaf_at, leaves_of, line_at, mask_at, most_lines};
ghost use Rattle.ksi_logblock.specs.File.{IsProofFile, IsProofFault, proof_text};
ghost use Rattle.ksi_logblock.specs.Kept.{IsLineLink};
ghost use Rattle.ksi_logblock.specs.Kinds.{IsInOrder};
ghost use Rattle.ksi_logblock.specs.Links.{most_links, plain_line_links, sides_of};
ghost use Rattle.ksi_logblock.specs.declared.logs.LogRefusal.{LogRefusal};
ghost use Rattle.ksi_logblock.specs.LogReading.{log_at};
ghost use Rattle.ksi_logblock.specs.Logs.{IsLogOf, IsLogRefusal, MakeBlock, lines_of};
ghost use Rattle.ksi_logblock.specs.declared.proof_fault.ProofFault.{ProofFault};
ghost use Rattle.ksi_logblock.specs.Locating.{kept_root, located};
ghost use Rattle.ksi_logblock.specs.ProofReading.{proof_at};
ghost use Rattle.ksi_logblock.specs.Proofs.{own_proof, root_by};
ghost use Rattle.ksi_logblock.specs.Shown.{HasImprints, IsLine, LeadsToRoot, Shows, StandsOrClash};
ghost use Rattle.ksi_logblock.specs.declared.line_proof.LineProof.{LineProof};
ghost use Rattle.ksi_logblock.specs.declared.locating.Located.TheVariants as answers;

use crate::line_proof::LineProof;
use crate::proof_fault::ProofFault;
use crate::said::Reading;
use ksi_aggtree::chains::laws::one_climb;
use ksi_aggtree::laws::{one_chain, one_round};
use ksi_beside::laws::beside_a_tree;
use ksi_split::laws::{one_answer, one_split, one_way};
use ksi_tlv::laws::{numeral_is_read, written_is_read};
use ksi_tlv::order::laws as formats;

/// The first mask is the hash of the zero imprint and the seed, each later one that of the leaf before and the seed. A leaf is
/// the join of its line's mask and hash, at level 1.
pub fn masks_and_leaves()
    ensures first { (image : List ℕ → List ℕ) (block : Masked) →
        mask_at image block 0 ≡ image (zero_imprint ++ block.seed) }
    ensures later { (image : List ℕ → List ℕ) (block : Masked) (k : ℕ) →
        mask_at image block (k + 1) ≡ image (leaf_at image block k ++ block.seed) }
    ensures leaf { (image : List ℕ → List ℕ) (block : Masked) (k : ℕ) → k < length block.lines →
        leaf_at image block k ≡ image (join_text (mask_at image block k) (image (line_at block k)) 1) }
    ensures count { (image : List ℕ → List ℕ) (block : Masked) →
        length (leaves_of image block) ≡ length block.lines }
{}

/// A line's own mask and chain lead to the block's root, and the chain's sides from the top are the line's way.
pub(crate) fn own_proofs()
    ensures root { (image : List ℕ → List ℕ) (block : Masked) (proof : LineProof) (k : ℕ) → k < length block.lines →
        proof.mask ≡ mask_at image block k → plain_line_links proof.links ≡ plain_links (chain_of image (items_of image block) k) →
        length block.lines ≤ most_lines → root_by image (line_at block k) proof ≡ Ok (kept_root image block) }
    ensures way { (image : List ℕ → List ℕ) (block : Masked) (proof : LineProof) (k : ℕ) → k < length block.lines →
        proof.mask ≡ mask_at image block k → plain_line_links proof.links ≡ plain_links (chain_of image (items_of image block) k) →
        sides_of proof.links ≡ way_of k (length block.lines) }
    ensures own { (image : List ℕ → List ℕ) (block : Masked) (proof : LineProof) (k : ℕ) →
        proof.mask ≡ mask_at image block k → plain_line_links proof.links ≡ plain_links (chain_of image (items_of image block) k) →
        proof ≡ own_proof image block k }
{
    one_chain();
    one_climb();
}

/// A block that has lines has a root.
pub fn lines_have_a_root()
    ensures { (image : List ℕ → List ℕ) (block : Masked) → 0 < length block.lines →
        block_root image block ≡ Some (tree_of image (items_of image block)) }
{}

/// Each answer about a line and a proof over a block is true, for every hash function whose images are imprints. The line
/// is found exactly if it is in the block, and its proof has its own mask and sides.
pub fn location_shows()
    ensures shows { (image : List ℕ → List ℕ) (block : Masked) (line : List ℕ) (proof : LineProof) →
        ((bytes : List ℕ) → IsImprint (image bytes)) → 0 < length block.lines → IsImprint proof.mask →
        AllByRecursion (λ link. length link.sibling ≡ 33) proof.links → Shows image block line proof (located image block line proof) }
    ensures inside { (image : List ℕ → List ℕ) (block : Masked) (line : List ℕ) (proof : LineProof) (k : ℕ) →
        ((bytes : List ℕ) → IsImprint (image bytes)) → 0 < length block.lines → IsImprint proof.mask →
        AllByRecursion (λ link. length link.sibling ≡ 33) proof.links →
        (located image block line proof ≡ answers.In k) ↔ (LeadsToRoot image block line proof × IsLine image block line proof k) }
{
    masks_and_leaves();
    one_round();
    beside_a_tree();
    one_answer();
    one_split();
    one_way();
}

/// Whatever proof leads to the root of a block shows its line in the block, or the two strings that it is located by are different
/// and have one hash.
pub fn leading_proof_shows()
    ensures { (image : List ℕ → List ℕ) (block : Masked) (line : List ℕ) (proof : LineProof) →
        ((bytes : List ℕ) → IsImprint (image bytes)) → 0 < length block.lines → HasImprints proof →
        LeadsToRoot image block line proof → StandsOrClash image block line proof }
{
    location_shows();
}

/// The file of a proof is a file of that proof.
pub fn text_is_proof()
    ensures { (proof : LineProof) → IsImprint proof.mask → length proof.links ≤ most_links → AllByRecursion IsLineLink proof.links →
        IsProofFile (proof_text proof) proof }
{
    written_is_read();
    numeral_is_read();
}

/// Bytes are the file of a proof or have a first fault, and not both; and they are that of one proof and have one first fault.
pub fn file_or_fault()
    ensures one { (bytes : List ℕ) → ((proof : LineProof) × IsProofFile bytes proof) ⊎ ((fault : ProofFault) × IsProofFault bytes fault) }
    ensures not_both { (bytes : List ℕ) (proof : LineProof) (fault : ProofFault) →
        IsProofFile bytes proof → IsProofFault bytes fault → ⊥ }
    ensures one_proof { (bytes : List ℕ) (some other : LineProof) →
        IsProofFile bytes some → IsProofFile bytes other → some ≡ other }
    ensures one_fault { (bytes : List ℕ) (fault other : ProofFault) →
        IsProofFault bytes fault → IsProofFault bytes other → fault ≡ other }
{
    formats::file_or_fault::<Reading, ProofFault, LineProof>();
}

/// The elements of a line's proof in a file are those of the proof, one for one: their kinds are the mask, then links.
pub fn file_is_in_order()
    ensures { (bytes : List ℕ) (proof : LineProof) → IsProofFile bytes proof → IsInOrder bytes proof }
{}

/// What `proof_at` gives is the proof that the bytes are, or their first fault.
pub fn proof_is_read()
    ensures proof { (bytes : List ℕ) (proof : LineProof) → (proof_at bytes ≡ Ok proof) ↔ IsProofFile bytes proof }
    ensures fault { (bytes : List ℕ) (fault : ProofFault) → (proof_at bytes ≡ Err fault) ↔ IsProofFault bytes fault }
{
    formats::file_is_read::<Reading, ProofFault, LineProof>();
}

/// A log is cut into its lines: they have no line feeds, and one follows each of them, except perhaps the last. It is the
/// log of no other lines.
pub fn log_is_of_lines()
    ensures cut { (log : List ℕ) → IsLogOf log (lines_of log) }
    ensures alone { (log : List ℕ) (lines : List (List ℕ)) → IsLogOf log lines → lines ≡ lines_of log }
{}

/// The lines of a log make a block, or one refusal applies, and not both.
pub fn log_or_refusal()
    ensures one { (lines : List (List ℕ)) → MakeBlock lines ⊎ ((refusal : LogRefusal) × IsLogRefusal lines refusal) }
    ensures not_both { (lines : List (List ℕ)) (refusal : LogRefusal) → MakeBlock lines → IsLogRefusal lines refusal → ⊥ }
    ensures one_refusal { (lines : List (List ℕ)) (refusal other : LogRefusal) →
        IsLogRefusal lines refusal → IsLogRefusal lines other → refusal ≡ other }
{}

/// `log_at` returns the lines of a log if they make a block, or else the refusal that applies.
pub fn log_is_read()
    ensures lines { (log : List ℕ) (lines : List (List ℕ)) →
        (log_at log ≡ Ok lines) ↔ ((lines ≡ lines_of log) × MakeBlock (lines_of log)) }
    ensures refusal { (log : List ℕ) (refusal : LogRefusal) → (log_at log ≡ Err refusal) ↔ IsLogRefusal (lines_of log) refusal }
{}

/// No level passes 255 where a line and its proof lead to a root.
pub(crate) fn low_levels()
    ensures { (image : List ℕ → List ℕ) (line root : List ℕ) (proof : LineProof) → root_by image line proof ≡ Ok root →
        level_after 1 (plain_line_links proof.links) ≤ highest_level }
{}
