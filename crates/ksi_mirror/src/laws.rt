//! What holds of unions and of merging, for the layers above to cite. None of these functions does anything.
ghost use Rattle.std.specs.Prelude.{◌≡◌, ◌↔◌, ◌⊎◌, ℕ, List, Option, Ok, Err};
ghost use Rattle.ksi_journal.specs.declared.fault.JournalFault.{JournalFault};
ghost use Rattle.ksi_journal.specs.declared.fault.JournalFault.TheVariants.{TreeRoot, Voters};
ghost use Rattle.ksi_mirror.specs.declared.refusal.MergeRefusal.{MergeRefusal};
ghost use Rattle.ksi_mirror.specs.Maps.{AgreeAll, IsUnion};
ghost use Rattle.ksi_mirror.specs.Mirrors.{MirrorState, root_of, list_of, IsMirror};
ghost use Rattle.ksi_mirror.specs.Merging.{MayMerge, Merges, IsMergeRefusal};
ghost use Rattle.ksi_mirror.specs.Merged.{merged_of, merged_then, SameOrRefused};
ghost use Rattle.ksi_mirror.specs.File.{IsMirrorFile, IsMirrorFault};
ghost use Rattle.ksi_mirror.specs.Kinds.{IsInOrder};
ghost use Rattle.ksi_mirror.specs.Reading.{mirror_at};
ghost use Rattle.ksi_mirror.specs.Written.{mirror_text};

use crate::loading::MirrorLoading;
use crate::mirror::Mirror;
use ksi_journal::JournalFault;
use ksi_tlv::laws::{numeral_is_read, written_is_read};
use ksi_tlv::order::laws::{file_is_read, file_or_fault, values_are_bounded};

/// The union of two finite maps that agree: of one map with itself it is that map; it is the same in either order; and
/// three maps have one in the one order exactly where they have it in the other, and then the same. What a map is in a
/// union with, it has nothing to add to.
pub fn unions_join<A>()
    ensures same { (f : ℕ → Option A) → IsUnion f f f }
    ensures either { (f g h : ℕ → Option A) → IsUnion f g h → IsUnion g f h }
    ensures any_order { (f g h fg gh all : ℕ → Option A) → IsUnion f g fg → IsUnion g h gh → IsUnion fg h all ↔ IsUnion f gh all }
    ensures agree { (f g h fg : ℕ → Option A) → IsUnion f g fg → AgreeAll fg h → AgreeAll g h }
    ensures absorbs { (f g h : ℕ → Option A) → IsUnion f g h → IsUnion h f h }
{}

/// What is held as a mirror is one.
pub fn mirror_is_kept(mirror: &Mirror)
    ensures { IsMirror mirror.now }
{
    let _start = mirror.start();
}

/// A mirror is what it has: its start, its roots and its lists.
pub fn mirror_is_what_it_has()
    ensures { (one two : MirrorState) → IsMirror one → IsMirror two → one.start ≡ two.start →
        ((t : ℕ) → root_of one t ≡ root_of two t) → ((t j : ℕ) → list_of one t j ≡ list_of two t j) → one ≡ two }
{}

/// Merging is idempotent, commutative and associative. In both orders two mirrors merge to the same, or neither may be
/// merged with the other; three merge in the one order exactly where they merge in the other, and then to the same. What
/// two merge to is one mirror, and merging one of them again changes nothing.
pub fn merging_is_a_join()
    ensures same { (one : MirrorState) → IsMirror one → Merges one one one }
    ensures either { (one two merged : MirrorState) → Merges one two merged → Merges two one merged }
    ensures any_order { (one two three first second merged : MirrorState) → Merges one two first → Merges two three second →
        Merges first three merged ↔ Merges one second merged }
    ensures both_refused { (one two : MirrorState) → MayMerge one two → MayMerge two one }
    ensures once { (one two merged other : MirrorState) → IsMirror merged → IsMirror other →
        Merges one two merged → Merges one two other → merged ≡ other }
    ensures absorbs { (one two merged : MirrorState) → Merges one two merged → Merges merged one merged }
{
    unions_join::<u8>();
    mirror_is_what_it_has();
}

/// What is merged is not refused, and what is refused is so for one reason.
pub fn merged_or_refused()
    ensures may { (one two merged : MirrorState) → Merges one two merged → MayMerge one two }
    ensures not_both { (one two : MirrorState) (refusal : MergeRefusal) → MayMerge one two → IsMergeRefusal one two refusal → ⊥ }
    ensures one_reason { (one two : MirrorState) (refusal other : MergeRefusal) →
        IsMergeRefusal one two refusal → IsMergeRefusal one two other → refusal ≡ other }
{}

/// The function that merges two mirrors gives their union, which is a mirror, or the reason why they have none.
pub fn merged_is_merging()
    ensures merged { (one two : MirrorState) → IsMirror one → IsMirror two → (merged : MirrorState) →
        (merged_of one two ≡ Ok merged) ↔ (IsMirror merged × Merges one two merged) }
    ensures refused { (one two : MirrorState) → IsMirror one → IsMirror two → (refusal : MergeRefusal) →
        (merged_of one two ≡ Err refusal) ↔ IsMergeRefusal one two refusal }
{}

/// Merging as a function is idempotent, commutative and associative. Whatever the order, two or three mirrors give the same
/// one, or are refused, perhaps for different reasons; and merging one of them again changes nothing.
pub fn merged_is_a_join()
    ensures same { (one : MirrorState) → IsMirror one → merged_of one one ≡ Ok one }
    ensures either { (one two : MirrorState) → IsMirror one → IsMirror two → SameOrRefused (merged_of one two) (merged_of two one) }
    ensures any_order { (one two three : MirrorState) → IsMirror one → IsMirror two → IsMirror three →
        SameOrRefused (merged_then (merged_of one two) (λ first. merged_of first three))
        (merged_then (merged_of two three) (λ second. merged_of one second)) }
    ensures again { (one two merged : MirrorState) → IsMirror one → IsMirror two →
        merged_of one two ≡ Ok merged → merged_of merged one ≡ Ok merged }
{}

/// What a mirror's file says is a mirror. The elements of the file are those of the mirror, one for one: their kinds are the
/// start, then roots, lists each followed by its items, and the end.
pub fn file_is_mirror()
    ensures mirror { (bytes : List ℕ) (mirror : MirrorState) → IsMirrorFile bytes mirror → IsMirror mirror }
    ensures kinds { (bytes : List ℕ) (mirror : MirrorState) → IsMirrorFile bytes mirror → IsInOrder bytes mirror }
{
    values_are_bounded();
}

/// Bytes are a mirror's file or have a first fault, and not both; and they are of one mirror and have one first fault.
pub fn mirror_or_fault()
    ensures one { (bytes : List ℕ) →
        ((mirror : MirrorState) × IsMirrorFile bytes mirror) ⊎ ((fault : JournalFault) × IsMirrorFault bytes fault) }
    ensures not_both { (bytes : List ℕ) (mirror : MirrorState) (fault : JournalFault) →
        IsMirrorFile bytes mirror → IsMirrorFault bytes fault → ⊥ }
    ensures one_mirror { (bytes : List ℕ) (some other : MirrorState) →
        IsMirrorFile bytes some → IsMirrorFile bytes other → some ≡ other }
    ensures one_fault { (bytes : List ℕ) (fault other : JournalFault) →
        IsMirrorFault bytes fault → IsMirrorFault bytes other → fault ≡ other }
{
    file_or_fault::<MirrorLoading, JournalFault, Mirror>();
}

/// No fault of a mirror's file is about the tree of a second, J4, or about voters, J10.
pub fn no_tree_and_no_voters()
    ensures tree { (bytes : List ℕ) (second : ℕ) (root computed : List ℕ) → IsMirrorFault bytes (TreeRoot second root computed) → ⊥ }
    ensures voters { (bytes : List ℕ) (place : ℕ) → IsMirrorFault bytes (Voters place) → ⊥ }
{}

/// What is read in bytes is the mirror that they are, or their first fault.
pub fn mirror_is_read()
    ensures mirror { (bytes : List ℕ) (mirror : MirrorState) → (mirror_at bytes ≡ Ok mirror) ↔ IsMirrorFile bytes mirror }
    ensures fault { (bytes : List ℕ) (fault : JournalFault) → (mirror_at bytes ≡ Err fault) ↔ IsMirrorFault bytes fault }
{
    file_is_read::<MirrorLoading, JournalFault, Mirror>();
}

/// The text of a mirror is a file of that mirror.
pub fn written_is_mirror()
    ensures { (mirror : MirrorState) → IsMirror mirror → IsMirrorFile (mirror_text mirror) mirror }
{
    written_is_read();
    numeral_is_read();
}
