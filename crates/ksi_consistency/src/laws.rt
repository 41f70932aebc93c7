//! What holds of fronts, for the layers above to cite. None of these functions does anything.
ghost use Rattle.std.specs.Prelude.{◌≡◌, ◌<◌, ◌≤◌, ◌+◌, ◌-◌, ◌⊎◌, ◌↔◌, [], ◌∷◌, ◌++◌, ℕ, Bool, true, false, List, length, Ok, Err};
ghost use Rattle.ksi_split.specs.Powers.{IsSplit};
ghost use Rattle.ksi_split.specs.Trees.{tree};
ghost use Rattle.ksi_calendar.specs.Calendar.{Seconds, calendar_leaf, calendar_root};
ghost use Rattle.ksi_consistency.specs.Front.{front_of, count_of, calendar_front, front_count};
ghost use Rattle.ksi_consistency.specs.Checked.{front_checked};
ghost use Rattle.ksi_consistency.specs.declared.fault.FrontFault.{FrontFault};
ghost use Rattle.ksi_consistency.specs.Elements.{Contents, IsFront};
ghost use Rattle.ksi_consistency.specs.File.{IsFrontFile, IsFrontFault};
ghost use Rattle.ksi_consistency.specs.Kinds.{IsInOrder};
ghost use Rattle.ksi_consistency.specs.Reading.{front_at};
ghost use Rattle.ksi_consistency.specs.Written.{front_text};

use crate::fault::FrontFault;
use crate::loading::Loading;
use crate::value::Front;
use ksi_calendar::laws::one_calendar;
use ksi_split::laws::one_split;
use ksi_tlv::laws::{numeral_is_read, written_is_read};
use ksi_tlv::order::laws::{file_is_read, file_or_fault, values_are_bounded};

/// The front of the first leaves in all of them: where these are all leaves it is nothing if the root is given, and else
/// their tree. Where they are in the left part, it is their front there and then the right part; where they fill the left
/// part, it is the front of the others in the right part, of which no root is given, and then the left part.
pub fn one_front<N>()
    ensures given { (join : N → N → N) (leaf : ℕ → N) (lo n : ℕ) → 0 < n → front_of join leaf n lo n true ≡ [] }
    ensures all { (join : N → N → N) (leaf : ℕ → N) (lo n : ℕ) → 0 < n →
        front_of join leaf n lo n false ≡ tree join leaf lo n ∷ [] }
    ensures left { (join : N → N → N) (leaf : ℕ → N) (m lo n k : ℕ) (given : Bool) → 0 < m → IsSplit n k → m ≤ k →
        front_of join leaf m lo n given ≡ front_of join leaf m lo k given ++ tree join leaf (lo + k) (n - k) ∷ [] }
    ensures right { (join : N → N → N) (leaf : ℕ → N) (m lo n k : ℕ) (given : Bool) → IsSplit n k → k < m → m < n →
        front_of join leaf m lo n given ≡ front_of join leaf (m - k) (lo + k) (n - k) false ++ tree join leaf lo k ∷ [] }
{
    one_split();
}

/// A front has as many imprints as are needed, and one of a calendar is accepted between the roots of it and of any
/// calendar with the same leaves to `p1`.
pub fn fronts_are_accepted()
    ensures count { (image : List ℕ → List ℕ) (seconds : Seconds) (p1 p2 : ℕ) → p1 ≤ p2 →
        length (calendar_front image seconds p1 p2) ≡ front_count p1 p2 }
    ensures accepted { (image : List ℕ → List ℕ) (old new : Seconds) (p1 p2 : ℕ) → p1 ≤ p2 →
        ((t : ℕ) → t ≤ p1 → calendar_leaf old t ≡ calendar_leaf new t) →
        front_checked image p1 p2 (calendar_root image old p1) (calendar_root image new p2)
        (calendar_front image new p1 p2) ≡ Ok tt }
{
    one_split();
    one_calendar();
}

/// Bytes are the file of a front or have a first fault, and not both; and they are the file of one front and have one first
/// fault.
pub fn front_or_fault()
    ensures one { (bytes : List ℕ) → ((front : Contents) × IsFrontFile bytes front) ⊎ ((fault : FrontFault) × IsFrontFault bytes fault) }
    ensures not_both { (bytes : List ℕ) (front : Contents) (fault : FrontFault) →
        IsFrontFile bytes front → IsFrontFault bytes fault → ⊥ }
    ensures one_front { (bytes : List ℕ) (some other : Contents) →
        IsFrontFile bytes some → IsFrontFile bytes other → some ≡ other }
    ensures one_fault { (bytes : List ℕ) (fault other : FrontFault) →
        IsFrontFault bytes fault → IsFrontFault bytes other → fault ≡ other }
{
    file_or_fault::<Loading, FrontFault, Front>();
}

/// What the file of a front says is a front. The elements of the file are those of the front, one for one: their kinds are the
/// older second, the newer one, then imprints.
pub fn file_is_front()
    ensures front { (bytes : List ℕ) (front : Contents) → IsFrontFile bytes front → IsFront front }
    ensures kinds { (bytes : List ℕ) (front : Contents) → IsFrontFile bytes front → IsInOrder bytes front }
{
    values_are_bounded();
}

/// The text of a front is a file of that front.
pub fn written_is_front()
    ensures { (front : Contents) → IsFront front → IsFrontFile (front_text front) front }
{
    written_is_read();
    numeral_is_read();
}

/// What `front_at` gives is the front that the bytes are, or their first fault.
pub fn front_is_read()
    ensures front { (bytes : List ℕ) (front : Contents) → (front_at bytes ≡ Ok front) ↔ IsFrontFile bytes front }
    ensures fault { (bytes : List ℕ) (fault : FrontFault) → (front_at bytes ≡ Err fault) ↔ IsFrontFault bytes fault }
{
    file_is_read::<Loading, FrontFault, Front>();
}
