//! What holds of elements in a stated order, for the layers above to cite. None of these functions does anything.
ghost use Rattle.std.specs.Prelude.{◌≡◌, ◌⊎◌, ◌↔◌, ◌<◌, ◌^◌, ℕ, List, Ok, Err};
ghost use Rattle.ksi_imprint.specs.Imprints.{IsImprint};
ghost use Rattle.ksi_tlv.specs.Walking.{PlacedTlv, Items};
ghost use Rattle.ksi_tlv.specs.Order.{Order, walked};
ghost use Rattle.ksi_tlv.specs.Values.{time_at, imprint_at};
ghost use Rattle.ksi_tlv.specs.Sequence.{IsWhole, IsFirstFault};
ghost use Rattle.ksi_tlv.specs.Format.{Format, IsFile, IsFileFault};
ghost use Rattle.ksi_tlv.specs.Reading.{file_at};

/// Elements up to an end are whole and lead to a state, or have a first fault, and not both; and they have one such
/// state and one first fault.
pub fn whole_or_fault<S, F>()
    ensures one { (o : Order S F) (end : ℕ) (items : Items) (s : S) →
        ((t : S) × IsWhole o items s t) ⊎ ((fault : F) × IsFirstFault o end items s fault) }
    ensures not_both { (o : Order S F) (end : ℕ) (items : Items) (s t : S) (fault : F) →
        IsWhole o items s t → IsFirstFault o end items s fault → ⊥ }
    ensures one_state { (o : Order S F) (items : Items) (s t u : S) →
        IsWhole o items s t → IsWhole o items s u → t ≡ u }
    ensures one_fault { (o : Order S F) (end : ℕ) (items : Items) (s : S) (fault other : F) →
        IsFirstFault o end items s fault → IsFirstFault o end items s other → fault ≡ other }
{}

/// What `walked` comes to is what whole elements lead to, or their first fault.
pub fn walked_says<S, F>()
    ensures whole { (o : Order S F) (end : ℕ) (items : Items) (s t : S) →
        (walked o end items s ≡ Ok t) ↔ IsWhole o items s t }
    ensures fault { (o : Order S F) (end : ℕ) (items : Items) (s : S) (fault : F) →
        (walked o end items s ≡ Err fault) ↔ IsFirstFault o end items s fault }
{}

/// A time that was read is below 2^63, and an imprint that was read is one.
pub fn values_are_bounded()
    ensures early { (at : PlacedTlv) (t : ℕ) → time_at at ≡ Ok t → t < 2 ^ 63 }
    ensures imprint { (at : PlacedTlv) (imprint : List ℕ) → imprint_at at ≡ Ok imprint → IsImprint imprint }
{}

/// Bytes are the file of a value or have a first fault, and not both; and they are the file of one value and have one first
/// fault.
pub fn file_or_fault<S, F, A>()
    ensures one { (f : Format S F A) (bytes : List ℕ) → ((value : A) × IsFile f bytes value) ⊎ ((fault : F) × IsFileFault f bytes fault) }
    ensures not_both { (f : Format S F A) (bytes : List ℕ) (value : A) (fault : F) →
        IsFile f bytes value → IsFileFault f bytes fault → ⊥ }
    ensures one_value { (f : Format S F A) (bytes : List ℕ) (some other : A) →
        IsFile f bytes some → IsFile f bytes other → some ≡ other }
    ensures one_fault { (f : Format S F A) (bytes : List ℕ) (fault other : F) →
        IsFileFault f bytes fault → IsFileFault f bytes other → fault ≡ other }
{
    walked_says::<S, F>();
}

/// What `file_at` gives is the value that the bytes are the file of, or their first fault.
pub fn file_is_read<S, F, A>()
    ensures value { (f : Format S F A) (bytes : List ℕ) (value : A) → (file_at f bytes ≡ Ok value) ↔ IsFile f bytes value }
    ensures fault { (f : Format S F A) (bytes : List ℕ) (fault : F) → (file_at f bytes ≡ Err fault) ↔ IsFileFault f bytes fault }
{
    walked_says::<S, F>();
}
