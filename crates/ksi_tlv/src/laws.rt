//! What holds of spellings and numerals, for the layers above to cite. None of these functions does anything.

ghost use Rattle.std.specs.Prelude.{◌≡◌, ◌↔◌, ◌<◌, ◌≤◌, ◌^◌, ◌∷◌, ◌++◌, ◌+◌, [], ℕ, zero, List, length, drop, Ok, Err, All};
ghost use Rattle.std.specs.List.{AllByRecursion};
ghost use Rattle.ksi_tlv.specs.Spelling.{Tlv, FitsLong, Spells, AreBytes, IsFront, canonical};
ghost use Rattle.ksi_tlv.specs.Front.{size_at, element_at};
ghost use Rattle.ksi_tlv.specs.Walking.{Items, placed_at, IsReading, elements, joined, laid, items_of};
ghost use Rattle.ksi_tlv.specs.Numerals.{number_of, numeral};
ghost use Rattle.ksi_tlv.specs.Writing.{texts, placed};

/// No spelling begins another: where bytes begin with spellings of two elements, these are one element in one
/// spelling.
pub fn no_spelling_begins_another()
    ensures { (a b : Tlv) (x y p q : List ℕ) → Spells a x → Spells b y → x ++ p ≡ y ++ q →
        (a ≡ b) × (x ≡ y) }
{}

/// The written form of an element is a spelling, and no other spelling of it is shorter.
pub fn canonical_is_shortest()
    ensures spells { (e : Tlv) → FitsLong e → Spells e (canonical e) }
    ensures shortest { (e : Tlv) (text : List ℕ) → Spells e text → length (canonical e) ≤ length text }
{}

/// The element that is found at the beginning of bytes is the one that is spelled there, whatever follows, and none is
/// found exactly where fewer bytes stand than it takes.
pub fn front_by_spelling()
    ensures found { (bytes : List ℕ) (e : Tlv) (n : ℕ) → AreBytes bytes →
        (element_at bytes ≡ Ok (e, n)) ↔ IsFront bytes e n }
    ensures spelled { (e : Tlv) (text rest : List ℕ) → Spells e text →
        element_at (text ++ rest) ≡ Ok (e, length text) }
    ensures cut { (bytes : List ℕ) (need : ℕ) →
        (element_at bytes ≡ Err need) ↔ ((need ≡ size_at bytes) × (length bytes < need)) }
{}

/// The items of a walk are the reading of its bytes, and bytes have one reading.
pub fn reading_is_elements()
    ensures { (place : ℕ) (bytes : List ℕ) (items : Items) → AreBytes bytes →
        (items ≡ elements place bytes) ↔ IsReading place bytes items }
{}

/// A walk gives nothing of no bytes; else the element at the beginning and then the walk behind it, or the one that is
/// cut off alone.
pub fn walk_by_fronts()
    ensures nothing { (place : ℕ) → elements place [] ≡ [] }
    ensures found { (place : ℕ) (bytes : List ℕ) (e : Tlv) (n : ℕ) → element_at bytes ≡ Ok (e, n) →
        elements place bytes ≡ Ok (placed_at place e n) ∷ elements (place + n) (drop n bytes) }
    ensures cut { (place b : ℕ) (bytes : List ℕ) (need : ℕ) → element_at (b ∷ bytes) ≡ Err need →
        elements place (b ∷ bytes) ≡ Err (record { place = place; need = need; have = length (b ∷ bytes) }) ∷ [] }
{}

/// Elements that are encoded one after the other are read again, each at its place: in any encoding, and as the writer
/// writes them.
pub fn written_is_read()
    ensures joined { (place : ℕ) (parts : List (Tlv × List ℕ)) →
        AllByRecursion (λ part. Spells part.0 part.1) parts →
        elements place (joined parts) ≡ items_of (laid place parts) }
    ensures texts { (place : ℕ) (es : List Tlv) → AllByRecursion FitsLong es →
        elements place (texts es) ≡ items_of (placed place es) }
{}

/// The numeral of a number is read again as that number. It has at most 8 bytes, no zero before the others, and no
/// bytes of the same value are fewer.
pub fn numeral_is_read()
    ensures value { (n : ℕ) → n < 2 ^ 64 → number_of (numeral n) ≡ n }
    ensures size { (n : ℕ) → length (numeral n) ≤ 8 }
    ensures leading { (n : ℕ) (rest : List ℕ) → numeral n ≡ zero ∷ rest → ⊥ }
    ensures fewest { (n : ℕ) (bytes : List ℕ) → n < 2 ^ 64 → AreBytes bytes → number_of bytes ≡ n →
        length (numeral n) ≤ length bytes }
{}
