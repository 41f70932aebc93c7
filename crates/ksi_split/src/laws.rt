//! What holds of splits, ways and the second that sides name, for the layers above to cite. None of these functions
//! does anything.
ghost use Rattle.std.specs.Prelude.{◌≡◌, ◌<◌, ◌≤◌, ◌+◌, ◌-◌, ◌^◌, ◌↔◌, ◌⊎◌, ℕ, List, [], ◌∷◌, ◌++◌, length};
ghost use Rattle.ksi_split.specs.Powers.{IsSplit, IsHighBit, split_of, high_bit_of};
ghost use Rattle.ksi_split.specs.Ways.{IsWay, way_of, LeadsTo, NamesSecond, PassesLeaf, EndsAbove};
ghost use Rattle.ksi_split.specs.Parts.{Part, part_at, second_at};
ghost use Rattle.ksi_split.specs.declared.side.Side.{Side};
ghost use Rattle.ksi_split.specs.declared.side.Side.TheVariants.{Left, Right};
ghost use Rattle.ksi_split.specs.declared.fault.ShapeFault.TheVariants.{TooMany, TooFew};

/// A number above 1 has one split, and a number above 0 one high bit: those that `split_of` and `high_bit_of` compute.
pub fn one_split()
    ensures split { (n k : ℕ) → 1 < n → IsSplit n k ↔ (k ≡ split_of n) }
    ensures high_bit { (n k : ℕ) → 0 < n → IsHighBit n k ↔ (k ≡ high_bit_of n) }
{}

/// Each leaf has one path: the one that `way_of` computes. If there is one leaf, the path has no sides. Otherwise it is
/// left and the path among the leaves of the left part, or right and the path among the others.
pub fn one_way()
    ensures way { (t n : ℕ) (sides : List Side) → IsWay t n sides ↔ ((t < n) × (sides ≡ way_of t n)) }
    ensures one_leaf { way_of 0 1 ≡ [] }
    ensures left { (t n : ℕ) → 1 < n → t < split_of n → way_of t n ≡ Left ∷ way_of t (split_of n) }
    ensures right { (t n : ℕ) → 1 < n → split_of n ≤ t →
        way_of t n ≡ Right ∷ way_of (t - split_of n) (n - split_of n) }
{}

/// Different leaves have different ways.
pub fn different_ways()
    ensures { (t u n : ℕ) (sides : List Side) → IsWay t n sides → IsWay u n sides → t ≡ u }
{}

/// No way goes on as another.
pub fn no_way_goes_on()
    ensures { (t u n : ℕ) (sides more : List Side) →
        IsWay t n sides → IsWay u n (sides ++ more) → more ≡ [] }
{}

/// A way among at most `2 ^ k` leaves has at most `k` sides.
pub fn short_ways()
    ensures { (t n k : ℕ) (sides : List Side) → n ≤ 2 ^ k → IsWay t n sides → length sides ≤ k }
{}

/// The part that `part_at` comes to, going down from the top, has exactly the leaves whose ways begin with the sides;
/// and where some leaves have such ways, it comes to their part.
pub fn parts()
    ensures leaves { (n : ℕ) (sides : List Side) (part : Part) → 0 < n →
        part_at 0 (record { first = 0; count = n }) sides ≡ Ok part → LeadsTo n sides part.first part.count }
    ensures only { (n first count : ℕ) (sides : List Side) → LeadsTo n sides first count →
        part_at 0 (record { first = 0; count = n }) sides ≡ Ok (record { first = first; count = count }) }
{}

/// Sides end above a second exactly where some way goes on from them.
pub fn proper_fronts()
    ensures goes_on { (p rest : ℕ) (sides : List Side) → EndsAbove p sides rest →
        (t : ℕ) × (side : Side) × (more : List Side) × IsWay t (p + 1) (sides ++ side ∷ more) }
    ensures ends_above { (p t : ℕ) (side : Side) (sides more : List Side) →
        IsWay t (p + 1) (sides ++ side ∷ more) → (rest : ℕ) × EndsAbove p sides rest }
{}

/// Any sides are the way to a second, or pass one, or end above one, and `second_at` says which.
pub fn one_answer()
    ensures some { (p : ℕ) (sides : List Side) →
        ((t : ℕ) × NamesSecond p sides t) ⊎
        (((place : ℕ) × PassesLeaf p sides place) ⊎ ((rest : ℕ) × EndsAbove p sides rest)) }
    ensures second { (p t : ℕ) (sides : List Side) →
        (second_at p sides ≡ Ok t) ↔ NamesSecond p sides t }
    ensures too_many { (p place : ℕ) (sides : List Side) →
        (second_at p sides ≡ Err (TooMany place)) ↔ PassesLeaf p sides place }
    ensures too_few { (p rest : ℕ) (sides : List Side) →
        (second_at p sides ≡ Err (TooFew rest)) ↔ EndsAbove p sides rest }
{}

/// Sides that are the way to a second pass none and end above none, and sides that pass one end above none. There is
/// one second, one place and one rest.
pub fn only_one_answer()
    ensures second_or_place { (p t place : ℕ) (sides : List Side) →
        NamesSecond p sides t → ¬ PassesLeaf p sides place }
    ensures second_or_rest { (p t rest : ℕ) (sides : List Side) →
        NamesSecond p sides t → ¬ EndsAbove p sides rest }
    ensures place_or_rest { (p place rest : ℕ) (sides : List Side) →
        PassesLeaf p sides place → ¬ EndsAbove p sides rest }
    ensures one_second { (p t u : ℕ) (sides : List Side) →
        NamesSecond p sides t → NamesSecond p sides u → t ≡ u }
    ensures one_place { (p place other : ℕ) (sides : List Side) →
        PassesLeaf p sides place → PassesLeaf p sides other → place ≡ other }
    ensures one_rest { (p rest other : ℕ) (sides : List Side) →
        EndsAbove p sides rest → EndsAbove p sides other → rest ≡ other }
{}
