//! What holds of climbing and of shapes, for the layers above to cite. None of these functions does anything.
ghost use Rattle.std.specs.Prelude.{◌≡◌, ◌<◌, ◌≤◌, ◌+◌, ◌↔◌, ◌⊎◌, ℕ, List, [], ◌++◌, length, Ok, Err, ◌^◌, ◌∷◌};
ghost use Rattle.ksi_split.specs.declared.side.Side.{Side};
ghost use Rattle.ksi_aggtree.specs.Links.{PlainLink};
ghost use Rattle.ksi_aggtree.specs.Climbing.{Leads, Climbs, PassesLevels, level_after, climbed};
ghost use Rattle.ksi_aggtree.specs.Shapes.{IsShape, left_powers, shape_of};
ghost use Rattle.ksi_aggtree.specs.declared.chains.node.Node.{Node};
ghost use Rattle.ksi_aggtree.specs.declared.chains.climbing.LevelFault.TheVariants.{Over};

/// Links lead from a node to one other, or the level of one of them is the first to pass 255, and not both. `climbed`
/// says which.
pub fn one_climb()
    ensures some { (image : List ℕ → List ℕ) (start : Node) (links : List PlainLink) →
        ((top : Node) × Climbs image start links top) ⊎
        ((place : ℕ) × (high : ℕ) × PassesLevels start.level links place high) }
    ensures one_top { (image : List ℕ → List ℕ) (start one other : Node) (links : List PlainLink) →
        Climbs image start links one → Climbs image start links other → one ≡ other }
    ensures one_fault { (start place high other_place other : ℕ) (links : List PlainLink) →
        PassesLevels start links place high → PassesLevels start links other_place other →
        (place ≡ other_place) × (high ≡ other) }
    ensures not_both { (image : List ℕ → List ℕ) (start top : Node) (links : List PlainLink) (place high : ℕ) →
        Climbs image start links top → ¬ PassesLevels start.level links place high }
    ensures climbs { (image : List ℕ → List ℕ) (start top : Node) (links : List PlainLink) →
        (climbed image 0 start links ≡ Ok top) ↔ Climbs image start links top }
    ensures over { (image : List ℕ → List ℕ) (start : Node) (links : List PlainLink) (place high : ℕ) →
        (climbed image 0 start links ≡ Err (Over place high)) ↔ PassesLevels start.level links place high }
{}

/// Climbing along links and then along more links, at the level that was reached, is climbing along all of them.
pub fn one_after_another()
    ensures together { (image : List ℕ → List ℕ) (start middle top : Node) (links more : List PlainLink) →
        Climbs image start links middle → Climbs image middle more top → Climbs image start (links ++ more) top }
    ensures apart { (image : List ℕ → List ℕ) (start top : Node) (links more : List PlainLink) →
        Climbs image start (links ++ more) top →
        (middle : Node) × Climbs image start links middle × Climbs image middle more top }
    ensures value { (image : List ℕ → List ℕ) (start middle : Node) (links more : List PlainLink) (place : ℕ) →
        climbed image place start links ≡ Ok middle →
        climbed image place start (links ++ more) ≡ climbed image (place + length links) middle more }
{}

/// A level rises with each link: by one and the link's correction.
pub fn levels_rise()
    ensures one_link { (image : List ℕ → List ℕ) (link : PlainLink) (below above : Node) →
        Leads image link below above → below.level < above.level }
    ensures sum { (image : List ℕ → List ℕ) (start top : Node) (links : List PlainLink) →
        Climbs image start links top → top.level ≡ level_after start.level links }
    ensures count { (level : ℕ) (links : List PlainLink) →
        level + length links ≤ level_after level links }
{}

/// Sides have one shape: the number that `shape_of` computes. A chain without links has the shape 1, and two lists of
/// sides that have one shape are equal.
pub fn one_shape()
    ensures shape { (sides : List Side) (shape : ℕ) → IsShape sides shape ↔ (shape ≡ shape_of sides) }
    ensures no_links { shape_of [] ≡ 1 }
    ensures fits { (sides : List Side) → length sides ≤ 63 → shape_of sides < 2 ^ 64 }
    ensures first { (place : ℕ) (side : Side) (sides : List Side) →
        left_powers place (side ∷ sides) ≡ left_powers place (side ∷ []) + left_powers (place + 1) sides }
    ensures same_sides { (one other : List Side) → shape_of one ≡ shape_of other → one ≡ other }
{}
