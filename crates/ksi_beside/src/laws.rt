//! What holds of links beside a kept tree, for the layers above to cite. None of these functions does anything.
ghost use Rattle.std.specs.Prelude.{◌≡◌, ◌++◌, [], ℕ, Bool, List, true, None, Some, Option};
ghost use Rattle.std.specs.List.{AllByRecursion};
ghost use Rattle.ksi_imprint.specs.Imprints.{IsClash};
ghost use Rattle.ksi_split.specs.declared.side.Side.{Side};
ghost use Rattle.ksi_beside.specs.declared.walk.Walk.{Walk};
ghost use Rattle.ksi_beside.specs.Beside.{Pair, Rung, differing, laid_on, pairs_below};
ghost use Rattle.ksi_beside.specs.Standing.{Holds, IsTree, Walked};

/// Links that are laid beside a tree one after the other are laid beside it together.
pub fn one_after_another()
    ensures none { (kept : List Side → Option (List ℕ)) (walk : Walk) → laid_on kept walk [] ≡ walk }
    ensures together { (kept : List Side → Option (List ℕ)) (walk : Walk) (rungs more : List Rung) →
        laid_on kept walk (rungs ++ more) ≡ laid_on kept (laid_on kept walk rungs) more }
{}

/// Links that lead up to a node of a tree, each of which fits it: the first of their strings that differs from the tree's
/// is a clash with it, and if none differs, they are in the tree.
pub fn beside_a_tree()
    ensures clash { (image : List ℕ → List ℕ) (kept : List Side → Option (List ℕ)) (node : List Side → Option (List ℕ))
        (fits : Rung → Bool) (rungs : List Rung) (above : List Side) (x y : List ℕ) (pair : Pair) →
        IsTree image kept node fits → node above ≡ Some y → AllByRecursion (λ rung. fits rung ≡ true) rungs →
        Holds image x y rungs → differing (pairs_below kept above rungs) ≡ Some pair →
        IsClash image (record { one = pair.0; two = pair.1 }) }
    ensures within { (image : List ℕ → List ℕ) (kept : List Side → Option (List ℕ)) (node : List Side → Option (List ℕ))
        (fits : Rung → Bool) (rungs : List Rung) (above : List Side) (x y : List ℕ) →
        IsTree image kept node fits → node above ≡ Some y → AllByRecursion (λ rung. fits rung ≡ true) rungs →
        Holds image x y rungs → differing (pairs_below kept above rungs) ≡ None →
        Walked image kept node above x rungs }
{}
