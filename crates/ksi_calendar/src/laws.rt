//! What holds of the calendar's definitions, for the layers above to cite. None of these functions does anything.
ghost use Rattle.std.specs.Prelude.{◌≡◌, ◌↔◌, ◌<◌, ◌≤◌, ◌+◌, ◌-◌, ◌^◌, ℕ, suc, List, length, Some, None, IsSome, IsTrue, ◌++◌};
ghost use Rattle.ksi_split.specs.Powers.{IsSplit};
ghost use Rattle.ksi_split.specs.Ways.{way_of, LeadsTo, PassesLeaf};
ghost use Rattle.ksi_split.specs.declared.side.Side.{Side};
ghost use Rattle.ksi_calendar.specs.Climbing.{ClimbsCalendar, calendar_join, calendar_element_text};
ghost use Rattle.ksi_calendar.specs.Sides.{sides_from_top};
ghost use Rattle.ksi_calendar.specs.Calendar.{Seconds, calendar_leaf, calendar_tree, calendar_root, calendar_path, is_covered, node_of};
ghost use Rattle.ksi_calendar.specs.Covered.{Roots, IsCovered, IsFirstMissing, first_missing, covered_seconds, covered_root, covered_path, second_leaf};
ghost use Rattle.ksi_split.specs.Trees.{climb_links, link_from};
ghost use Rattle.ksi_split.specs.declared.tree_link.TreeLink.{TreeLink};

use ksi_imprint::Imprint;
use ksi_split::trees::{one_node, one_path, one_tree};

/// The calendar tree of one second is its leaf. The tree of more is the join, at the level byte 0xff, of the trees of
/// both parts that they are split into. A tree depends on its own seconds alone.
pub fn one_calendar()
    ensures one_second { (image : List ℕ → List ℕ) (seconds : Seconds) (lo : ℕ) →
        calendar_tree image seconds lo 1 ≡ calendar_leaf seconds lo }
    ensures cut { (image : List ℕ → List ℕ) (seconds : Seconds) (lo n k : ℕ) → IsSplit n k →
        calendar_tree image seconds lo n ≡
        calendar_join image (calendar_tree image seconds lo k) (calendar_tree image seconds (lo + k) (n - k)) }
    ensures own_seconds { (image : List ℕ → List ℕ) (seconds other : Seconds) (lo n : ℕ) → 0 < n →
        ((t : ℕ) → lo ≤ t → t < lo + n → calendar_leaf seconds t ≡ calendar_leaf other t) →
        calendar_tree image seconds lo n ≡ calendar_tree image other lo n }
{
    one_tree::<Imprint>();
}

/// The chain of a second leads from its leaf to the root, and its sides from the top are the second's way.
pub fn one_chain()
    ensures climbs { (image : List ℕ → List ℕ) (seconds : Seconds) (t p : ℕ) → t ≤ p →
        ClimbsCalendar image (calendar_leaf seconds t) (calendar_path image seconds t p) (calendar_root image seconds p) }
    ensures way { (image : List ℕ → List ℕ) (seconds : Seconds) (t p : ℕ) →
        sides_from_top (calendar_path image seconds t p) ≡ way_of t (p + 1) }
{
    one_path::<Imprint>();
    one_climb();
}

/// The node that sides lead to in the tree of a covered second is the calendar tree of their part. Sides that pass a
/// leaf lead to none.
pub fn one_part()
    ensures some { (image : List ℕ → List ℕ) (seconds : Seconds) (p first count : ℕ) (sides : List Side) →
        IsTrue (is_covered seconds p) → LeadsTo (p + 1) sides first count →
        node_of image seconds p sides ≡ Some (calendar_tree image seconds first count) }
    ensures none { (image : List ℕ → List ℕ) (seconds : Seconds) (p place : ℕ) (sides : List Side) →
        PassesLeaf p sides place → node_of image seconds p sides ≡ None }
{
    one_node::<Imprint>();
}

/// The first missing second is the one that `IsFirstMissing` tells. There is none exactly where each second has a root.
pub fn one_first_missing()
    ensures some { (roots : Roots) (start last second : ℕ) →
        (first_missing roots start last ≡ Some second) ↔ IsFirstMissing roots start last second }
    ensures none { (roots : Roots) (start last : ℕ) →
        (first_missing roots start last ≡ None) ↔ ((t : ℕ) → start ≤ t → t ≤ last → IsSome (roots t)) }
{}

/// The leaves of the calendar of covered seconds are those of the seconds. A calendar with these leaves to p has its root
/// and its chains; and one whose roots are those that are known is the calendar of covered seconds.
pub fn one_covered()
    ensures leaves { (roots : Roots) (start last t : ℕ) → t ≤ last →
        calendar_leaf (covered_seconds roots start last) t ≡ second_leaf roots start t }
    ensures root { (image : List ℕ → List ℕ) (seconds : Seconds) (roots : Roots) (start p : ℕ) →
        ((t : ℕ) → t ≤ p → calendar_leaf seconds t ≡ second_leaf roots start t) →
        calendar_root image seconds p ≡ covered_root image roots start p }
    ensures path { (image : List ℕ → List ℕ) (seconds : Seconds) (roots : Roots) (start t p : ℕ) →
        ((u : ℕ) → u ≤ p → calendar_leaf seconds u ≡ second_leaf roots start u) →
        calendar_path image seconds t p ≡ covered_path image roots start t p }
    ensures seconds { (seconds : Seconds) (roots : Roots) (last : ℕ) → suc last ≡ seconds.start + length seconds.roots →
        ((t : ℕ) → seconds.start ≤ t → t ≤ last → roots t ≡ Some (calendar_leaf seconds t)) →
        seconds ≡ covered_seconds roots seconds.start last }
{
    one_calendar();
    one_path::<Imprint>();
}

/// Where more is known, what was covered is covered, and by the same calendar.
pub fn more_is_known()
    ensures covered { (roots more : Roots) (start p : ℕ) → IsCovered roots start p →
        ((t : ℕ) → start ≤ t → t ≤ p → (root : List ℕ) → roots t ≡ Some root → more t ≡ Some root) → IsCovered more start p }
    ensures seconds { (roots more : Roots) (start p : ℕ) → IsCovered roots start p →
        ((t : ℕ) → start ≤ t → t ≤ p → (root : List ℕ) → roots t ≡ Some root → more t ≡ Some root) →
        covered_seconds roots start p ≡ covered_seconds more start p }
{}

/// Links lead from an imprint to one other: the one that climbing in the calendar's tree computes. Each step of it is
/// the image of the link's string.
pub fn one_climb()
    ensures value { (image : List ℕ → List ℕ) (start top : List ℕ) (links : List (TreeLink (List ℕ))) →
        ClimbsCalendar image start links top ↔ (top ≡ climb_links (calendar_join image) start links) }
    ensures strings { (image : List ℕ → List ℕ) (imprint : List ℕ) (link : TreeLink (List ℕ)) →
        link_from (calendar_join image) imprint link link.side ≡ image (calendar_element_text imprint link) }
{}

/// Climbing along links and then along more links is climbing along all of them.
pub fn one_after_another()
    ensures together { (image : List ℕ → List ℕ) (start middle top : List ℕ) (links more : List (TreeLink (List ℕ))) →
        ClimbsCalendar image start links middle → ClimbsCalendar image middle more top →
        ClimbsCalendar image start (links ++ more) top }
    ensures apart { (image : List ℕ → List ℕ) (start top : List ℕ) (links more : List (TreeLink (List ℕ))) →
        ClimbsCalendar image start (links ++ more) top →
        (middle : List ℕ) × ClimbsCalendar image start links middle × ClimbsCalendar image middle more top }
    ensures value { (image : List ℕ → List ℕ) (start : List ℕ) (links more : List (TreeLink (List ℕ))) →
        climb_links (calendar_join image) start (links ++ more) ≡
        climb_links (calendar_join image) (climb_links (calendar_join image) start links) more }
{}
