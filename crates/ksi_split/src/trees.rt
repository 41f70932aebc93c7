//! What holds of any tree over numbered leaves that is cut where `split` says, whatever joins its nodes: for the trees
//! of rounds and of the calendar. None of these functions does anything.
ghost use Rattle.std.specs.Prelude.{◌≡◌, ◌<◌, ◌≤◌, ◌+◌, ◌-◌, ◌*◌, ◌^◌, ℕ, List, Some, None, map, reverse, length};
ghost use Rattle.ksi_split.specs.Powers.{IsSplit};
ghost use Rattle.ksi_split.specs.Ways.{way_of, LeadsTo, PassesLeaf};
ghost use Rattle.ksi_split.specs.Trees.{tree, tree_within, path_of, path_within, climb_links, node_at};
ghost use Rattle.ksi_split.specs.Upward.{halves, whole, node, links_up};
ghost use Rattle.ksi_split.specs.declared.side.Side.{Side};

/// The tree of one leaf is the leaf. The tree of more is the join of both parts' trees. A tree depends on its own
/// leaves alone.
pub fn one_tree<N>()
    ensures one_leaf { (join : N → N → N) (leaf : ℕ → N) (lo : ℕ) → tree join leaf lo 1 ≡ leaf lo }
    ensures cut { (join : N → N → N) (leaf : ℕ → N) (lo n k : ℕ) → IsSplit n k →
        tree join leaf lo n ≡ join (tree join leaf lo k) (tree join leaf (lo + k) (n - k)) }
    ensures own_leaves { (join : N → N → N) (leaf other : ℕ → N) (lo n : ℕ) → 0 < n →
        ((i : ℕ) → lo ≤ i → i < lo + n → leaf i ≡ other i) → tree join leaf lo n ≡ tree join other lo n }
{}

/// It does not matter how many levels a tree may have, where these are enough for its leaves.
pub fn enough_levels<N>()
    ensures tree { (join : N → N → N) (leaf : ℕ → N) (k lo n : ℕ) → n ≤ 2 ^ k →
        tree join leaf lo n ≡ tree_within join leaf k lo n }
    ensures path { (join : N → N → N) (leaf : ℕ → N) (k lo t n : ℕ) → n ≤ 2 ^ k →
        path_of join leaf lo t n ≡ path_within join leaf k lo t n }
{}

/// The path of a leaf leads from it to the root. Its sides are the way to the leaf, from the bottom. Among at most
/// `2 ^ k` leaves it has at most `k` links. It depends on its own tree's leaves alone.
pub fn one_path<N>()
    ensures climbs { (join : N → N → N) (leaf : ℕ → N) (last t : ℕ) → t ≤ last →
        climb_links join (leaf t) (path_of join leaf 0 t (last + 1)) ≡ tree join leaf 0 (last + 1) }
    ensures sides { (join : N → N → N) (leaf : ℕ → N) (lo t n : ℕ) →
        map (λ s. s.side) (path_of join leaf lo t n) ≡ reverse (way_of t n) }
    ensures length { (join : N → N → N) (leaf : ℕ → N) (lo t n k : ℕ) → n ≤ 2 ^ k →
        length (path_of join leaf lo t n) ≤ k }
    ensures own_leaves { (join : N → N → N) (leaf other : ℕ → N) (lo t n : ℕ) →
        ((i : ℕ) → lo ≤ i → i < lo + n → leaf i ≡ other i) → path_of join leaf lo t n ≡ path_of join other lo t n }
{}

/// The node that sides lead to is the tree of their part. Sides that pass a leaf lead to none.
pub fn one_node<N>()
    ensures some { (join : N → N → N) (leaf : ℕ → N) (last first count : ℕ) (sides : List Side) →
        LeadsTo (last + 1) sides first count → node_at join leaf last sides ≡ Some (tree join leaf first count) }
    ensures none { (join : N → N → N) (leaf : ℕ → N) (last place : ℕ) (sides : List Side) →
        PassesLeaf last sides place → node_at join leaf last sides ≡ None }
{}

/// The same from the bottom up: a complete part is the tree of its leaves, the part over all of them is the root, and
/// the links up from a leaf are its path, which leads to the part of any level that the leaf is in.
pub fn from_below<N>()
    ensures complete { (join : N → N → N) (leaf : ℕ → N) (k j : ℕ) →
        whole join leaf k j ≡ tree join leaf (j * 2 ^ k) (2 ^ k) }
    ensures before_last { (join : N → N → N) (leaf : ℕ → N) (last k j : ℕ) → j < halves k last →
        node join leaf last k j ≡ whole join leaf k j }
    ensures root { (join : N → N → N) (leaf : ℕ → N) (last k : ℕ) → last < 2 ^ k →
        node join leaf last k 0 ≡ tree join leaf 0 (last + 1) }
    ensures path { (join : N → N → N) (leaf : ℕ → N) (last k t : ℕ) → t ≤ last → last < 2 ^ k →
        links_up join leaf last k t ≡ path_of join leaf 0 t (last + 1) }
    ensures climbs { (join : N → N → N) (leaf : ℕ → N) (last k t : ℕ) → t ≤ last →
        climb_links join (leaf t) (links_up join leaf last k t) ≡ node join leaf last k (halves k t) }
{}
