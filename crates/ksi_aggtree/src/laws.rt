//! What holds of the definitions of rounds, for the layers above to cite. None of these functions does anything.
ghost use Rattle.std.specs.Prelude.{◌≡◌, ◌<◌, ◌≤◌, ◌+◌, ◌-◌, ◌^◌, ◌%◌, ◌⊎◌, ℕ, List, [], ◌∷◌, Some, None, length, All};
ghost use Rattle.ksi_split.specs.Powers.{IsSplit};
ghost use Rattle.ksi_split.specs.Ways.{LeadsTo};
ghost use Rattle.ksi_split.specs.declared.side.Side.{Side};
ghost use Rattle.ksi_aggtree.specs.Links.{highest_level};
ghost use Rattle.ksi_aggtree.specs.Climbing.{Climbs};
ghost use Rattle.ksi_aggtree.specs.Owned.{plain_links};
ghost use Rattle.ksi_aggtree.specs.declared.chains.node.Node.{Node};
ghost use Rattle.ksi_aggtree.specs.declared.item.Item.{Item};
ghost use Rattle.ksi_split.specs.Trees.{tree, path_of, node_at};
ghost use Rattle.ksi_aggtree.specs.Rounds.{most_items, IsRound, aggregation_join, capped_join, leaf, leaf_level, leaf_of_place, as_node, item_at, named_text, tree_from, tree_of, tree_path};
ghost use Rattle.ksi_aggtree.specs.Nodes.{node_of, text_of, parts_text, LeadsBelow};
ghost use Rattle.ksi_aggtree.specs.Names.{IsName, meta_of};
ghost use Rattle.ksi_aggtree.specs.Paths.{chain_of, item_way, sides_from_top};

use crate::chains::Node;
use crate::chains::laws::one_climb;
use crate::name::Name;
use ksi_split::laws::{one_answer, one_split, one_way, parts};
use ksi_split::trees::{enough_levels, one_node, one_path, one_tree};

/// The tree of one item is its leaf. The tree of more is the join of the trees of both parts that they are split into,
/// one level above the greater of these. In a round its level is at most 16 above the leaves' levels, so at most 255.
pub fn one_round()
    ensures one_item { (image : List ℕ → List ℕ) (items : List Item) (lo : ℕ) →
        tree_from image items lo 1 ≡ leaf image (item_at items lo) }
    ensures cut { (image : List ℕ → List ℕ) (items : List Item) (lo n k : ℕ) → IsSplit n k →
        tree_from image items lo n ≡
        aggregation_join image (tree_from image items lo k) (tree_from image items (lo + k) (n - k)) }
    ensures level { (image : List ℕ → List ℕ) (items : List Item) (most : ℕ) → length items ≤ most_items →
        ((k : ℕ) → leaf_level (item_at items k) ≤ most) → (tree_of image items).level ≤ most + 16 }
{
    one_tree::<Node>();
    enough_levels::<Node>();
}

/// In a round the chain of an item climbs from it to the tree of all items. Its sides from the top are the item's
/// way, and it has at most 17 links.
pub fn one_chain()
    ensures climbs { (image : List ℕ → List ℕ) (items : List Item) (k : ℕ) → IsRound items → k < length items →
        Climbs image (as_node (item_at items k)) (plain_links (chain_of image items k)) (tree_of image items) }
    ensures way { (image : List ℕ → List ℕ) (items : List Item) (k : ℕ) →
        sides_from_top (chain_of image items k) ≡ item_way items k }
    ensures few { (image : List ℕ → List ℕ) (items : List Item) (k : ℕ) → length items ≤ most_items →
        length (chain_of image items k) ≤ 17 }
{
    one_path::<Node>();
    one_climb();
    one_round();
}

/// The node that sides lead to is the tree of the items of their part, or below the leaf of a named item the item itself.
/// No other sides lead to a node. In a round no node's level passes the highest.
pub fn one_part()
    ensures some { (image : List ℕ → List ℕ) (items : List Item) (last first count : ℕ) (sides : List Side) →
        length items ≡ last + 1 → LeadsTo (last + 1) sides first count →
        node_of image items sides ≡ Some (tree_from image items first count) }
    ensures item { (image : List ℕ → List ℕ) (items : List Item) (k : ℕ) (sides : List Side) →
        LeadsBelow items sides k → node_of image items sides ≡ Some (as_node (item_at items k)) }
    ensures way { (image : List ℕ → List ℕ) (items : List Item) (k : ℕ) → k < length items →
        node_of image items (item_way items k) ≡ Some (as_node (item_at items k)) }
    ensures only { (image : List ℕ → List ℕ) (items : List Item) (sides : List Side) (node : Node) →
        node_of image items sides ≡ Some node →
        ((first : ℕ) × (count : ℕ) × LeadsTo (length items) sides first count) ⊎ ((k : ℕ) × LeadsBelow items sides k) }
    ensures level { (image : List ℕ → List ℕ) (items : List Item) (sides : List Side) (node : Node) → IsRound items →
        node_of image items sides ≡ Some node → node.level ≤ highest_level }
{
    one_node::<Node>();
    one_tree::<Node>();
    enough_levels::<Node>();
    one_split();
    one_answer();
    one_way();
    parts();
}

/// The string at sides is the string that the node there is the hash of: that of both parts of two items or more, or that of
/// a named item and its metadata. No other sides lead to a string, so there is none at a leaf without a name, nor below one.
pub fn one_text()
    ensures parts { (image : List ℕ → List ℕ) (items : List Item) (first count k : ℕ) (sides : List Side) →
        LeadsTo (length items) sides first count → IsSplit count k →
        text_of image items sides ≡
        Some (parts_text (tree_from image items first k) (tree_from image items (first + k) (count - k))) }
    ensures named { (image : List ℕ → List ℕ) (items : List Item) (k : ℕ) (name : List ℕ) (sides : List Side) →
        LeadsTo (length items) sides k 1 → (item_at items k).name ≡ Some name →
        text_of image items sides ≡ Some (named_text (item_at items k) name) }
    ensures unnamed { (image : List ℕ → List ℕ) (items : List Item) (k : ℕ) (sides : List Side) →
        LeadsTo (length items) sides k 1 → (item_at items k).name ≡ None → text_of image items sides ≡ None }
    ensures only { (image : List ℕ → List ℕ) (items : List Item) (sides : List Side) (text : List ℕ) →
        text_of image items sides ≡ Some text → (first : ℕ) × (count : ℕ) × LeadsTo (length items) sides first count }
    ensures hashed { (image : List ℕ → List ℕ) (items : List Item) (sides : List Side) (text : List ℕ) →
        text_of image items sides ≡ Some text →
        (node : Node) × (node_of image items sides ≡ Some node) × (node.imprint ≡ image text) }
{
    one_tree::<Node>();
    one_split();
    one_way();
    parts();
}

/// The metadata of a name has an even number of bytes, 6 to 70. These are bytes, as those of the name are.
pub fn metas_are_even()
    ensures even { (name : List ℕ) → IsName name → length (meta_of name) % 2 ≡ 0 }
    ensures least { (name : List ℕ) → IsName name → 6 ≤ length (meta_of name) }
    ensures most { (name : List ℕ) → IsName name → length (meta_of name) ≤ 70 }
    ensures bytes { (name : List ℕ) → IsName name → All (λ b. b < 256) (meta_of name) }
    ensures name { (name : List ℕ) → IsName name → All (λ b. b < 256) name }
{}

/// The tree of a round, its nodes and its paths are the same where the level of a join is kept within a byte, since no
/// level passes 255.
pub(crate) fn no_cap()
    ensures root { (image : List ℕ → List ℕ) (items : List Item) → IsRound items →
        tree (capped_join image) (leaf_of_place image items) 0 (length items) ≡ tree_of image items }
    ensures node { (image : List ℕ → List ℕ) (items : List Item) (last : ℕ) (sides : List Side) → IsRound items →
        length items ≡ last + 1 →
        node_at (capped_join image) (leaf_of_place image items) last sides ≡
        node_at (aggregation_join image) (leaf_of_place image items) last sides }
    ensures path { (image : List ℕ → List ℕ) (items : List Item) (k : ℕ) → IsRound items →
        path_of (capped_join image) (leaf_of_place image items) 0 k (length items) ≡ tree_path image items k }
{
    enough_levels::<Node>();
    one_split();
}

/// What is held as a name is one.
pub fn name_is_kept(name: &Name)
    ensures { IsName name.now }
{
    let _bytes = name.as_bytes();
}
