//! Rounds of an aggregation: their items, the Merkle tree over the items' leaves, its root, and the chains of the items.
//!
//! A tree of more than one item is split as in `ksi_split`. Its level is one above the greater level of both parts,
//! and its imprint is the join of both at that level (Buldas, Kroonmaa, Laanoja, "Keyless Signatures' Infrastructure",
//! 2013). A round has at most 65,536 items, whose leaves have levels to 239, so that no level passes 255.
//!
//! An [`Item`] is submitted to a round and stored there, and may have a [`Name`]. Its leaf is its node in the tree: the
//! item itself, or if it has a name, its join with the name's metadata, one level above it. The layer above may rely on
//! this: `root` is the tree over the leaves; the links of `path` climb from an item to the root along the item's path;
//! `node` is the tree of the part that sides lead to, or the item below the leaf of a named one. Only `add` and the paths
//! allocate memory, and a refused `add` changes nothing. A [`Tree`] is the same over borrowed items, and also returns the
//! parts that a node is the join of; `root_with` is the root over a slice and one more item. They allocate no memory, and
//! compute each node from its leaves. A path takes at most 32 steps, each the read of one stored node, and at least one
//! step for the item and for each link except the one of its name. [`Entries`] is a round that also stores the origin of
//! each item, a request or an aggregator. Laws on the definitions are in `laws`. Climbing along links, and the shape of
//! links, are in [`chains`].
//!
//! ```text
//! let mut round = Builder::<Sha>::new(alloc)?;
//! let first = round.add(Item::new(imprint, 0))?;
//! round.add(other)?;
//! let links = round.path(first)?;
//! assert_eq!(climb::<Sha, Link>(imprint, 0, links.as_slice()).ok(), round.root());
//! ```
#![tactic(auto)]

mod builder;
pub mod chains;
mod entries;
mod item;
mod item_path;
mod items;
mod join;
pub mod laws;
mod meta;
mod name;
mod over;
mod parts;
mod paths;
mod reached;
mod rebuilt;
mod room;
mod second;
mod senders;
mod tree;

pub use builder::{AddRefusal, Builder};
pub use entries::{Entries, Entry, Origin};
pub use item::{HIGHEST_ITEM, Item, MOST_ITEMS};
pub use item_path::ItemPath;
pub use items::Items;
pub use ksi_split::Steps;
pub use meta::Meta;
pub use name::Name;
pub use over::{node_over, root_with};
pub use parts::{NodeParts, OtherPart};
pub use paths::RoundPaths;
pub use second::Second;
pub use tree::Tree;
