ghost use Rattle.std.specs.Prelude.{◌≡◌, ◌≤◌, None, IfSome, is_some};
ghost use Rattle.ksi_aggtree.specs.Names.{IsName};
ghost use Rattle.ksi_aggtree.specs.Rounds.{leaf, leaf_level, as_node, as_item, with_name, highest_item};

use crate::chains::Node;
use crate::laws::name_is_kept;
use crate::name::Name;
use ksi_imprint::{Compress, Imprint};

/// How many items a round may have.
pub const MOST_ITEMS: usize = 65536;

/// The highest level that a leaf may have, and so an item without a name.
pub const HIGHEST_ITEM: u8 = 239;

/// An item that is submitted to a round and kept: an imprint at a level, and perhaps the name of the submitter.
#[derive(Clone, Copy, PartialEq, Eq, Debug)]
pub struct Item {
    pub imprint: Imprint,
    pub level: u8,
    pub name: Option<Name>,
}

impl Item {
    /// An item without a name.
    pub fn new(imprint: Imprint, level: u8) -> Item
        ensures { result ≡ record { imprint = imprint; level = level; name = None } }
    {
        Item {
            imprint,
            level,
            name: None,
        }
    }

    /// The item that a node is submitted as, without a name.
    pub fn of(node: Node) -> Item
        ensures { result ≡ as_item node }
    {
        Item::new(node.imprint, node.level)
    }

    /// The same item with this name, or with none.
    pub fn with_name(self, name: Option<Name>) -> Item
        ensures { result ≡ with_name name self }
    {
        Item {
            imprint: self.imprint,
            level: self.level,
            name,
        }
    }

    /// The node of the item's own imprint and level, which its chain climbs from.
    pub fn node(&self) -> Node
        ensures { result ≡ as_node self.now }
    {
        Node {
            imprint: self.imprint,
            level: self.level,
        }
    }

    /// Whether the item has a name. What it has is one.
    pub fn is_named(&self) -> bool
        ensures some { result ≡ is_some self.now.name }
        ensures name { IfSome self.now.name IsName }
    {
        match &self.name {
            None => false,
            Some(name) => {
                name_is_kept(name);
                true
            }
        }
    }

    /// The level of the item's leaf: its own, one more where it has a name.
    pub fn leaf_level(&self) -> u8
        requires { leaf_level self.now ≤ highest_item }
        ensures { result ≡ leaf_level self.now }
    {
        match &self.name {
            None => self.level,
            Some(_) => self.level + 1,
        }
    }

    /// The leaf that stands for the item in a tree: the item itself, or where it has a name its join with the name's
    /// metadata.
    pub fn leaf<C: Compress>(&self) -> Node
        requires { leaf_level self.now ≤ highest_item }
        ensures leaf { result ≡ leaf C.image self.now }
        ensures level { result.level ≡ leaf_level self.now }
    {
        match &self.name {
            None => self.node(),
            Some(name) => {
                let level = self.level + 1;
                let imprint = C::join(self.imprint.bytes(), name.meta().as_slice(), level);
                Node { imprint, level }
            }
        }
    }
}
