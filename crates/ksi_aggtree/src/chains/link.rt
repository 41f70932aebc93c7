ghost use Rattle.std.specs.Prelude.{◌≡◌};
ghost use Rattle.ksi_aggtree.specs.Owned.{sibling_bytes, is_raw};

use ksi_imprint::{Bytes, Imprint};
use ksi_split::Side;

/// A link of an aggregation chain.
#[derive(Drop)]
pub struct Link {
    /// Which part of its join a node is that is climbed from: a left link has it on the left.
    pub side: Side,
    /// How many levels more than one the link goes up.
    pub correction: u8,
    /// The other part.
    pub sibling: Sibling,
}

/// What a link joins with the node that is climbed from.
#[derive(Drop)]
pub enum Sibling {
    /// The imprint of another node.
    Imprint(Imprint),
    /// The raw bytes of a name in the old form.
    Legacy(Bytes),
    /// The raw bytes of metadata.
    Metadata(Bytes),
}

impl Sibling {
    /// The bytes that a join has of it.
    pub fn bytes(&self) -> &[u8]
        ensures { result.now ≡ sibling_bytes self.now }
    {
        match self {
            Sibling::Imprint(imprint) => imprint.bytes(),
            Sibling::Legacy(bytes) | Sibling::Metadata(bytes) => bytes.as_slice(),
        }
    }

    /// Whether these are raw bytes.
    pub fn is_raw(&self) -> bool
        ensures { result ≡ is_raw self.now }
    {
        match self {
            Sibling::Imprint(_) => false,
            Sibling::Legacy(_) | Sibling::Metadata(_) => true,
        }
    }
}
