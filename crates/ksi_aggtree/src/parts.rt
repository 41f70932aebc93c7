ghost use Rattle.std.specs.Prelude.{◌≡◌, ◌≤◌, length};
ghost use Rattle.ksi_aggtree.specs.Nodes.{other_bytes};

use crate::meta::Meta;
use ksi_imprint::Imprint;

/// What a node of a round's tree is joined of: the left part's imprint, the other part, and the node's level.
#[derive(Drop)]
pub struct NodeParts {
    pub left: Imprint,
    pub other: OtherPart,
    pub level: u8,
}

/// The right part of a join.
#[derive(Drop)]
pub enum OtherPart {
    /// The imprint of the right part of two items or more.
    Imprint(Imprint),
    /// The metadata of the name of one item.
    Metadata(Meta),
}

impl OtherPart {
    /// The bytes that the join has of it.
    pub fn bytes(&self) -> &[u8]
        ensures bytes { result.now ≡ other_bytes self.now }
        ensures few { length result.now ≤ 70 }
    {
        match self {
            OtherPart::Imprint(imprint) => imprint.bytes(),
            OtherPart::Metadata(meta) => meta.as_slice(),
        }
    }
}
