ghost use Rattle.std.specs.Prelude.{◌≡◌};
ghost use Rattle.ksi_aggtree.specs.Links.{PlainLink};
ghost use Rattle.ksi_aggtree.specs.Owned.{plain_link};
ghost use Rattle.ksi_aggtree.specs.Lent.{lent_link};

use crate::chains::link::Link;
use crate::chains::link_view::LinkView;
use ksi_split::Side;

/// A link as climbing sees it, whoever owns its sibling's bytes.
pub trait ChainLink {
    /// The link's side, correction and sibling.
    ghost plain: { Self → PlainLink };

    /// Which part of its join a node is that is climbed from.
    fn side(&self) -> Side
        ensures { result ≡ (plain self.now).side };

    /// How many levels more than one the link goes up.
    fn correction(&self) -> u8
        ensures { result ≡ (plain self.now).correction };

    /// The bytes that the join has of the other part.
    fn sibling(&self) -> &[u8]
        ensures { result.now ≡ (plain self.now).sibling };

    /// Whether these are raw bytes, of a name in the old form or of metadata.
    fn is_raw(&self) -> bool
        ensures { result ≡ (plain self.now).raw };
}

impl ChainLink for Link {
    ghost plain = { plain_link };

    fn side(&self) -> Side {
        self.side
    }

    fn correction(&self) -> u8 {
        self.correction
    }

    fn sibling(&self) -> &[u8] {
        self.sibling.bytes()
    }

    fn is_raw(&self) -> bool {
        self.sibling.is_raw()
    }
}

impl ChainLink for LinkView<'_> {
    ghost plain = { lent_link };

    fn side(&self) -> Side {
        self.side
    }

    fn correction(&self) -> u8 {
        self.correction
    }

    fn sibling(&self) -> &[u8] {
        self.sibling
    }

    fn is_raw(&self) -> bool {
        self.raw
    }
}
