//! The proof of a line: its mask, and the links from its leaf up to the block's root.
ghost use Rattle.std.specs.Prelude.{◌≡◌, ◌≤◌, length, vec_len};
ghost use Rattle.ksi_logblock.specs.Links.{most_links, plain_line_link};

use ksi_aggtree::chains::ChainLink;
use ksi_imprint::Imprint;
use ksi_split::Side;
use std::marker::Model;

/// How many links a proof may have.
pub const MOST_LINKS: usize = 63;

/// A link of a line's proof.
#[derive(Clone, Copy, PartialEq, Eq)]
pub struct LineLink {
    /// Which part of its join a node is that is climbed from: a left link has it on the left.
    pub side: Side,
    /// How many levels more than one the link goes up.
    pub correction: u8,
    /// The imprint of the other part.
    pub sibling: Imprint,
}

impl ChainLink for LineLink {
    ghost plain = { plain_line_link };

    fn side(&self) -> Side {
        self.side
    }

    fn correction(&self) -> u8 {
        self.correction
    }

    fn sibling(&self) -> &[u8] {
        self.sibling.bytes()
    }

    fn is_raw(&self) -> bool {
        false
    }
}

/// The links of a line's proof, the lowest first, at most 63. A contract sees their list.
#[derive(Drop)]
pub struct LineLinks {
    vec: Vec<LineLink>,
}

impl Model for LineLinks {
    ghost use Rattle.std.specs.Prelude.{List, ◌≤◌, length};
    ghost use Rattle.ksi_logblock.specs.declared.line_proof.LineLink as link;
    ghost use Rattle.ksi_logblock.specs.Links.{most_links};

    ghost Value = { List link.LineLink };

    ghost view = { λ links. links.vec.items };

    ghost invariant = { λ links. length links.vec.items ≤ most_links };
}

impl LineLinks {
    /// The links of a `Vec`, which is not copied.
    pub fn from_vec(vec: Vec<LineLink>) -> Self
        requires { vec_len vec ≤ most_links }
        ensures { result ≡ vec.items }
    {
        LineLinks { vec }
    }

    pub fn as_slice(&self) -> &[LineLink]
        ensures links { result.now ≡ self.now }
        ensures few { length result.now ≤ most_links }
    {
        &self.vec
    }

    /// The `Vec` of the links, which are not copied.
    pub fn into_vec(self) -> Vec<LineLink>
        ensures { result.items ≡ self }
    {
        let LineLinks { vec } = self;
        vec
    }
}

/// What shows a line in a block: its mask, and the links from its leaf up.
#[derive(Drop)]
pub struct LineProof {
    pub mask: Imprint,
    pub links: LineLinks,
}
