ghost use Rattle.std.specs.Prelude.{◌≡◌, ◌≤◌, ◌++◌, IfOk, IfSome, length};
ghost use Rattle.ksi_aggtree.specs.Names.{IsName};
ghost use Rattle.ksi_aggtree.specs.Paths.{name_link, name_links, links_from};

use crate::chains::{Link, Node, Sibling};
use crate::name::Name;
use ksi_imprint::{Bytes, NoMemory};
use ksi_split::{Side, TreeLink};
use std::alloc::Global;
use std::marker::Model;

/// The links from an item up to the root of its tree, the lowest first. A contract sees their list.
#[derive(Drop)]
pub struct ItemPath {
    vec: Vec<Link>,
}

impl Model for ItemPath {
    ghost use Rattle.std.specs.Prelude.{List};
    ghost use Rattle.ksi_aggtree.specs.declared.chains.link.Link as links;

    ghost Value = { List links.Link };

    ghost view = { λ path. path.vec.items };
}

impl ItemPath {
    /// The links of a `Vec`, which is not copied.
    pub fn from_vec(vec: Vec<Link>) -> Self
        ensures { result ≡ vec.items }
    {
        ItemPath { vec }
    }

    /// The links, which are not copied.
    pub fn as_slice(&self) -> &[Link]
        ensures { result.now ≡ self.now }
    {
        &self.vec
    }

    /// The `Vec` of the links, which are not copied.
    pub fn into_vec(self) -> Vec<Link>
        ensures { result.items ≡ self }
    {
        let ItemPath { vec } = self;
        vec
    }

    /// The links from an item up: to its leaf, where it has a name, and from the leaf's level beside the other parts of a
    /// tree, with the corrections that meet its levels.
    pub(crate) fn beside(
        alloc: Global,
        name: &Option<Name>,
        start: u8,
        others: &[TreeLink<Node>],
    ) -> Result<Self, NoMemory>
        requires { length others.now ≤ 64 }
        ensures links { IfOk result (λ links. links ≡ name_links name.now ++ links_from start others.now) }
        ensures name { IfOk result (λ links. IfSome name.now IsName) }
    {
        let mut vec = begun(alloc, name, others.len())?;
        let mut level = start as u16;
        for other in others {
            let greater = level.max(other.sibling.level as u16);
            vec.push(Link {
                side: other.side,
                correction: (greater - level) as u8,
                sibling: Sibling::Imprint(other.sibling.imprint),
            })?;
            level = greater + 1;
        }
        Ok(ItemPath { vec })
    }
}

/// The link from an item to its leaf, where it has a name, with room for this many links more.
fn begun(alloc: Global, name: &Option<Name>, more: usize) -> Result<Vec<Link>, NoMemory>
    requires { more ≤ 64 }
    ensures links { IfOk result (λ vec. vec.items ≡ name_links name.now) }
    ensures name { IfOk result (λ vec. IfSome name.now IsName) }
{
    match name {
        None => Vec::with_capacity(alloc, more),
        Some(name) => {
            let link = name_link(alloc, name)?;
            let mut vec = Vec::with_capacity(alloc, more + 1)?;
            vec.push(link)?;
            Ok(vec)
        }
    }
}

/// The link from a named item to its leaf.
fn name_link(alloc: Global, name: &Name) -> Result<Link, NoMemory>
    ensures link { IfOk result (λ link. link ≡ name_link name.now) }
    ensures name { IfOk result (λ link. IsName name.now) }
{
    let meta = Bytes::copy_of(alloc, name.meta().as_slice())?;
    Ok(Link {
        side: Side::Left,
        correction: 0,
        sibling: Sibling::Metadata(meta),
    })
}
