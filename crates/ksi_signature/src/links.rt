//! The links of a lent aggregation chain, copied.

ghost use Rattle.std.specs.Prelude.{◌≡◌, Ok, IfOk};
ghost use Rattle.ksi_tlv.specs.Views.{view_placed};
ghost use Rattle.ksi_tlv.specs.Containing.{inner_verdict};
ghost use Rattle.ksi_tlv.specs.Inside.{inner_elements};
ghost use Rattle.ksi_signature.specs.Tables.{link_table, chain_table};
ghost use Rattle.ksi_signature.specs.Contents.{link_in, links_among};
ghost use Rattle.ksi_signature.specs.Kept.{HasImprint};
ghost use Rattle.ksi_signature.specs.LinkParts.{view_sibling};

use crate::NoMemory;
use crate::contents::{is_link, side_of};
use crate::link_parts::SiblingView;
use crate::link_walking::link_parts_in;
use crate::lists::Links;
use crate::within::{link_is_limited, links_are_limited, read_imprint};
use ksi_aggtree::chains::{Link, Sibling};
use ksi_imprint::Bytes;
use ksi_tlv::{Elements, Placed};
use std::alloc::Global;

/// The links of an aggregation chain that was accepted.
pub(crate) fn links_of(alloc: Global, at: &Placed<'_>) -> Result<Links, NoMemory>
    requires { inner_verdict chain_table (view_placed at.now) ≡ Ok tt }
    ensures { IfOk result (λ links. links ≡ links_among (inner_elements (view_placed at.now))) }
{
    links_are_limited(at);
    let mut links = Vec::new(alloc);
    let mut elements = Elements::at(at.inside, at.element.body);
    while let Some(item) = elements.next() {
        if let Ok(part) = item {
            if is_link(&part) {
                links.push(link_of(alloc, &part)?)?;
            }
        }
    }
    Ok(Links::from_vec(links))
}

#[tactic(auto, unfolding(crate::specs::Contents::link_in))]
fn link_of(alloc: Global, at: &Placed<'_>) -> Result<Link, NoMemory>
    requires { inner_verdict link_table (view_placed at.now) ≡ Ok tt }
    ensures { IfOk result (λ link. link ≡ link_in (view_placed at.now)) }
{
    link_is_limited(at);
    let parts = link_parts_in(at);
    let sibling = sibling_of(alloc, parts.sibling)?;
    Ok(Link {
        side: side_of(at),
        correction: parts.correction,
        sibling,
    })
}

fn sibling_of(alloc: Global, sibling: SiblingView<'_>) -> Result<Sibling, NoMemory>
    requires { HasImprint (view_sibling sibling) }
    ensures { IfOk result (λ copy. copy ≡ view_sibling sibling.entry) }
{
    match sibling {
        SiblingView::Imprint(bytes) => Ok(Sibling::Imprint(read_imprint(bytes))),
        SiblingView::Legacy(bytes) => Ok(Sibling::Legacy(Bytes::copy_of(alloc, bytes)?)),
        SiblingView::Metadata(bytes) => Ok(Sibling::Metadata(Bytes::copy_of(alloc, bytes)?)),
    }
}
