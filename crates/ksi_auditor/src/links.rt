// What the parts of a signature keep: imprints are imprints, and times are below 2^63. None of these functions changes anything.
ghost use Rattle.std.specs.Prelude.{◌<◌, ◌^◌, map, IfSome};
ghost use Rattle.std.specs.List.{AllByRecursion};
ghost use Rattle.ksi_signature.specs.Kept.{IsLink};
ghost use Rattle.ksi_signature.specs.PartsSeen.{chain_seen};
ghost use Rattle.ksi_signature.specs.Seen.{seen};
ghost use Rattle.ksi_auditor.specs.Shown.{HasLinks};

use ksi_aggtree::chains::{Link, Sibling};
use ksi_signature::{AggregationChain, CalendarChain, ChainView, SignatureView};

/// The links of a borrowed signature are such as are read. This reads them once more, and does nothing else.
pub fn has_links(signature: &SignatureView<'_>)
    ensures { HasLinks (seen signature.now) }
{
    are_links(signature.chains());
}

/// Of the links of lent chains.
pub(crate) fn are_links(chains: &[ChainView<'_>])
    ensures { AllByRecursion (λ chain. AllByRecursion IsLink chain.links) (map chain_seen chains.now) }
{
    match chains.split_first() {
        None => {}
        Some((chain, higher)) => {
            let _links = chain.links();
            are_links(higher);
        }
    }
}

/// Of the links of owned chains.
pub(crate) fn are_owned_links(chains: &[AggregationChain])
    ensures { AllByRecursion (λ chain. AllByRecursion IsLink chain.links) chains.now }
{
    match chains.split_first() {
        None => {}
        Some((chain, higher)) => {
            are_link_list(chain.links.as_slice());
            are_owned_links(higher);
        }
    }
}

/// Of the links of one owned chain.
pub(crate) fn are_link_list(links: &[Link])
    ensures { AllByRecursion IsLink links.now }
{
    match links.split_first() {
        None => {}
        Some((link, higher)) => {
            is_link(link);
            are_link_list(higher);
        }
    }
}

fn is_link(link: &Link)
    ensures { IsLink link.now }
{
    let _correction = link.correction;
    match &link.sibling {
        Sibling::Imprint(imprint) => {
            let _bytes = imprint.bytes();
        }
        Sibling::Legacy(_) | Sibling::Metadata(_) => {}
    }
}

/// Of an owned calendar chain.
pub(crate) fn is_early(calendar: &Option<CalendarChain>)
    ensures { IfSome calendar.now (λ chain. chain.publication < 2 ^ 63) }
{
    match calendar {
        None => {}
        Some(chain) => {
            let _publication = chain.publication;
        }
    }
}
