//! What the types keep of parts that are written, told to the proofs. These functions only read.

ghost use Rattle.std.specs.Prelude.{◌<◌, ◌^◌};
ghost use Rattle.std.specs.List.{AllByRecursion};
ghost use Rattle.ksi_imprint.specs.Imprints.{IsImprint};
ghost use Rattle.ksi_signature.specs.Kept.{HasImprint, IsLink, IsCalendar, IsPublishing};
ghost use Rattle.ksi_signature.specs.Carried.{IsAboveChain, IsAbove};

use crate::above::{Above, AboveChain};
use crate::signature::{CalendarChain, PublicationRecord};
use ksi_aggtree::chains::{Link, Sibling};
use ksi_calendar::CalendarLink;
use ksi_imprint::Imprint;

pub(crate) fn calendar_is_kept(chain: &CalendarChain)
    ensures { IsCalendar chain.now }
{
    imprint_is_kept(&chain.input);
    calendar_links_are_kept(chain.links.as_slice());
}

pub(crate) fn record_is_kept(published: &PublicationRecord)
    ensures { IsPublishing published.now }
{
    imprint_is_kept(&published.hash);
}

pub(crate) fn above_is_kept(above: &Above)
    ensures { IsAbove above.now }
{
    imprint_is_kept(&above.root);
    chains_are_kept(above.chains.as_slice());
    calendar_links_are_kept(above.calendar.as_slice());
}

fn chains_are_kept(chains: &[AboveChain])
    ensures { AllByRecursion IsAboveChain chains.now }
{
    for chain in chains {
        chain_is_kept(chain);
    }
}

fn chain_is_kept(chain: &AboveChain)
    ensures { IsAboveChain chain.now }
{
    imprint_is_kept(&chain.input);
    links_are_kept(chain.links.as_slice());
}

pub(crate) fn links_are_kept(links: &[Link])
    ensures { AllByRecursion IsLink links.now }
{
    for link in links {
        link_is_kept(link);
    }
}

fn link_is_kept(link: &Link)
    ensures { IsLink link.now }
{
    correction_is_kept(link.correction);
    sibling_is_kept(&link.sibling);
}

fn correction_is_kept(correction: u8)
    ensures { correction < 2 ^ 8 }
{}

fn sibling_is_kept(sibling: &Sibling)
    ensures { HasImprint sibling.now }
{
    match sibling {
        Sibling::Imprint(imprint) => imprint_is_kept(imprint),
        Sibling::Legacy(_) | Sibling::Metadata(_) => (),
    }
}

fn calendar_links_are_kept(links: &[CalendarLink])
    ensures { AllByRecursion (λ link. IsImprint link.sibling) links.now }
{
    for link in links {
        imprint_is_kept(&link.sibling);
    }
}

pub(crate) fn imprint_is_kept(imprint: &Imprint)
    ensures { IsImprint imprint.now }
{
    let _bytes = imprint.bytes();
}
