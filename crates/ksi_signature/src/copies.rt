//! A signature of its own, as a lent one shows it.

ghost use Rattle.std.specs.Prelude.{◌≡◌, ◌≤◌, IfOk, length, map, option_map};
ghost use Rattle.ksi_tlv.specs.Views.{view_placed};
ghost use Rattle.ksi_tlv.specs.Inside.{inner_elements};
ghost use Rattle.ksi_signature.specs.Values.{AreChains};
ghost use Rattle.ksi_signature.specs.Contents.{bodies_of};
ghost use Rattle.ksi_signature.specs.PartsSeen.{chain_seen, calendar_seen, record_seen};
ghost use Rattle.ksi_signature.specs.Seen.{seen};

use crate::NoMemory;
use crate::calendar_view::CalendarView;
use crate::chain_view::ChainView;
use crate::kinds::{REFERENCE, REPOSITORY};
use crate::links::links_of;
use crate::lists::{Bodies, CalendarLinks, Chains, Index};
use crate::record_view::RecordView;
use crate::signature::{AggregationChain, CalendarChain, PublicationRecord, Signature};
use crate::signature_view::SignatureView;
use ksi_calendar::CalendarLink;
use ksi_imprint::Bytes;
use ksi_tlv::{Elements, Placed};
use std::alloc::Global;

pub(crate) fn signature_of(alloc: Global, view: &SignatureView<'_>) -> Result<Signature, NoMemory>
    ensures { IfOk result (λ signature. signature ≡ seen view.now) }
{
    let chains = chains_of(alloc, view.chains())?;
    let calendar = calendar_of(alloc, view.calendar())?;
    let publication = publication_of(alloc, view.publication())?;
    Ok(Signature {
        chains,
        calendar,
        publication,
    })
}

fn chains_of(alloc: Global, chains: &[ChainView<'_>]) -> Result<Chains, NoMemory>
    requires { AreChains (map chain_seen chains.now) }
    ensures { IfOk result (λ copies. copies ≡ map chain_seen chains.now) }
{
    let mut copies = Vec::new(alloc);
    for chain in chains {
        copies.push(chain_of(alloc, chain)?)?;
    }
    Ok(Chains::from_vec(copies))
}

#[tactic(auto, unfolding(crate::specs::Contents::chain_in))]
fn chain_of(alloc: Global, chain: &ChainView<'_>) -> Result<AggregationChain, NoMemory>
    ensures { IfOk result (λ copy. copy ≡ chain_seen chain.now) }
{
    let index = index_of(alloc, chain)?;
    let input_body = input_body_of(alloc, chain)?;
    let links = links_of(alloc, &chain.at)?;
    Ok(AggregationChain {
        time: chain.time(),
        index,
        input_body,
        input: chain.input(),
        links,
    })
}

fn index_of(alloc: Global, chain: &ChainView<'_>) -> Result<Index, NoMemory>
    ensures { IfOk result (λ index. index ≡ (chain_seen chain.now).index) }
{
    let mut index = Vec::with_capacity(alloc, chain.parts())?;
    let mut parts = chain.index();
    while let Some(part) = parts.next() {
        index.push(part)?;
    }
    Ok(Index::from_vec(index))
}

fn input_body_of(alloc: Global, chain: &ChainView<'_>) -> Result<Option<Bytes>, NoMemory>
    ensures { IfOk result (λ body. body ≡ (chain_seen chain.now).input_body) }
{
    match chain.input_body() {
        Some(body) => Ok(Some(Bytes::copy_of(alloc, body)?)),
        None => Ok(None),
    }
}

fn calendar_of(
    alloc: Global,
    chain: Option<CalendarView<'_>>,
) -> Result<Option<CalendarChain>, NoMemory>
    ensures { IfOk result (λ copy. copy ≡ option_map calendar_seen chain.entry) }
{
    match chain {
        Some(chain) => Ok(Some(calendar_chain_of(alloc, &chain)?)),
        None => Ok(None),
    }
}

fn calendar_chain_of(alloc: Global, chain: &CalendarView<'_>) -> Result<CalendarChain, NoMemory>
    ensures { IfOk result (λ copy. copy ≡ calendar_seen chain.now) }
{
    let links = calendar_links_of(alloc, chain.links().as_slice())?;
    Ok(CalendarChain {
        publication: chain.publication(),
        time: chain.time(),
        input: chain.input(),
        links,
    })
}

fn calendar_links_of(alloc: Global, links: &[CalendarLink]) -> Result<CalendarLinks, NoMemory>
    requires { length links.now ≤ 63 }
    ensures { IfOk result (λ copies. copies ≡ links.now) }
{
    let mut copies = Vec::new(alloc);
    for link in links {
        copies.push(*link)?;
    }
    Ok(CalendarLinks::from_vec(copies))
}

fn publication_of(
    alloc: Global,
    published: Option<RecordView<'_>>,
) -> Result<Option<PublicationRecord>, NoMemory>
    ensures { IfOk result (λ copy. copy ≡ option_map record_seen published.entry) }
{
    match published {
        Some(published) => Ok(Some(record_of(alloc, &published)?)),
        None => Ok(None),
    }
}

#[tactic(auto, unfolding(crate::specs::Contents::publishing_in))]
fn record_of(alloc: Global, published: &RecordView<'_>) -> Result<PublicationRecord, NoMemory>
    ensures { IfOk result (λ copy. copy ≡ record_seen published.now) }
{
    let references = bodies(alloc, &published.at, REFERENCE)?;
    let repositories = bodies(alloc, &published.at, REPOSITORY)?;
    Ok(PublicationRecord {
        time: published.time(),
        hash: published.hash(),
        references,
        repositories,
    })
}

/// The bodies of the elements of a kind.
fn bodies(alloc: Global, at: &Placed<'_>, kind: u16) -> Result<Bodies, NoMemory>
    ensures { IfOk result (λ bodies. bodies ≡ bodies_of kind (inner_elements (view_placed at.now))) }
{
    let mut bodies = Vec::new(alloc);
    let mut elements = Elements::at(at.inside, at.element.body);
    while let Some(item) = elements.next() {
        if let Ok(part) = item {
            if part.element.kind == kind {
                bodies.push(Bytes::copy_of(alloc, part.element.body)?)?;
            }
        }
    }
    Ok(Bodies::from_vec(bodies))
}
