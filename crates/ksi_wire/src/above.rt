// The path above a round, as a signature in hex. The signature's lowest chain has no link, and the others are those above.
ghost use Rattle.std.specs.Prelude.{◌≡◌, ◌<◌, ◌≤◌, ◌^◌, [], ◌||◌, length, map, drop, true, IfOk};
ghost use Rattle.std.specs.List.{AllByRecursion, list_all};
ghost use Rattle.ksi_signature.specs.Above.{AreRoundLinks};
ghost use Rattle.ksi_signature.specs.File.{IsSignature};
ghost use Rattle.ksi_signature.specs.Reading.{signature_at};
ghost use Rattle.ksi_signature.specs.Issued.{issued};
ghost use Rattle.ksi_signature.specs.Written.{signature_text};
ghost use Rattle.ksi_tlv.specs.Spelling.{AreBytes};
ghost use Rattle.ksi_wire.specs.Asked.{Answers};
ghost use Rattle.ksi_wire.specs.AskedAbove.{above_from, above_said, are_round_links, as_above, by_signature, has_round_links, is_left, is_name_link, is_node, is_short_metadata, may_stand};
ghost use Rattle.ksi_wire.specs.Responses.{above_text, input_of};

use crate::fault::WireFault;
use hex::FromHexError;
use ksi_aggtree::chains::{Link, Sibling};
use ksi_imprint::{Bytes, Imprint, NoMemory, Refused};
use ksi_signature::laws::signature_is_read;
use ksi_signature::{
    Above, AboveChain, AboveChains, AboveLinks, AggregationChain, Signature, issue, read,
};
use ksi_split::Side;
use std::alloc::Global;

/// The input of the lowest chain, or the root if there is no chain.
fn input_of(above: &Above) -> Imprint
    ensures { result ≡ input_of above.now }
{
    match above.chains.as_slice() {
        [] => above.root,
        [lowest, ..] => lowest.input,
    }
}

/// The word for the chains above a round of a second.
pub fn above_text(alloc: Global, second: u64, above: &Above) -> Result<Bytes, NoMemory>
    requires { second < 2 ^ 63 }
    ensures text { IfOk result (λ text. text ≡ above_text second above.now) }
    ensures bytes { IfOk result (λ text. AreBytes (signature_text (issued second (input_of above.now) [] above.now))) }
    ensures again { IfOk result (λ text. IsSignature (signature_text (issued second (input_of above.now) [] above.now)) (issued second (input_of above.now) [] above.now)) }
{
    let input = input_of(above);
    let bytes = issue(alloc, second, &input, &[], above)?;
    are_bytes(bytes.as_slice());
    let text = hex::encode(alloc, bytes.as_slice())?;
    Ok(Bytes::from_vec(text.into_bytes()))
}

/// The members of a slice of bytes are bytes. It does nothing.
fn are_bytes(bytes: &[u8])
    ensures { AreBytes bytes.now }
{}

/// The chains above a round, that a word in hex says.
///
/// # Errors
/// `Above`: the word is not the hex of such a signature. `NoMemory`.
#[tactic(auto, unfolding(crate::specs::AskedAbove::above_said))]
pub(crate) fn above_said(alloc: Global, word: &[u8]) -> Result<Above, Refused<WireFault>>
    ensures said { Answers (above_said word.now) result }
    ensures few { IfOk result (λ above. length above.chains ≤ 7) }
    ensures links { IfOk result (λ above. AllByRecursion (λ chain. AreRoundLinks chain.links) above.chains) }
{
    let bytes = match hex::decode(alloc, word) {
        Ok(bytes) => bytes,
        Err(FromHexError::OutOfMemory) => return Err(Refused::NoMemory),
        Err(_) => return Err(Refused::Fault(WireFault::Above)),
    };
    above_in(alloc, bytes.as_slice())
}

/// What the signature that bytes are says of the chains above its item.
fn above_in(alloc: Global, bytes: &[u8]) -> Result<Above, Refused<WireFault>>
    ensures { Answers (by_signature (signature_at bytes.now)) result }
{
    signature_is_read();
    are_bytes(bytes);
    let signature = match read(alloc, bytes) {
        Ok(signature) => signature,
        Err(Refused::NoMemory) => return Err(Refused::NoMemory),
        Err(Refused::Fault(_)) => return Err(Refused::Fault(WireFault::Above)),
    };
    match above_from(alloc, signature)? {
        Some(above) => Ok(above),
        None => Err(Refused::Fault(WireFault::Above)),
    }
}

/// What a signature says of the chains above its item. They are all but the lowest, which is the item's own.
fn above_from(alloc: Global, signature: Signature) -> Result<Option<Above>, NoMemory>
    ensures { IfOk result (λ found. found ≡ above_from signature) }
{
    let Signature {
        chains,
        calendar,
        publication,
    } = signature;
    let Some(calendar) = calendar else {
        return Ok(None);
    };
    if publication.is_some() {
        return Ok(None);
    }
    let chains = chains.into_vec();
    if !may_stand(&chains) {
        return Ok(None);
    }
    let chains = chains_above(alloc, chains)?;
    Ok(Some(Above {
        root: calendar.input,
        chains,
        calendar: calendar.links,
    }))
}

/// Whether all but the lowest may stand above a round.
fn may_stand(chains: &[AggregationChain]) -> bool
    ensures { result ≡ may_stand chains.now }
{
    chains.len() <= 8 && have_round_links(chains)
}

fn have_round_links(chains: &[AggregationChain]) -> bool
    ensures { result ≡ list_all has_round_links chains.now }
{
    chains.iter().all(|chain| has_round_links(chain))
}

fn has_round_links(chain: &AggregationChain) -> bool
    ensures { result ≡ has_round_links chain.now }
{
    are_round_links(chain.links.as_slice())
}

/// All chains but the lowest.
fn chains_above(alloc: Global, chains: Vec<AggregationChain>) -> Result<AboveChains, NoMemory>
    requires some { 0 < length chains.items }
    requires may { may_stand chains.items ≡ true }
    ensures { IfOk result (λ above. above ≡ map as_above (drop 1 chains.items)) }
{
    let mut chains = chains;
    let _own = chains.remove(0);
    all_above(alloc, chains)
}

fn all_above(alloc: Global, chains: Vec<AggregationChain>) -> Result<AboveChains, NoMemory>
    requires few { length chains.items ≤ 7 }
    requires links { list_all has_round_links chains.items ≡ true }
    ensures { IfOk result (λ above. above ≡ map as_above chains.items) }
{
    let mut above = Vec::new(alloc);
    'taking: for chain in chains {
        above.push(as_above(chain))?;
    }
    Ok(AboveChains::from_vec(above))
}

fn as_above(chain: AggregationChain) -> AboveChain
    requires { has_round_links chain ≡ true }
    ensures { result ≡ as_above chain }
{
    let AggregationChain {
        time: _,
        index: _,
        input_body: _,
        input,
        links,
    } = chain;
    AboveChain {
        input,
        links: AboveLinks::from_vec(links.into_vec()),
    }
}

fn are_round_links(links: &[Link]) -> bool
    ensures { result ≡ are_round_links links.now }
{
    match links {
        [] => true,
        [lowest, others @ ..] => { links.len() <= 17 && may_be_lowest(lowest) && are_nodes(others) }
    }
}

fn are_nodes(links: &[Link]) -> bool
    ensures { result ≡ list_all (λ link. is_node link.sibling) links.now }
{
    links.iter().all(|link| is_node(&link.sibling))
}

fn may_be_lowest(link: &Link) -> bool
    ensures { result ≡ (is_node link.now.sibling || is_name_link link.now) }
{
    is_node(&link.sibling) || is_name_link(link)
}

fn is_node(sibling: &Sibling) -> bool
    ensures { result ≡ is_node sibling.now }
{
    matches!(sibling, Sibling::Imprint(_))
}

fn is_name_link(link: &Link) -> bool
    ensures { result ≡ is_name_link link.now }
{
    is_short_metadata(&link.sibling) && link.correction == 0 && is_left(link.side)
}

fn is_short_metadata(sibling: &Sibling) -> bool
    ensures { result ≡ is_short_metadata sibling.now }
{
    match sibling {
        Sibling::Metadata(bytes) => 1 <= bytes.as_slice().len() && bytes.as_slice().len() <= 70,
        Sibling::Imprint(_) | Sibling::Legacy(_) => false,
    }
}

fn is_left(side: Side) -> bool
    ensures { result ≡ is_left side }
{
    match side {
        Side::Left => true,
        Side::Right => false,
    }
}
