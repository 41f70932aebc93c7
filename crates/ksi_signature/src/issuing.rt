ghost use Rattle.std.specs.Prelude.{◌≡◌, ◌<◌, ◌≤◌, ◌+◌, ◌*◌, ◌^◌, ◌++◌, ◌∷◌, [], None, IfOk, OnOk, map, length};
ghost use Rattle.std.specs.List.{AllByRecursion};
ghost use Rattle.ksi_tlv.specs.Spelling.{canonical};
ghost use Rattle.ksi_tlv.specs.Writing.{texts};
ghost use Rattle.ksi_signature.specs.File.{IsSignature};
ghost use Rattle.ksi_signature.specs.Kept.{IsLink};
ghost use Rattle.ksi_signature.specs.Carried.{IsAboveChain, IsAbove};
ghost use Rattle.ksi_signature.specs.Written.{chain_element, chain_elements, signature_elements, signature_text};
ghost use Rattle.ksi_signature.specs.Above.{AreRoundLinks};
ghost use Rattle.ksi_signature.specs.Issued.{shape_along, index_of, issued_chains, own_chain, issued};

use crate::NoMemory;
use crate::above::{Above, AboveChain};
use crate::bodies::{calendar_body, chain_body};
use crate::carried::{above_is_kept, imprint_is_kept, links_are_kept};
use crate::kinds::{CALENDAR, CHAIN, SIGNATURE};
use crate::laws::written_is_signature;
use crate::refusal::WriteRefusal;
use ksi_aggtree::chains::{Link, shape};
use ksi_imprint::{Bytes, Imprint, Refused};
use ksi_tlv::Writer;
use ksi_tlv::grammar::put_short;
use ksi_tlv::laws::numeral_is_read;
use std::alloc::Global;

/// The bytes of the signature of an item in a second: its own chain in its round, which leads from its imprint, then the
/// chains above, then the calendar chain of that second. They are at most 10,000.
#[tactic(auto, unfolding(crate::specs::Written::signature_text))]
pub fn issue(
    alloc: Global,
    second: u64,
    input: &Imprint,
    links: &[Link],
    above: &Above,
) -> Result<Bytes, NoMemory>
    requires second { second < 2 ^ 63 }
    requires links { AreRoundLinks links.now }
    ensures text { IfOk result (λ bytes. bytes ≡ signature_text (issued second input.now links.now above.now)) }
    ensures size { IfOk result (λ bytes. length bytes ≤ 10000) }
    ensures again { IfOk result (λ bytes. IsSignature bytes (issued second input.now links.now above.now)) }
{
    numeral_is_read();
    written_is_signature();
    imprint_is_kept(input);
    links_are_kept(links);
    above_is_kept(above);
    let content = content(alloc, second, input, links, above)?;
    let mut writer = Writer::new(alloc);
    put_short(&mut writer, SIGNATURE, content.bytes())?;
    Ok(Bytes::from_vec(writer.into_vec()))
}

#[tactic(auto, unfolding(crate::specs::Issued::issued))]
fn content(
    alloc: Global,
    second: u64,
    input: &Imprint,
    links: &[Link],
    above: &Above,
) -> Result<Writer, NoMemory>
    requires limits { AreRoundLinks links.now }
    requires links { AllByRecursion IsLink links.now }
    requires above { IsAbove above.now }
    ensures text { IfOk result (λ content. content ≡ texts (signature_elements (issued second input.now links.now above.now))) }
    ensures short { IfOk result (λ content. length content ≤ 9974) }
{
    let mut content = Writer::new(alloc);
    let chains = above.chains.as_slice();
    put_all(&mut content, alloc, second, input, links, chains)?;
    let calendar = above.calendar.as_slice();
    let body = calendar_body(alloc, second, second, &above.root, calendar)?;
    put_short(&mut content, CALENDAR, body.bytes())?;
    Ok(content)
}

/// The chain of an item and those above it.
fn put_all(
    writer: &mut Writer,
    alloc: Global,
    second: u64,
    input: &Imprint,
    links: &[Link],
    chains: &[AboveChain],
) -> Result<(), NoMemory>
    requires limits { AreRoundLinks links.now }
    requires links { AllByRecursion IsLink links.now }
    requires count { length chains.now ≤ 8 }
    requires chains { AllByRecursion IsAboveChain chains.now }
    ensures text { OnOk result (writer.new ≡
        writer.old ++ texts (map chain_element (issued_chains second (own_chain input.now links.now ∷ chains.now)))) }
    ensures short { OnOk result (length writer.new ≤ length writer.old + 7578) }
{
    let index = index_of(alloc, links, chains)?;
    let index = index.as_slice();
    put_chain(writer, alloc, second, index, input, links)?;
    put_chains(writer, alloc, second, &index[..chains.len()], chains)
}

/// The index of a chain with these links below others.
fn index_of(alloc: Global, links: &[Link], chains: &[AboveChain]) -> Result<Vec<u64>, NoMemory>
    requires { length links.now ≤ 17 }
    ensures { IfOk result (λ index. index.items ≡ index_of chains.now ++ (shape_along links.now ∷ [])) }
{
    let mut index = Vec::new(alloc);
    for place in 0..chains.len() {
        let chain = &chains[chains.len() - 1 - place];
        index.push(shape_of(chain.links.as_slice()))?;
    }
    index.push(shape_of(links))?;
    Ok(index)
}

/// The last index part of a chain with these links.
fn shape_of(links: &[Link]) -> u64
    requires { length links.now ≤ 63 }
    ensures { result ≡ shape_along links.now }
{
    shape(links)
}

/// Chains one above the other, the first with this index.
fn put_chains(
    writer: &mut Writer,
    alloc: Global,
    second: u64,
    index: &[u64],
    chains: &[AboveChain],
) -> Result<(), NoMemory>
    requires index { index.now ≡ index_of chains.now }
    requires count { length chains.now ≤ 8 }
    requires chains { AllByRecursion IsAboveChain chains.now }
    ensures text { OnOk result (writer.new ≡ writer.old ++ texts (map chain_element (issued_chains second chains.now))) }
    ensures short { OnOk result (length writer.new ≤ length writer.old + 842 * length chains.now) }
{
    let mut index = index;
    for chain in chains {
        let links = chain.links.as_slice();
        put_chain(writer, alloc, second, index, &chain.input, links)?;
        index = &index[..index.len() - 1];
    }
    Ok(())
}

fn put_chain(
    writer: &mut Writer,
    alloc: Global,
    second: u64,
    index: &[u64],
    input: &Imprint,
    links: &[Link],
) -> Result<(), NoMemory>
    requires index { length index.now ≤ 9 }
    requires parts { AllByRecursion (λ part. part < 2 ^ 24) index.now }
    requires limits { AreRoundLinks links.now }
    requires links { AllByRecursion IsLink links.now }
    ensures text { OnOk result (writer.new ≡ writer.old ++ canonical (chain_element (record {
      time = second;
      index = index.now;
      input_body = None;
      input = input.now;
      links = links.now;
    }))) }
    ensures short { OnOk result (length writer.new ≤ length writer.old + 842) }
{
    let body = small_chain(alloc, second, index, input, links)?;
    put_short(writer, CHAIN, body.bytes())
}

/// The body of a chain of a round, which is never too long.
fn small_chain(
    alloc: Global,
    second: u64,
    index: &[u64],
    input: &Imprint,
    links: &[Link],
) -> Result<Writer, NoMemory>
    requires index { length index.now ≤ 9 }
    requires parts { AllByRecursion (λ part. part < 2 ^ 24) index.now }
    requires limits { AreRoundLinks links.now }
    requires links { AllByRecursion IsLink links.now }
    ensures text { IfOk result (λ body. body ≡ texts (chain_elements (record {
      time = second;
      index = index.now;
      input_body = None;
      input = input.now;
      links = links.now;
    }))) }
    ensures short { IfOk result (λ body. length body ≤ 838) }
{
    numeral_is_read();
    imprint_is_kept(input);
    match chain_body(alloc, second, index, None, input, links) {
        Ok(body) => Ok(body),
        Err(Refused::NoMemory) => Err(NoMemory),
        Err(Refused::Fault(_)) => unreachable!(),
    }
}
