//! The bodies of the containers of a signature, as they are written.

ghost use Rattle.std.specs.Prelude.{◌≡◌, ◌≤◌, ◌+◌, ◌*◌, ◌++◌, ◌∷◌, [], IfOk, OnOk, length, map, option_map};
ghost use Rattle.std.specs.List.{AllByRecursion};
ghost use Rattle.ksi_imprint.specs.Imprints.{IsImprint};
ghost use Rattle.ksi_tlv.specs.Spelling.{plain, canonical};
ghost use Rattle.ksi_tlv.specs.Numerals.{numeral};
ghost use Rattle.ksi_tlv.specs.Writing.{texts};
ghost use Rattle.ksi_signature.specs.Values.{HasSize};
ghost use Rattle.ksi_signature.specs.Kept.{HasImprint, IsLink, IsPublishing};
ghost use Rattle.ksi_signature.specs.Written.{part_element, body_element, correction_elements, link_elements, link_element, chain_elements, calendar_link_element, calendar_elements, publishing_elements, side_kind, sibling_element, body_sizes, TellsLong};

use crate::NoMemory;
use crate::kinds::{
    AGGREGATION_TIME, ALGORITHM, CORRECTION, IMPRINT, INDEX_PART, INPUT_DATA, INPUT_HASH,
    LEFT_LINK, LEGACY, METADATA, PUBLICATION_TIME, PUBLISHED, REFERENCE, REPOSITORY, RIGHT_LINK,
};
use crate::refusal::WriteRefusal;
use crate::signature::PublicationRecord;
use ksi_aggtree::chains::{Link, Sibling};
use ksi_calendar::CalendarLink;
use ksi_imprint::{Bytes, Imprint, Refused};
use ksi_split::Side;
use ksi_tlv::Writer;
use ksi_tlv::grammar::{put_short, written_published};
use ksi_tlv::laws::numeral_is_read;
use std::alloc::Global;

/// The longest body of an element.
pub(crate) const LONGEST: u64 = 65_535;

/// Writes an element without flags, of whatever size, behind what is there.
pub(crate) fn put_body(
    writer: &mut Writer,
    kind: u16,
    body: &[u8],
) -> Result<(), Refused<WriteRefusal>>
    requires { kind ≤ 0x1fff }
    ensures ok { OnOk result (writer.new ≡ writer.old ++ canonical (plain kind body.now)) }
    ensures long { TellsLong (length body.now ∷ []) result }
{
    let size = body.len() as u64;
    if size > LONGEST {
        return Err(Refused::Fault(WriteRefusal::TooLong(size)));
    }
    put_short(writer, kind, body)?;
    Ok(())
}

/// The body of an aggregation chain.
pub(crate) fn chain_body(
    alloc: Global,
    time: u64,
    index: &[u64],
    input_body: Option<&[u8]>,
    input: &Imprint,
    links: &[Link],
) -> Result<Writer, Refused<WriteRefusal>>
    requires { AllByRecursion (λ link. HasSize link.sibling) links.now }
    ensures text { IfOk result (λ body. body ≡ texts (chain_elements (record {
      time = time;
      index = index.now;
      input_body = option_map (λ content. content.now) input_body.entry;
      input = input.now;
      links = links.now;
    }))) }
    ensures long { TellsLong (body_sizes (option_map (λ content. content.now) input_body.entry)) result }
    ensures input { IfOk result (λ _. IsImprint input.now) }
    ensures links { IfOk result (λ _. AllByRecursion IsLink links.now) }
{
    let mut body = chain_front(alloc, time, index, input_body)?;
    put_chain_end(&mut body, alloc, input, links)?;
    Ok(body)
}

/// What stands before the input hash of an aggregation chain.
fn chain_front(
    alloc: Global,
    time: u64,
    index: &[u64],
    input_body: Option<&[u8]>,
) -> Result<Writer, Refused<WriteRefusal>>
    ensures text { IfOk result (λ body. body ≡ texts (plain 2 (numeral time) ∷
        (map part_element index.now ++ body_element (option_map (λ content. content.now) input_body.entry)))) }
    ensures long { TellsLong (body_sizes (option_map (λ content. content.now) input_body.entry)) result }
{
    let mut body = Writer::new(alloc);
    body.put_number(AGGREGATION_TIME, time)?;
    put_index(&mut body, index)?;
    put_input_data(&mut body, input_body)?;
    Ok(body)
}

/// The input hash of an aggregation chain, and the part after it.
fn put_chain_end(
    writer: &mut Writer,
    alloc: Global,
    input: &Imprint,
    links: &[Link],
) -> Result<(), NoMemory>
    requires { AllByRecursion (λ link. HasSize link.sibling) links.now }
    ensures text { OnOk result (writer.new ≡ writer.old ++
        texts (plain 5 input.now ∷ plain 6 (numeral 1) ∷ map link_element links.now)) }
    ensures input { OnOk result (IsImprint input.now) }
    ensures links { OnOk result (AllByRecursion IsLink links.now) }
{
    put_short(writer, INPUT_HASH, input.bytes())?;
    writer.put_number(ALGORITHM, 1)?;
    put_links(writer, alloc, links)?;
    Ok(())
}

fn put_index(writer: &mut Writer, index: &[u64]) -> Result<(), NoMemory>
    ensures { OnOk result (writer.new ≡ writer.old ++ texts (map part_element index.now)) }
{
    for part in index {
        writer.put_number(INDEX_PART, *part)?;
    }
    Ok(())
}

fn put_input_data(writer: &mut Writer, content: Option<&[u8]>) -> Result<(), Refused<WriteRefusal>>
    ensures ok { OnOk result (writer.new ≡ writer.old ++ texts (body_element (option_map (λ content. content.now) content.entry))) }
    ensures long { TellsLong (body_sizes (option_map (λ content. content.now) content.entry)) result }
{
    match content {
        Some(content) => put_body(writer, INPUT_DATA, content),
        None => Ok(()),
    }
}

fn put_links(writer: &mut Writer, alloc: Global, links: &[Link]) -> Result<(), NoMemory>
    requires { AllByRecursion (λ link. HasSize link.sibling) links.now }
    ensures text { OnOk result (writer.new ≡ writer.old ++ texts (map link_element links.now)) }
    ensures links { OnOk result (AllByRecursion IsLink links.now) }
{
    for link in links {
        put_link(writer, alloc, link)?;
    }
    Ok(())
}

fn put_link(writer: &mut Writer, alloc: Global, link: &Link) -> Result<(), NoMemory>
    requires { HasSize link.now.sibling }
    ensures text { OnOk result (writer.new ≡ writer.old ++ canonical (link_element link.now)) }
    ensures link { OnOk result (IsLink link.now) }
{
    let body = link_body(alloc, link)?;
    put_short(writer, side_kind(link.side), body.bytes())
}

/// A link is called after the side that the node stands on.
fn side_kind(side: Side) -> u16
    ensures value { result ≡ side_kind side }
    ensures short { result ≤ 8 }
{
    match side {
        Side::Left => LEFT_LINK,
        Side::Right => RIGHT_LINK,
    }
}

fn link_body(alloc: Global, link: &Link) -> Result<Writer, NoMemory>
    requires { HasSize link.now.sibling }
    ensures text { IfOk result (λ body. body ≡ texts (link_elements link.now)) }
    ensures short { IfOk result (λ body. length body ≤ 4112) }
    ensures link { IfOk result (λ _. IsLink link.now) }
{
    let mut body = Writer::new(alloc);
    put_correction(&mut body, link.correction)?;
    put_sibling(&mut body, &link.sibling)?;
    Ok(body)
}

/// A correction is written only where it is not 0.
fn put_correction(writer: &mut Writer, correction: u8) -> Result<(), NoMemory>
    ensures text { OnOk result (writer.new ≡ writer.old ++ texts (correction_elements correction)) }
    ensures short { OnOk result (length writer.new ≤ length writer.old + 12) }
{
    numeral_is_read();
    if correction == 0 {
        return Ok(());
    }
    writer.put_number(CORRECTION, u64::from(correction))
}

fn put_sibling(writer: &mut Writer, sibling: &Sibling) -> Result<(), NoMemory>
    requires { HasSize sibling.now }
    ensures text { OnOk result (writer.new ≡ writer.old ++ canonical (sibling_element sibling.now)) }
    ensures short { OnOk result (length writer.new ≤ length writer.old + 4100) }
    ensures imprint { OnOk result (HasImprint sibling.now) }
{
    match sibling {
        Sibling::Imprint(imprint) => put_short(writer, IMPRINT, imprint.bytes()),
        Sibling::Legacy(bytes) => put_short(writer, LEGACY, bytes.as_slice()),
        Sibling::Metadata(bytes) => put_short(writer, METADATA, bytes.as_slice()),
    }
}

/// The body of a calendar chain, which is never too long.
pub(crate) fn calendar_body(
    alloc: Global,
    publication: u64,
    time: u64,
    input: &Imprint,
    links: &[CalendarLink],
) -> Result<Writer, NoMemory>
    requires { length links.now ≤ 63 }
    ensures text { IfOk result (λ body. body ≡ texts (calendar_elements (record {
      publication = publication;
      time = time;
      input = input.now;
      links = links.now;
    }))) }
    ensures short { IfOk result (λ body. length body ≤ 2392) }
    ensures input { IfOk result (λ _. IsImprint input.now) }
    ensures links { IfOk result (λ _. AllByRecursion (λ link. IsImprint link.sibling) links.now) }
{
    let mut body = Writer::new(alloc);
    put_calendar_parts(&mut body, publication, time, input, links)?;
    Ok(body)
}

fn put_calendar_parts(
    writer: &mut Writer,
    publication: u64,
    time: u64,
    input: &Imprint,
    links: &[CalendarLink],
) -> Result<(), NoMemory>
    ensures text { OnOk result (writer.new ≡ writer.old ++ texts (calendar_elements (record {
      publication = publication;
      time = time;
      input = input.now;
      links = links.now;
    }))) }
    ensures short { OnOk result (length writer.new ≤ length writer.old + (61 + 37 * length links.now)) }
    ensures input { OnOk result (IsImprint input.now) }
    ensures links { OnOk result (AllByRecursion (λ link. IsImprint link.sibling) links.now) }
{
    numeral_is_read();
    writer.put_number(PUBLICATION_TIME, publication)?;
    writer.put_number(AGGREGATION_TIME, time)?;
    put_short(writer, INPUT_HASH, input.bytes())?;
    put_calendar_links(writer, links)
}

fn put_calendar_links(writer: &mut Writer, links: &[CalendarLink]) -> Result<(), NoMemory>
    ensures text { OnOk result (writer.new ≡ writer.old ++ texts (map calendar_link_element links.now)) }
    ensures short { OnOk result (length writer.new ≤ length writer.old + 37 * length links.now) }
    ensures imprints { OnOk result (AllByRecursion (λ link. IsImprint link.sibling) links.now) }
{
    for link in links {
        put_short(writer, side_kind(link.side), link.sibling.bytes())?;
    }
    Ok(())
}

/// The body of a publication record.
pub(crate) fn publishing_body(
    alloc: Global,
    published: &PublicationRecord,
) -> Result<Writer, Refused<WriteRefusal>>
    ensures text { IfOk result (λ body. body ≡ texts (publishing_elements published.now)) }
    ensures long { TellsLong (map length published.now.references ++ map length published.now.repositories) result }
    ensures kept { IsPublishing published.now }
{
    let _ = published.hash.bytes();
    let references = published.references.as_slice();
    let repositories = published.repositories.as_slice();
    published_parts(
        alloc,
        published.time,
        &published.hash,
        references,
        repositories,
    )
}

fn published_parts(
    alloc: Global,
    time: u64,
    hash: &Imprint,
    references: &[Bytes],
    repositories: &[Bytes],
) -> Result<Writer, Refused<WriteRefusal>>
    ensures text { IfOk result (λ body. body ≡ texts (publishing_elements (record {
      time = time;
      hash = hash.now;
      references = references.now;
      repositories = repositories.now;
    }))) }
    ensures long { TellsLong (map length references.now ++ map length repositories.now) result }
{
    let mut body = Writer::new(alloc);
    let published = written_published(alloc, time, hash)?;
    put_short(&mut body, PUBLISHED, published.as_slice())?;
    put_bodies(&mut body, REFERENCE, references)?;
    put_bodies(&mut body, REPOSITORY, repositories)?;
    Ok(body)
}

fn put_bodies(writer: &mut Writer, kind: u16, bodies: &[Bytes]) -> Result<(), Refused<WriteRefusal>>
    requires { kind ≤ 0x1fff }
    ensures ok { OnOk result (writer.new ≡ writer.old ++ texts (map (plain kind) bodies.now)) }
    ensures long { TellsLong (map length bodies.now) result }
{
    for body in bodies {
        put_body(writer, kind, body.as_slice())?;
    }
    Ok(())
}
