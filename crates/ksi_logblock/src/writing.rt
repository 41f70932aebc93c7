//! A proof file, as it is written.
ghost use Rattle.std.specs.Prelude.{◌≡◌, ◌≤◌, ◌++◌, length, map, IfOk, OnOk};
ghost use Rattle.ksi_tlv.specs.Spelling.{canonical};
ghost use Rattle.ksi_tlv.specs.Writing.{texts};
ghost use Rattle.ksi_logblock.specs.Kept.{IsLineLink};
ghost use Rattle.std.specs.List.{AllByRecursion};
ghost use Rattle.ksi_logblock.specs.File.{IsProofFile, correction_elements, kind_of, link_element, link_elements, proof_text};

use crate::laws::text_is_proof;
use crate::line_proof::{LineLink, LineProof};
use crate::reading::MAGIC;
use ksi_imprint::{Bytes, NoMemory};
use ksi_split::Side;
use ksi_tlv::Writer;
use ksi_tlv::grammar::put_short;
use ksi_tlv::laws::numeral_is_read;
use std::alloc::Global;

/// The file of a line's proof.
///
/// # Errors
/// `NoMemory` if memory ran out.
pub fn write_proof(alloc: Global, proof: &LineProof) -> Result<Bytes, NoMemory>
    ensures text { IfOk result (λ text. text ≡ proof_text proof.now) }
    ensures again { IfOk result (λ text. IsProofFile text proof.now) }
{
    text_is_proof();
    let mut magic = Vec::new(alloc);
    magic.extend_from_slice(MAGIC)?;
    let mut writer = Writer::behind(magic);
    put_short(&mut writer, 0x01, proof.mask.bytes())?;
    put_links(&mut writer, alloc, proof.links.as_slice())?;
    Ok(Bytes::from_vec(writer.into_vec()))
}

fn put_links(writer: &mut Writer, alloc: Global, links: &[LineLink]) -> Result<(), NoMemory>
    ensures text { OnOk result (writer.new ≡ writer.old ++ texts (map link_element links.now)) }
    ensures links { OnOk result (AllByRecursion IsLineLink links.now) }
{
    for link in links {
        put_link(writer, alloc, link)?;
    }
    Ok(())
}

fn put_link(writer: &mut Writer, alloc: Global, link: &LineLink) -> Result<(), NoMemory>
    ensures text { OnOk result (writer.new ≡ writer.old ++ canonical (link_element link.now)) }
    ensures link { OnOk result (IsLineLink link.now) }
{
    let body = link_body(alloc, link)?;
    put_short(writer, kind_of(link.side), body.bytes())
}

fn kind_of(side: Side) -> u16
    ensures kind { result ≡ kind_of side }
    ensures few { result ≤ 8 }
{
    match side {
        Side::Left => 0x07,
        Side::Right => 0x08,
    }
}

fn link_body(alloc: Global, link: &LineLink) -> Result<Writer, NoMemory>
    ensures text { IfOk result (λ body. body ≡ texts (link_elements link.now)) }
    ensures short { IfOk result (λ body. length body ≤ 65535) }
    ensures link { IfOk result (λ _. IsLineLink link.now) }
{
    numeral_is_read();
    let mut body = Writer::behind(Vec::with_capacity(alloc, 40)?);
    put_correction(&mut body, link.correction)?;
    put_short(&mut body, 0x02, link.sibling.bytes())?;
    Ok(body)
}

/// A correction is written only where it is not 0.
fn put_correction(writer: &mut Writer, correction: u8) -> Result<(), NoMemory>
    ensures { OnOk result (writer.new ≡ writer.old ++ texts (correction_elements correction)) }
{
    if correction == 0 {
        return Ok(());
    }
    writer.put_number(0x01, u64::from(correction))
}
