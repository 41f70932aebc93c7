ghost use Rattle.std.specs.Prelude.{◌≡◌, ◌^◌, ◌<◌, ◌++◌, ◌∷◌, [], IfOk, OnOk, map};
ghost use Rattle.std.specs.List.{AllByRecursion};
ghost use Rattle.ksi_imprint.specs.Imprints.{IsImprint};
ghost use Rattle.ksi_tlv.specs.Spelling.{plain, canonical};
ghost use Rattle.ksi_tlv.specs.Numerals.{numeral};
ghost use Rattle.ksi_tlv.specs.Writing.{texts};
ghost use Rattle.ksi_publications.specs.File.{header_element, record_element, publications_text, IsPublications};

use crate::NoMemory;
use crate::containers::{CREATION, HEADER, MAGIC, RECORD, VERSION};
use crate::laws::written_is_publications;
use ksi_imprint::{Bytes, Imprint};
use ksi_tlv::Writer;
use ksi_tlv::grammar::{put_short, written_record};
use ksi_tlv::laws::numeral_is_read;
use std::alloc::Global;

/// A publications file of version 1 with these published times and hashes in this order, without references. Times are
/// seconds of Unix time. If the creation time and all others are below 2^63, the file is read again as these pairs.
///
/// # Errors
///
/// `NoMemory` if memory ran out.
pub fn write(alloc: Global, creation: u64, pairs: &[(u64, Imprint)]) -> Result<Bytes, NoMemory>
    ensures text { IfOk result (λ file. file ≡ publications_text creation pairs.now) }
    ensures read_again { creation < 2 ^ 63 → AllByRecursion (λ pair. pair.0 < 2 ^ 63) pairs.now →
        IfOk result (λ file. IsPublications file pairs.now) }
{
    written_is_publications();
    written(alloc, creation, pairs)
}

fn written(alloc: Global, creation: u64, pairs: &[(u64, Imprint)]) -> Result<Bytes, NoMemory>
    ensures text { IfOk result (λ file. file ≡ publications_text creation pairs.now) }
    ensures imprints { IfOk result (λ _. AllByRecursion (λ pair. IsImprint pair.1) pairs.now) }
{
    let elements = elements(alloc, creation, pairs)?;
    let mut file = Vec::new(alloc);
    file.extend_from_slice(MAGIC)?;
    file.extend_from_slice(elements.bytes())?;
    Ok(Bytes::from_vec(file))
}

// The header and the records.
fn elements(alloc: Global, creation: u64, pairs: &[(u64, Imprint)]) -> Result<Writer, NoMemory>
    ensures text { IfOk result (λ writer. writer ≡ texts (header_element creation ∷ map record_element pairs.now)) }
    ensures imprints { IfOk result (λ _. AllByRecursion (λ pair. IsImprint pair.1) pairs.now) }
{
    let mut writer = Writer::new(alloc);
    put_header(&mut writer, alloc, creation)?;
    for pair in pairs {
        put_record(&mut writer, alloc, pair)?;
    }
    Ok(writer)
}

fn put_header(writer: &mut Writer, alloc: Global, creation: u64) -> Result<(), NoMemory>
    ensures { OnOk result (writer.new ≡ writer.old ++ canonical (header_element creation)) }
{
    numeral_is_read();
    let header = header_body(alloc, creation)?;
    put_short(writer, HEADER, header.bytes())
}

fn header_body(alloc: Global, creation: u64) -> Result<Writer, NoMemory>
    ensures { IfOk result (λ header. header ≡ texts (plain 1 (numeral 1) ∷ plain 2 (numeral creation) ∷ [])) }
{
    let mut header = Writer::new(alloc);
    header.put_number(VERSION, 1)?;
    header.put_number(CREATION, creation)?;
    Ok(header)
}

fn put_record(writer: &mut Writer, alloc: Global, pair: &(u64, Imprint)) -> Result<(), NoMemory>
    ensures text { OnOk result (writer.new ≡ writer.old ++ canonical (record_element pair.now)) }
    ensures imprint { IsImprint pair.now.1 }
{
    let _ = pair.1.bytes();
    let record = written_record(alloc, pair.0, &pair.1)?;
    put_short(writer, RECORD, record.as_slice())
}
