ghost use Rattle.std.specs.Prelude.{◌≡◌, ◌↔◌, ◌++◌, ◌∷◌, [], ◌≤◌, ◌<◌, true, length, map, Err, OnOk, IfOk};
ghost use Rattle.std.specs.List.{AllByRecursion, list_any};
ghost use Rattle.ksi_tlv.specs.Spelling.{canonical, plain};
ghost use Rattle.ksi_tlv.specs.Writing.{texts};
ghost use Rattle.ksi_imprint.specs.declared.refused.Refused.TheVariants.{Fault};
ghost use Rattle.ksi_journal.specs.declared.version.Version.TheVariants.{One};
ghost use Rattle.ksi_journal.specs.declared.writer.VersionRefusal.TheVariants.{NeedsTwo};
ghost use Rattle.ksi_journal.specs.Written.{voter_elements, voters_element, needs_two, version_of, has_name, text_in, head_elements, pair_elements, second_element, item_element, kept_elements, seconds_elements, issued_element, publication_element, journal_elements, journal_text};
ghost use Rattle.ksi_journal.specs.Journal.{IsVoters, IsIssued, IsJournal};
ghost use Rattle.ksi_journal.specs.File.{IsJournalFile};

use crate::item::put_item;
use crate::journal::Journal;
use crate::laws::{text_is_journal, written_is_journal};
use crate::loading::{END, ISSUED, PUBLICATION, SECOND, START, VOTERS};
use crate::version::Version;
use crate::voters::bits_of;
use ksi_aggtree::{Item, Second};
use ksi_imprint::{Bytes, Compress, Imprint, NoMemory, Refused};
use ksi_synod::VotersFrom;
use ksi_tlv::Writer;
use ksi_tlv::grammar::put_short;
use ksi_tlv::laws::numeral_is_read;
use std::alloc::Global;

/// Why a journal is not written in a version.
#[derive(Clone, Copy, Debug)]
pub enum VersionRefusal {
    /// Version 1 is asked, and there are voters, or a kept item has a name.
    NeedsTwo,
}

/// The text of a journal, in version 2 if it needs that, which loads again as the journal.
///
/// # Errors
/// `NoMemory` if memory ran out.
pub fn write<C: Compress>(alloc: Global, journal: &Journal<C>) -> Result<Bytes, NoMemory>
    ensures text { IfOk result (λ text. text ≡ journal_text journal.now) }
    ensures again { IfOk result (λ text. IsJournalFile C.image text journal.now) }
{
    written_is_journal();
    written(alloc, journal, version_of(journal))
}

/// The text of a journal in a version, which loads again as the journal.
///
/// # Errors
/// `NeedsTwo` exactly if version 1 is asked for and the journal needs version 2; `NoMemory` if memory ran out.
pub fn write_version<C: Compress>(
    alloc: Global,
    journal: &Journal<C>,
    version: Version,
) -> Result<Bytes, Refused<VersionRefusal>>
    ensures text { IfOk result (λ text. text ≡ text_in version journal.now) }
    ensures again { IfOk result (λ text. IsJournalFile C.image text journal.now) }
    ensures refused { (result ≡ Err (Fault NeedsTwo)) ↔ ((version ≡ One) × (needs_two journal.now ≡ true)) }
{
    text_is_journal();
    if matches!(version, Version::One) && needs_two(journal) {
        return Err(Refused::Fault(VersionRefusal::NeedsTwo));
    }
    match written(alloc, journal, version) {
        Ok(text) => Ok(text),
        Err(NoMemory) => Err(Refused::NoMemory),
    }
}

/// Version 2 exactly where it is needed.
fn version_of<C: Compress>(journal: &Journal<C>) -> Version
    ensures { result ≡ version_of journal.now }
{
    if needs_two(journal) {
        Version::Two
    } else {
        Version::One
    }
}

/// Whether there are voters, or a kept item has a name.
fn needs_two<C: Compress>(journal: &Journal<C>) -> bool
    ensures { result ≡ needs_two journal.now }
{
    !journal.voters().is_empty() || have_name(journal.seconds())
}

/// Whether an item of one of the seconds has a name.
fn have_name(seconds: &[Second]) -> bool
    ensures { result ≡ list_any has_name seconds.now }
{
    seconds.iter().any(|kept| has_name(kept))
}

/// Whether an item of a second has a name.
fn has_name(kept: &Second) -> bool
    ensures { result ≡ has_name kept.now }
{
    kept.items.as_slice().iter().any(|item| item.name.is_some())
}

fn written<C: Compress>(
    alloc: Global,
    journal: &Journal<C>,
    version: Version,
) -> Result<Bytes, NoMemory>
    ensures text { IfOk result (λ text. text ≡ text_in version journal.now) }
    ensures journal { IfOk result (λ _. IsJournal C.image journal.now) }
{
    let mut magic = Vec::new(alloc);
    magic.extend_from_slice(version.magic())?;
    let mut writer = Writer::behind(magic);
    put_elements(&mut writer, alloc, journal)?;
    Ok(Bytes::from_vec(writer.into_vec()))
}

fn put_elements<C: Compress>(
    writer: &mut Writer,
    alloc: Global,
    journal: &Journal<C>,
) -> Result<(), NoMemory>
    ensures text { OnOk result (writer.new ≡ writer.old ++ texts (journal_elements journal.now)) }
    ensures journal { OnOk result (IsJournal C.image journal.now) }
{
    writer.put_number(START, journal.start())?;
    put_all_voters(writer, alloc, journal.voters())?;
    put_seconds(writer, alloc, journal.seconds())?;
    put_issued(writer, alloc, journal.issued())?;
    put_publications(writer, alloc, journal.publications())?;
    put_short(writer, END, &[])?;
    Ok(())
}

/// A writer of nothing yet, with room for this many bytes.
fn body_of(alloc: Global, room: usize) -> Result<Writer, NoMemory>
    ensures { IfOk result (λ body. body ≡ []) }
{
    Ok(Writer::behind(Vec::with_capacity(alloc, room)?))
}

fn put_all_voters(writer: &mut Writer, alloc: Global, voters: &[VotersFrom]) -> Result<(), NoMemory>
    requires { AllByRecursion IsVoters voters.now }
    ensures { OnOk result (writer.new ≡ writer.old ++ texts (map voters_element voters.now)) }
{
    for pair in voters {
        put_voters(writer, alloc, pair)?;
    }
    Ok(())
}

fn put_voters(writer: &mut Writer, alloc: Global, pair: &VotersFrom) -> Result<(), NoMemory>
    requires { IsVoters pair.now }
    ensures { OnOk result (writer.new ≡ writer.old ++ canonical (voters_element pair.now)) }
{
    let body = voters_body(alloc, pair)?;
    put_short(writer, VOTERS, body.bytes())
}

fn voters_body(alloc: Global, pair: &VotersFrom) -> Result<Writer, NoMemory>
    requires { IsVoters pair.now }
    ensures text { IfOk result (λ body. body ≡ texts (voter_elements pair.now)) }
    ensures short { IfOk result (λ body. length body ≤ 65535) }
{
    numeral_is_read();
    let mut body = body_of(alloc, 16)?;
    body.put_number(0x01, pair.second)?;
    body.put_number(0x02, bits_of(&pair.voters))?;
    Ok(body)
}

fn put_seconds(writer: &mut Writer, alloc: Global, seconds: &[Second]) -> Result<(), NoMemory>
    ensures { OnOk result (writer.new ≡ writer.old ++ texts (seconds_elements seconds.now)) }
{
    for kept in seconds {
        put_second(writer, alloc, kept)?;
    }
    Ok(())
}

/// A second and its items.
fn put_second(writer: &mut Writer, alloc: Global, kept: &Second) -> Result<(), NoMemory>
    ensures { OnOk result (writer.new ≡ writer.old ++ texts (kept_elements kept.now)) }
{
    put_head(writer, alloc, kept)?;
    put_items(writer, kept.items.as_slice())
}

fn put_head(writer: &mut Writer, alloc: Global, kept: &Second) -> Result<(), NoMemory>
    ensures { OnOk result (writer.new ≡ writer.old ++ canonical (second_element kept.now)) }
{
    let inside = head_body(alloc, kept)?;
    put_short(writer, SECOND, inside.bytes())
}

fn put_items(writer: &mut Writer, items: &[Item]) -> Result<(), NoMemory>
    ensures { OnOk result (writer.new ≡ writer.old ++ texts (map item_element items.now)) }
{
    for item in items {
        put_item(writer, item)?;
    }
    Ok(())
}

fn head_body(alloc: Global, kept: &Second) -> Result<Writer, NoMemory>
    ensures text { IfOk result (λ body. body ≡ texts (head_elements kept.now)) }
    ensures short { IfOk result (λ body. length body ≤ 65535) }
{
    numeral_is_read();
    let mut body = body_of(alloc, 64)?;
    body.put_number(0x01, kept.second)?;
    put_short(&mut body, 0x02, kept.root.bytes())?;
    body.put_number(0x03, kept.items.as_slice().len() as u64)?;
    Ok(body)
}

fn put_issued(writer: &mut Writer, alloc: Global, issued: &[(u64, Bytes)]) -> Result<(), NoMemory>
    requires { AllByRecursion IsIssued issued.now }
    ensures { OnOk result (writer.new ≡ writer.old ++ texts (map issued_element issued.now)) }
{
    for signature in issued {
        put_pair(writer, alloc, ISSUED, signature.0, signature.1.as_slice())?;
    }
    Ok(())
}

fn put_publications(
    writer: &mut Writer,
    alloc: Global,
    publications: &[(u64, Imprint)],
) -> Result<(), NoMemory>
    ensures { OnOk result (writer.new ≡ writer.old ++ texts (map publication_element publications.now)) }
{
    for publication in publications {
        put_pair(
            writer,
            alloc,
            PUBLICATION,
            publication.0,
            publication.1.bytes(),
        )?;
    }
    Ok(())
}

/// A number and bytes, as an element of a kind.
fn put_pair(
    writer: &mut Writer,
    alloc: Global,
    kind: u16,
    number: u64,
    bytes: &[u8],
) -> Result<(), NoMemory>
    requires kind { kind ≤ 0x1fff }
    requires short { length bytes.now ≤ 60000 }
    ensures { OnOk result (writer.new ≡ writer.old ++ canonical (plain kind (texts (pair_elements (number, bytes.now))))) }
{
    let body = pair_body(alloc, number, bytes)?;
    put_short(writer, kind, body.bytes())
}

fn pair_body(alloc: Global, number: u64, bytes: &[u8]) -> Result<Writer, NoMemory>
    requires { length bytes.now ≤ 60000 }
    ensures text { IfOk result (λ body. body ≡ texts (pair_elements (number, bytes.now))) }
    ensures short { IfOk result (λ body. length body ≤ 65535) }
{
    numeral_is_read();
    let mut body = body_of(alloc, bytes.len() + 16)?;
    body.put_number(0x01, number)?;
    put_short(&mut body, 0x02, bytes)?;
    Ok(body)
}
