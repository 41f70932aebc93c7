ghost use Rattle.std.specs.Prelude.{◌≡◌, ◌++◌, ◌∷◌, [], ◌⊎◌, ℕ, Some, None, Err, IfSome, IfOk, OnOk, map, flat_map, option_map};
ghost use Rattle.ksi_imprint.specs.declared.refused.Refused.TheVariants as refused;
ghost use Rattle.ksi_signature.specs.declared.refusal.WriteRefusal.TheVariants as refusals;
ghost use Rattle.std.specs.List.{AllByRecursion};
ghost use Rattle.ksi_tlv.specs.Writing.{texts};
ghost use Rattle.ksi_signature.specs.File.{IsSignature};
ghost use Rattle.ksi_signature.specs.Kept.{IsAggregation, IsCalendar, IsPublishing, IsLimited};
ghost use Rattle.ksi_signature.specs.Written.{chain_element, calendar_element, publishing_element, optional_element, signature_elements, signature_text, chain_sizes, publishing_sizes, optional_sizes, sizes_of, first_long, TellsLong};

use crate::NoMemory;
use crate::bodies::{calendar_body, chain_body, publishing_body, put_body};
use crate::kinds::{CALENDAR, CHAIN, PUBLICATION, SIGNATURE};
use crate::laws::written_is_signature;
use crate::refusal::WriteRefusal;
use crate::signature::{AggregationChain, CalendarChain, PublicationRecord, Signature};
use ksi_imprint::{Bytes, Refused};
use ksi_tlv::Writer;
use ksi_tlv::grammar::put_short;
use std::alloc::Global;

/// The text of a signature: the elements of each container in the order of docs/FORMATS.md, without flags and in their
/// shortest form, a correction only if it is not 0, and always the aggregation time of a calendar chain. `read` returns
/// the signature again.
///
/// # Errors
///
/// `TooLong` exactly if the body of an element has more than 65,535 bytes, with the size of the first such: in the order
/// of writing, an inner element before its parent. `NoMemory` if memory ran out.
pub fn write(alloc: Global, signature: &Signature) -> Result<Bytes, Refused<WriteRefusal>>
    ensures text { IfOk result (λ bytes. bytes ≡ signature_text signature.now) }
    ensures fits { OnOk result (first_long (sizes_of signature.now) ≡ None) }
    ensures too_long { (n : ℕ) → result ≡ Err (refused.Fault (refusals.TooLong n)) → first_long (sizes_of signature.now) ≡ Some n }
    ensures long { (n : ℕ) → first_long (sizes_of signature.now) ≡ Some n →
        (result ≡ Err (refused.Fault (refusals.TooLong n))) ⊎ (result ≡ Err refused.NoMemory) }
    ensures read_again { IfOk result (λ bytes. IsSignature bytes signature.now) }
{
    written_is_signature();
    written(alloc, signature)
}

#[tactic(auto, unfolding(crate::specs::Written::signature_text))]
fn written(alloc: Global, signature: &Signature) -> Result<Bytes, Refused<WriteRefusal>>
    ensures text { IfOk result (λ bytes. bytes ≡ signature_text signature.now) }
    ensures long { TellsLong (sizes_of signature.now) result }
    ensures kept { IfOk result (λ _. IsLimited signature.now) }
{
    let body = signature_body(alloc, signature)?;
    let mut writer = Writer::new(alloc);
    put_body(&mut writer, SIGNATURE, body.bytes())?;
    Ok(Bytes::from_vec(writer.into_vec()))
}

fn signature_body(alloc: Global, signature: &Signature) -> Result<Writer, Refused<WriteRefusal>>
    ensures text { IfOk result (λ body. body ≡ texts (signature_elements signature.now)) }
    ensures long { TellsLong (flat_map chain_sizes signature.now.chains ++ optional_sizes signature.now.publication) result }
    ensures kept { IfOk result (λ _. IsLimited signature.now) }
{
    let mut body = Writer::new(alloc);
    put_chains(&mut body, alloc, signature.chains.as_slice())?;
    put_calendar(&mut body, alloc, &signature.calendar)?;
    put_publication(&mut body, alloc, &signature.publication)?;
    Ok(body)
}

fn put_chains(
    writer: &mut Writer,
    alloc: Global,
    chains: &[AggregationChain],
) -> Result<(), Refused<WriteRefusal>>
    ensures text { OnOk result (writer.new ≡ writer.old ++ texts (map chain_element chains.now)) }
    ensures long { TellsLong (flat_map chain_sizes chains.now) result }
    ensures kept { OnOk result (AllByRecursion IsAggregation chains.now) }
{
    for chain in chains {
        put_chain(writer, alloc, chain)?;
    }
    Ok(())
}

fn put_chain(
    writer: &mut Writer,
    alloc: Global,
    chain: &AggregationChain,
) -> Result<(), Refused<WriteRefusal>>
    ensures text { OnOk result (writer.new ≡ writer.old ++ texts (chain_element chain.now ∷ [])) }
    ensures long { TellsLong (chain_sizes chain.now) result }
    ensures kept { OnOk result (IsAggregation chain.now) }
{
    let input_body = input_body_of(chain);
    let index = chain.index.as_slice();
    let links = chain.links.as_slice();
    let body = chain_body(alloc, chain.time, index, input_body, &chain.input, links)?;
    put_body(writer, CHAIN, body.bytes())
}

/// What was hashed into the input of a chain, where it is told.
fn input_body_of(chain: &AggregationChain) -> Option<&[u8]>
    ensures { option_map (λ content. content.now) result ≡ chain.now.input_body }
{
    match &chain.input_body {
        Some(bytes) => Some(bytes.as_slice()),
        None => None,
    }
}

fn put_calendar(
    writer: &mut Writer,
    alloc: Global,
    calendar: &Option<CalendarChain>,
) -> Result<(), NoMemory>
    ensures text { OnOk result (writer.new ≡ writer.old ++ texts (optional_element calendar_element calendar.now)) }
    ensures kept { OnOk result (IfSome calendar.now IsCalendar) }
{
    let Some(chain) = calendar else {
        return Ok(());
    };
    let links = chain.links.as_slice();
    let body = calendar_body(alloc, chain.publication, chain.time, &chain.input, links)?;
    put_short(writer, CALENDAR, body.bytes())
}

fn put_publication(
    writer: &mut Writer,
    alloc: Global,
    publication: &Option<PublicationRecord>,
) -> Result<(), Refused<WriteRefusal>>
    ensures text { OnOk result (writer.new ≡ writer.old ++ texts (optional_element publishing_element publication.now)) }
    ensures long { TellsLong (optional_sizes publication.now) result }
    ensures kept { OnOk result (IfSome publication.now IsPublishing) }
{
    match publication {
        Some(published) => put_published(writer, alloc, published),
        None => Ok(()),
    }
}

fn put_published(
    writer: &mut Writer,
    alloc: Global,
    published: &PublicationRecord,
) -> Result<(), Refused<WriteRefusal>>
    ensures text { OnOk result (writer.new ≡ writer.old ++ texts (publishing_element published.now ∷ [])) }
    ensures long { TellsLong (publishing_sizes published.now) result }
    ensures kept { OnOk result (IsPublishing published.now) }
{
    let body = publishing_body(alloc, published)?;
    put_body(writer, PUBLICATION, body.bytes())
}
