ghost use Rattle.std.specs.Prelude.{◌≡◌, [], ◌<◌, ◌≤◌, ◌^◌, IsTrue, Ok, IfOk};
ghost use Rattle.ksi_imprint.specs.Refused.{OrNoMemory};
ghost use Rattle.ksi_calendar.specs.Calendar.{is_covered};
ghost use Rattle.ksi_calendar.specs.Covered.{second_leaf};
ghost use Rattle.ksi_journal.specs.Journal.{root_at};
ghost use Rattle.ksi_signature.specs.Seen.{bytes_seen};
ghost use Rattle.ksi_extender.specs.Extended.{chain_to, chains_in, extended, fitting, record_to, too_large};
ghost use Rattle.ksi_calendar_extender.specs.Kept.{journal_of};

use crate::kept::check_kept;
use crate::laws::one_journal;
use ksi_calendar::laws::one_climb;
use ksi_calendar::{Calendar, climb_calendar};
use ksi_extender::ExtendRefusal;
use ksi_imprint::{Bytes, Compress, Imprint, NoMemory, Refused};
use ksi_signature::laws::{shown_is_of_bytes, signature_is_read};
use ksi_signature::{
    Bodies, CalendarChain, CalendarLinks, PublicationRecord, SignatureView, WriteRefusal, view,
};
use ksi_verifier::{Aggregated, aggregate_view};
use std::alloc::Global;

/// The bytes of a signature extended to second `p`, which the calendar covers.
///
/// # Errors
/// As `extend` of `ksi_extender` over a journal that keeps the calendar's roots; so never `Undecided`.
pub fn extend<C: Compress>(
    alloc: Global,
    calendar: &Calendar<C>,
    bytes: &[u8],
    p: u64,
) -> Result<Bytes, Refused<ExtendRefusal>>
    requires early { p < 2 ^ 63 }
    requires covered { IsTrue (is_covered calendar.now p) }
    ensures { OrNoMemory (extended C.image (journal_of calendar.now) bytes.now p) result }
{
    signature_is_read();
    match view(bytes) {
        Ok(signature) => extend_view(alloc, calendar, &signature, p),
        Err(fault) => Err(Refused::Fault(ExtendRefusal::Malformed(fault))),
    }
}

/// The same of a signature that is borrowed from its bytes.
fn extend_view<C: Compress>(
    alloc: Global,
    calendar: &Calendar<C>,
    signature: &SignatureView<'_>,
    p: u64,
) -> Result<Bytes, Refused<ExtendRefusal>>
    requires early { p < 2 ^ 63 }
    requires covered { IsTrue (is_covered calendar.now p) }
    ensures { OrNoMemory (extended C.image (journal_of calendar.now) (bytes_seen signature.now) p) result }
{
    match chains_in::<C>(signature) {
        Ok(chains) => extend_chains(alloc, calendar, signature, &chains, p),
        Err(refusal) => Err(Refused::Fault(refusal)),
    }
}

/// The same of a signature whose chains lead to this node.
fn extend_chains<C: Compress>(
    alloc: Global,
    calendar: &Calendar<C>,
    signature: &SignatureView<'_>,
    chains: &Aggregated,
    p: u64,
) -> Result<Bytes, Refused<ExtendRefusal>>
    requires early { p < 2 ^ 63 }
    requires covered { IsTrue (is_covered calendar.now p) }
    requires chains { chains_in C.image (bytes_seen signature.now) ≡ Ok chains.now }
    ensures { OrNoMemory (extended C.image (journal_of calendar.now) (bytes_seen signature.now) p) result }
{
    if let Err(refusal) = check_kept(calendar, chains, p) {
        return Err(Refused::Fault(refusal));
    }
    let (chain, published) = proof_to(alloc, calendar, chains, p)?;
    renewed_with(alloc, signature, &chain, &published)
}

/// The node that the aggregation chains of a signature lead to, and their time.
fn chains_in<C: Compress>(signature: &SignatureView<'_>) -> Result<Aggregated, ExtendRefusal>
    ensures { result ≡ chains_in C.image (bytes_seen signature.now) }
{
    shown_is_of_bytes(signature);
    match aggregate_view::<C>(signature) {
        Ok(chains) => Ok(chains),
        Err(refusal) => Err(ExtendRefusal::Refused(refusal)),
    }
}

/// The calendar chain from the chains' node to the root of the seconds from 0 to `p`, and the record of that root.
fn proof_to<C: Compress>(
    alloc: Global,
    calendar: &Calendar<C>,
    chains: &Aggregated,
    p: u64,
) -> Result<(CalendarChain, PublicationRecord), NoMemory>
    requires early { p < 2 ^ 63 }
    requires to { chains.now.time ≤ p }
    requires covered { IsTrue (is_covered calendar.now p) }
    requires root { second_leaf (root_at (journal_of calendar.now)) calendar.now.start chains.now.time ≡ chains.now.node.imprint }
    ensures chain { IfOk result (λ proof. proof.0 ≡ chain_to C.image (journal_of calendar.now) chains.now.time p) }
    ensures published { IfOk result (λ proof. proof.1 ≡ record_to C.image (journal_of calendar.now) p) }
{
    one_journal();
    one_climb();
    let input = chains.node.imprint;
    let links = calendar.chain_to(chains.time, p)?;
    let root = climb_calendar::<C>(input, links.as_slice());
    let chain = CalendarChain {
        publication: p,
        time: chains.time,
        input,
        links: CalendarLinks::from_vec(links.into_vec()),
    };
    Ok((chain, record(alloc, p, root)))
}

/// The record of a root, without references.
fn record(alloc: Global, time: u64, hash: Imprint) -> PublicationRecord
    requires { time < 2 ^ 63 }
    ensures { result ≡ record { time = time; hash = hash; references = []; repositories = [] } }
{
    PublicationRecord {
        time,
        hash,
        references: Bodies::from_vec(Vec::new(alloc)),
        repositories: Bodies::from_vec(Vec::new(alloc)),
    }
}

/// The bytes of a signature with this chain and this record.
fn renewed_with(
    alloc: Global,
    signature: &SignatureView<'_>,
    chain: &CalendarChain,
    published: &PublicationRecord,
) -> Result<Bytes, Refused<ExtendRefusal>>
    ensures { OrNoMemory (fitting (bytes_seen signature.now) chain.now published.now) result }
{
    match signature.with_calendar(alloc, chain, published) {
        Ok(text) => Ok(text),
        Err(Refused::Fault(refusal)) => Err(Refused::Fault(too_large(refusal))),
        Err(Refused::NoMemory) => Err(Refused::NoMemory),
    }
}

/// The refusal if the new content is too long.
fn too_large(refusal: WriteRefusal) -> ExtendRefusal
    ensures { result ≡ too_large refusal }
{
    match refusal {
        WriteRefusal::TooLong(size) => ExtendRefusal::TooLarge(size),
    }
}
