ghost use Rattle.std.specs.Prelude.{◌≡◌, [], ◌<◌, ◌≤◌, ◌+◌, ◌^◌, Ok, Err, IfOk};
ghost use Rattle.ksi_imprint.specs.Refused.{OrNoMemory};
ghost use Rattle.ksi_imprint.specs.declared.refused.Refused.TheVariants as refused;
ghost use Rattle.ksi_tlv.specs.Spelling.{AreBytes};
ghost use Rattle.ksi_calendar.specs.Covered.{IsCovered, second_leaf};
ghost use Rattle.ksi_journal.specs.Journal.{IsJournal, root_at};
ghost use Rattle.ksi_signature.specs.File.{IsSignature};
ghost use Rattle.ksi_signature.specs.Extended.{renewed};
ghost use Rattle.ksi_signature.specs.Seen.{seen, bytes_seen};
ghost use Rattle.ksi_extender.specs.Extended.{chains_in, kept_to, chain_to, record_to, fitting, extended, IsKeptTo, too_large};
ghost use Rattle.ksi_extender.specs.Accepted.{IsExtended, extended_signature};

use crate::laws::extended_is_accepted;
use crate::refusal::ExtendRefusal;
use ksi_calendar::laws::{one_climb, one_first_missing};
use ksi_calendar::{Steps, climb_calendar};
use ksi_imprint::{Bytes, Compress, Imprint, NoMemory, Refused};
use ksi_journal::Journal;
use ksi_journal::laws::{are_bytes, calendar_is_covered};
use ksi_signature::laws::{shown_is_of_bytes, signature_is_read};
use ksi_signature::{
    Bodies, CalendarChain, CalendarLinks, PublicationRecord, SignatureView, WriteRefusal, view,
};
use ksi_verifier::laws::aggregation;
use ksi_verifier::{Aggregated, Refusal, aggregate_view};
use std::alloc::Global;
use std::marker::Brand;
use std::sync::ledger::{Blank, Ledger};

/// The bytes of a signature extended to second `p`: its aggregation chains and the unknown elements that are to be
/// copied, byte for byte and in their order, with the calendar chain from the root that they lead to up to the root of
/// the seconds from 0 to `p`, and the record of that root. The old calendar chain and record only have to be in their
/// grammar.
///
/// # Errors
/// The first of these that applies: the bytes are no signature; V2 to V6, then V15; the chains lead to the zero imprint
/// (V9); their time is before the journal's start, or after `p`; a second from the start to `p` is not kept; the root
/// that is kept for their time differs from the one that they lead to; the new content has more than 65,535 bytes.
/// `NoMemory` may occur only after all of these but the last were checked.
pub fn extend<C: Compress>(
    alloc: Global,
    journal: &Journal<C>,
    bytes: &[u8],
    p: u64,
) -> Result<Bytes, Refused<ExtendRefusal>>
    requires { p < 2 ^ 63 }
    ensures answer { OrNoMemory (extended C.image journal.now bytes.now p) result }
    ensures accepted { IfOk result (IsExtended C.image journal.now bytes.now p) }
    ensures bytes { IfOk result AreBytes }
    ensures wanting { result ≡ Err refused.NoMemory → IsKeptTo C.image journal.now bytes.now p }
{
    signature_is_read();
    match view(bytes) {
        Ok(signature) => extend_view(alloc, journal, &signature, p),
        Err(fault) => Err(Refused::Fault(ExtendRefusal::Malformed(fault))),
    }
}

/// The same of a signature that is lent from its bytes.
///
/// # Errors
/// As `extend`, but that the bytes are a signature.
pub fn extend_view<C: Compress>(
    alloc: Global,
    journal: &Journal<C>,
    signature: &SignatureView<'_>,
    p: u64,
) -> Result<Bytes, Refused<ExtendRefusal>>
    requires { p < 2 ^ 63 }
    ensures answer { OrNoMemory (extended C.image journal.now (bytes_seen signature.now) p) result }
    ensures accepted { IfOk result (IsExtended C.image journal.now (bytes_seen signature.now) p) }
    ensures bytes { IfOk result AreBytes }
    ensures wanting { result ≡ Err refused.NoMemory → IsKeptTo C.image journal.now (bytes_seen signature.now) p }
{
    extend_from::<C, Brand>(alloc, journal, signature, p, Blank::new(1))
}

fn extend_from<C: Compress, L: Ledger>(
    alloc: Global,
    journal: &Journal<C>,
    signature: &SignatureView<'_>,
    p: u64,
    blank: Blank,
) -> Result<Bytes, Refused<ExtendRefusal>>
    requires name { blank.name ≡ L.name }
    requires parts { blank.parts ≡ L.parts }
    requires one { blank.parts ≡ 1 }
    requires early { p < 2 ^ 63 }
    ensures answer { OrNoMemory (extended C.image journal.now (bytes_seen signature.now) p) result }
    ensures accepted { IfOk result (IsExtended C.image journal.now (bytes_seen signature.now) p) }
    ensures bytes { IfOk result AreBytes }
    ensures wanting { result ≡ Err refused.NoMemory → IsKeptTo C.image journal.now (bytes_seen signature.now) p }
{
    let mut steps = Steps::<L>::open(blank);
    counted(alloc, journal, signature, p, &mut steps)
}

/// The same as `extend`, with its steps: one for the search of the kept root, which the journal counts, and at most 126
/// for stored nodes of the calendar.
///
/// # Errors
/// As `extend`.
pub fn extend_counted<C: Compress, L: Ledger>(
    alloc: Global,
    journal: &Journal<C>,
    bytes: &[u8],
    p: u64,
    steps: &mut Steps<L>,
) -> Result<Bytes, Refused<ExtendRefusal>>
    requires { p < 2 ^ 63 }
    ensures answer { OrNoMemory (extended C.image journal.now bytes.now p) result }
    ensures accepted { IfOk result (IsExtended C.image journal.now bytes.now p) }
    ensures bytes { IfOk result AreBytes }
    ensures wanting { result ≡ Err refused.NoMemory → IsKeptTo C.image journal.now bytes.now p }
    ensures most { steps.new ≤ steps.old + 127 }
    ensures least { IfOk result (λ _. steps.old < steps.new) }
{
    signature_is_read();
    match view(bytes) {
        Ok(signature) => counted(alloc, journal, &signature, p, steps),
        Err(fault) => Err(Refused::Fault(ExtendRefusal::Malformed(fault))),
    }
}

/// The same of a lent signature.
fn counted<C: Compress, L: Ledger>(
    alloc: Global,
    journal: &Journal<C>,
    signature: &SignatureView<'_>,
    p: u64,
    steps: &mut Steps<L>,
) -> Result<Bytes, Refused<ExtendRefusal>>
    requires { p < 2 ^ 63 }
    ensures answer { OrNoMemory (extended C.image journal.now (bytes_seen signature.now) p) result }
    ensures accepted { IfOk result (IsExtended C.image journal.now (bytes_seen signature.now) p) }
    ensures bytes { IfOk result AreBytes }
    ensures wanting { result ≡ Err refused.NoMemory → IsKeptTo C.image journal.now (bytes_seen signature.now) p }
    ensures most { steps.new ≤ steps.old + 127 }
    ensures least { IfOk result (λ _. steps.old < steps.new) }
{
    extended_is_accepted();
    shown_is_of_bytes(signature);
    extended_bytes(alloc, journal, signature, p, steps)
}

/// What is extended, and what it is read as.
fn extended_bytes<C: Compress, L: Ledger>(
    alloc: Global,
    journal: &Journal<C>,
    signature: &SignatureView<'_>,
    p: u64,
    steps: &mut Steps<L>,
) -> Result<Bytes, Refused<ExtendRefusal>>
    requires { p < 2 ^ 63 }
    ensures answer { OrNoMemory (extended C.image journal.now (bytes_seen signature.now) p) result }
    ensures again { IfOk result (λ text. IsSignature text (extended_signature C.image journal.now (seen signature.now) p)) }
    ensures bytes { IfOk result AreBytes }
    ensures wanting { result ≡ Err refused.NoMemory → IsKeptTo C.image journal.now (bytes_seen signature.now) p }
    ensures most { steps.new ≤ steps.old + 127 }
    ensures least { IfOk result (λ _. steps.old < steps.new) }
{
    match chains_in::<C>(signature) {
        Ok(chains) => over_journal(alloc, journal, signature, &chains, p, steps),
        Err(refusal) => Err(Refused::Fault(refusal)),
    }
}

/// What is extended of a signature whose chains come to these. Memory is wanting only where all is kept.
fn over_journal<C: Compress, L: Ledger>(
    alloc: Global,
    journal: &Journal<C>,
    signature: &SignatureView<'_>,
    chains: &Aggregated,
    p: u64,
    steps: &mut Steps<L>,
) -> Result<Bytes, Refused<ExtendRefusal>>
    requires early { p < 2 ^ 63 }
    requires chains { chains_in C.image (bytes_seen signature.now) ≡ Ok chains.now }
    ensures answer { OrNoMemory (extended C.image journal.now (bytes_seen signature.now) p) result }
    ensures again { IfOk result (λ text. IsSignature text (extended_signature C.image journal.now (seen signature.now) p)) }
    ensures bytes { IfOk result AreBytes }
    ensures wanting { result ≡ Err refused.NoMemory → kept_to journal.now chains.now p ≡ Ok tt }
    ensures most { steps.new ≤ steps.old + 127 }
    ensures least { IfOk result (λ _. steps.old < steps.new) }
{
    aggregation();
    one_first_missing();
    shown_is_of_bytes(signature);
    let _start = journal.start();
    if let Err(refusal) = check_kept(journal, chains, p, steps) {
        return Err(Refused::Fault(refusal));
    }
    let (chain, published) = proof_to(alloc, journal, chains, p, steps)?;
    renewed_with(alloc, signature, &chain, &published)
}

/// What the aggregation chains of a signature come to. No memory is taken.
fn chains_in<C: Compress>(signature: &SignatureView<'_>) -> Result<Aggregated, ExtendRefusal>
    ensures { result ≡ chains_in C.image (bytes_seen signature.now) }
{
    shown_is_of_bytes(signature);
    match aggregate_view::<C>(signature) {
        Ok(chains) => Ok(chains),
        Err(refusal) => Err(ExtendRefusal::Refused(refusal)),
    }
}

/// V9, E4, E3, E2 and E1.
fn check_kept<C: Compress, L: Ledger>(
    journal: &Journal<C>,
    chains: &Aggregated,
    p: u64,
    steps: &mut Steps<L>,
) -> Result<(), ExtendRefusal>
    ensures kept { result ≡ kept_to journal.now chains.now p }
    ensures most { steps.new ≤ steps.old + 1 }
    ensures least { IfOk result (λ _. steps.old < steps.new) }
{
    let given = chains.node.imprint;
    let second = chains.time;
    if given == Imprint::ZERO {
        return Err(ExtendRefusal::Refused(Refusal::MissedSecond));
    }
    if second < journal.start() {
        return Err(ExtendRefusal::BeforeStart(second));
    }
    if p < second {
        return Err(ExtendRefusal::TooEarly {
            second,
            publication: p,
        });
    }
    if let Some(missing) = journal.first_missing(p) {
        return Err(ExtendRefusal::Undecided(missing));
    }
    let kept = match journal.root_counted(second, steps) {
        Some(root) => root,
        None => Imprint::ZERO,
    };
    if kept != given {
        return Err(ExtendRefusal::RootDiffers {
            second,
            kept,
            given,
        });
    }
    Ok(())
}

/// The calendar chain from the root that the chains lead to, up to the root of the seconds from 0 to `p`, and the
/// record of that root.
fn proof_to<C: Compress, L: Ledger>(
    alloc: Global,
    journal: &Journal<C>,
    chains: &Aggregated,
    p: u64,
    steps: &mut Steps<L>,
) -> Result<(CalendarChain, PublicationRecord), NoMemory>
    requires below { p < 2 ^ 63 }
    requires to { chains.now.time ≤ p }
    requires journal { IsJournal C.image journal.now }
    requires covered { IsCovered (root_at journal.now) journal.now.start p }
    requires root { second_leaf (root_at journal.now) journal.now.start chains.now.time ≡ chains.now.node.imprint }
    ensures chain { IfOk result (λ proof. proof.0 ≡ chain_to C.image journal.now chains.now.time p) }
    ensures published { IfOk result (λ proof. proof.1 ≡ record_to C.image journal.now p) }
    ensures most { steps.new ≤ steps.old + 126 }
    ensures least { IfOk result (λ _. steps.old ≤ steps.new) }
{
    calendar_is_covered();
    one_climb();
    let input = chains.node.imprint;
    let links = journal.calendar().chain_to_counted(chains.time, p, steps)?;
    let root = climb_calendar::<C>(input, links.as_slice());
    let chain = CalendarChain {
        publication: p,
        time: chains.time,
        input,
        links: CalendarLinks::from_vec(links.into_vec()),
    };
    Ok((chain, record(alloc, p, root)))
}

/// The record of a root, which names no place where it was published.
fn record(alloc: Global, time: u64, hash: Imprint) -> PublicationRecord
    requires { time < 2 ^ 63 }
    ensures { result ≡ record { time = time; hash = hash; references = []; repositories = [] } }
{
    PublicationRecord {
        time,
        hash,
        references: Bodies::from_vec(Vec::new(alloc)),
        repositories: Bodies::from_vec(Vec::new(alloc)),
    }
}

/// The bytes of a signature with this chain and this record.
fn renewed_with(
    alloc: Global,
    signature: &SignatureView<'_>,
    chain: &CalendarChain,
    published: &PublicationRecord,
) -> Result<Bytes, Refused<ExtendRefusal>>
    ensures answer { OrNoMemory (fitting (bytes_seen signature.now) chain.now published.now) result }
    ensures again { IfOk result (λ text. IsSignature text (renewed (seen signature.now) chain.now published.now)) }
    ensures bytes { IfOk result AreBytes }
{
    match signature.with_calendar(alloc, chain, published) {
        Ok(text) => {
            are_bytes(text.as_slice());
            Ok(text)
        }
        Err(Refused::Fault(refusal)) => Err(Refused::Fault(too_large(refusal))),
        Err(Refused::NoMemory) => Err(Refused::NoMemory),
    }
}

/// The refusal where the new content is too long.
fn too_large(refusal: WriteRefusal) -> ExtendRefusal
    ensures { result ≡ too_large refusal }
{
    match refusal {
        WriteRefusal::TooLong(size) => ExtendRefusal::TooLarge(size),
    }
}
