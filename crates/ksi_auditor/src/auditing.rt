ghost use Rattle.std.specs.Prelude.{◌≡◌, ◌<◌, ◌≤◌, ◌^◌, ℕ, Some, None, IfOk, IfSome, OnErr, length, map, option_map};
ghost use Rattle.ksi_aggtree.specs.Climbing.{level_after};
ghost use Rattle.ksi_aggtree.specs.Links.{highest_level};
ghost use Rattle.ksi_signature.specs.Seen.{seen};
ghost use Rattle.ksi_verifier.specs.Leading.{all_links};
ghost use Rattle.ksi_verifier.specs.Lent.{calendar_of};
ghost use Rattle.ksi_verifier.specs.declared.verdict.Verdict.TheVariants as verdicts;
ghost use Rattle.ksi_calendar.specs.Covered.{first_missing, covered_root};
ghost use Rattle.ksi_journal.specs.Journal.{IsJournal, root_at};
ghost use Rattle.ksi_auditor.specs.Audit.{accepted_or_not, audit, decided, kept_or_not, laid_beside};
ghost use Rattle.ksi_auditor.specs.Shown.{HasClash, IsShort, MissedIsClash, Shows};

use crate::answer::Audit;
use crate::laid::LaidChain;
use crate::laws::{audit_shows, low_levels, missed_seconds};
use crate::laying::lay_beside;
use crate::links::{are_links, are_owned_links, is_early};
use ksi_calendar::climb_calendar;
use ksi_calendar::laws::one_first_missing;
use ksi_imprint::{Compress, Imprint, NoMemory};
use ksi_journal::Journal;
use ksi_journal::laws::calendar_is_covered;
use ksi_publications::{Publications, Published};
use ksi_signature::{AggregationChain, ChainView, Signature, SignatureView};
use ksi_verifier::{
    CalendarPart, Refusal, Verdict, calendar_part, lent_calendar, verify, verify_lent,
};
use std::alloc::Global;

/// The place of a signature's hash in a journal.
///
/// The checks of the signature come first. Then come the checks that its publication time is not before the start, that
/// all seconds from the start to it are kept, and that the root that the signature leads to is the kept one. Then each
/// link's string, from the top, is compared with the one of the kept tree: the first that differs is a clash. If none
/// differs, the hash is a node of the tree of its second, or leads to one of its items. Only a clash allocates memory.
///
/// If a signature for a second before the start, or for a missed one, is accepted against a decided publication, the audit
/// returns a clash.
///
/// # Errors
/// `NoMemory` only if the answer would be a clash.
pub fn audit<C: Compress>(
    alloc: Global,
    journal: &Journal<C>,
    signature: &Signature,
    hash: &Imprint,
    publications: &Publications,
) -> Result<Audit, NoMemory>
    ensures answer { IfOk result (λ answer. answer ≡
        audit C.image journal.now signature.now hash.now publications.now) }
    ensures shown { IfOk result (Shows C.image journal.now signature.now hash.now) }
    ensures missed { IfOk result (MissedIsClash C.image journal.now signature.now hash.now publications.now) }
    ensures memory { OnErr result (HasClash (audit C.image journal.now signature.now hash.now publications.now)) }
    ensures short { IfOk result IsShort }
{
    audit_shows();
    missed_seconds();
    are_owned_links(signature.chains.as_slice());
    let _start = journal.start();
    let _bytes = hash.bytes();
    owned::<C>(alloc, journal, signature, hash, publications)
}

/// The same of a lent signature, by the same body.
///
/// # Errors
/// `NoMemory` only where the answer would be a clash.
pub fn audit_view<C: Compress>(
    alloc: Global,
    journal: &Journal<C>,
    signature: &SignatureView<'_>,
    hash: &Imprint,
    publications: &Publications,
) -> Result<Audit, NoMemory>
    ensures answer { IfOk result (λ answer. answer ≡
        audit C.image journal.now (seen signature.now) hash.now publications.now) }
    ensures shown { IfOk result (Shows C.image journal.now (seen signature.now) hash.now) }
    ensures missed { IfOk result (MissedIsClash C.image journal.now (seen signature.now) hash.now publications.now) }
    ensures memory { OnErr result (HasClash (audit C.image journal.now (seen signature.now) hash.now publications.now)) }
    ensures short { IfOk result IsShort }
{
    audit_lent::<C, Publications>(alloc, journal, signature, hash, publications)
}

/// The same, whoever owns the published roots.
///
/// # Errors
/// `NoMemory` only where the answer would be a clash.
pub fn audit_lent<C: Compress, P: Published>(
    alloc: Global,
    journal: &Journal<C>,
    signature: &SignatureView<'_>,
    hash: &Imprint,
    publications: &P,
) -> Result<Audit, NoMemory>
    ensures answer { IfOk result (λ answer. answer ≡
        audit C.image journal.now (seen signature.now) hash.now (P.pairs publications.now)) }
    ensures shown { IfOk result (Shows C.image journal.now (seen signature.now) hash.now) }
    ensures missed { IfOk result (MissedIsClash C.image journal.now (seen signature.now) hash.now (P.pairs publications.now)) }
    ensures memory { OnErr result (HasClash (audit C.image journal.now (seen signature.now) hash.now (P.pairs publications.now))) }
    ensures short { IfOk result IsShort }
{
    audit_shows();
    missed_seconds();
    are_links(signature.chains());
    let _start = journal.start();
    let _bytes = hash.bytes();
    lent::<C, P>(alloc, journal, signature, hash, publications)
}

#[tactic(auto, unfolding(crate::specs::Audit::audit))]
fn owned<C: Compress>(
    alloc: Global,
    journal: &Journal<C>,
    signature: &Signature,
    hash: &Imprint,
    publications: &Publications,
) -> Result<Audit, NoMemory>
    ensures answer { IfOk result (λ answer. answer ≡
        audit C.image journal.now signature.now hash.now publications.now) }
    ensures memory { OnErr result (HasClash (audit C.image journal.now signature.now hash.now publications.now)) }
    ensures short { IfOk result IsShort }
{
    low_levels();
    let verdict = verify::<C>(signature, hash, publications);
    let chains = signature.chains.as_slice();
    is_early(&signature.calendar);
    let calendar = calendar_part(&signature.calendar);
    of_verdict::<C, AggregationChain>(alloc, journal, chains, &calendar, hash, verdict)
}

#[tactic(auto, unfolding(crate::specs::Audit::audit))]
fn lent<C: Compress, P: Published>(
    alloc: Global,
    journal: &Journal<C>,
    signature: &SignatureView<'_>,
    hash: &Imprint,
    publications: &P,
) -> Result<Audit, NoMemory>
    ensures answer { IfOk result (λ answer. answer ≡
        audit C.image journal.now (seen signature.now) hash.now (P.pairs publications.now)) }
    ensures memory { OnErr result (HasClash (audit C.image journal.now (seen signature.now) hash.now (P.pairs publications.now))) }
    ensures short { IfOk result IsShort }
{
    low_levels();
    let verdict = verify_lent::<C, P>(signature, hash, publications);
    let chains = signature.chains();
    match signature.calendar() {
        None => of_verdict::<C, ChainView<'_>>(alloc, journal, chains, &None, hash, verdict),
        Some(calendar) => {
            let _below = calendar.publication();
            let links = calendar.links();
            let part = lent_calendar(&calendar, &links);
            of_verdict::<C, ChainView<'_>>(alloc, journal, chains, &Some(part), hash, verdict)
        }
    }
}

/// Of a verdict on a signature, and its chains, whoever owns them: the refusal, or the place of its hash.
fn of_verdict<C: Compress, T: LaidChain>(
    alloc: Global,
    journal: &Journal<C>,
    chains: &[T],
    calendar: &Option<CalendarPart<'_>>,
    hash: &Imprint,
    verdict: Verdict,
) -> Result<Audit, NoMemory>
    requires few { length chains.now ≤ 16 }
    requires levels { (t : ℕ) → verdict ≡ verdicts.Accepted t → level_after 0 (all_links (map T.plain chains.now)) ≤ highest_level }
    requires early { IfSome calendar.now (λ part. (calendar_of part).publication < 2 ^ 63) }
    ensures answer { IfOk result (λ answer. answer ≡
        accepted_or_not C.image journal.now (all_links (map T.plain chains.now)) (option_map calendar_of calendar.now) hash.now verdict) }
    ensures memory { OnErr result (HasClash
        (accepted_or_not C.image journal.now (all_links (map T.plain chains.now)) (option_map calendar_of calendar.now) hash.now verdict)) }
    ensures short { IfOk result IsShort }
{
    match verdict {
        Verdict::Refused(refusal) => Ok(Audit::NotAccepted(refusal)),
        Verdict::Accepted(second) => match calendar {
            None => Ok(Audit::NotAccepted(Refusal::NoCalendar)),
            Some(calendar) => decide::<C, T>(alloc, journal, chains, calendar, hash, second),
        },
    }
}

/// Of an accepted signature: whether its publication is decided, and then the place of its hash.
fn decide<C: Compress, T: LaidChain>(
    alloc: Global,
    journal: &Journal<C>,
    chains: &[T],
    calendar: &CalendarPart<'_>,
    hash: &Imprint,
    second: u64,
) -> Result<Audit, NoMemory>
    requires few { length chains.now ≤ 16 }
    requires levels { level_after 0 (all_links (map T.plain chains.now)) ≤ highest_level }
    requires early { (calendar_of calendar.now).publication < 2 ^ 63 }
    ensures answer { IfOk result (λ answer. answer ≡
        kept_or_not C.image journal.now (all_links (map T.plain chains.now)) hash.now second (Some (calendar_of calendar.now))) }
    ensures memory { OnErr result (HasClash
        (kept_or_not C.image journal.now (all_links (map T.plain chains.now)) hash.now second (Some (calendar_of calendar.now)))) }
    ensures short { IfOk result IsShort }
{
    let publication = calendar.publication;
    if publication < journal.start() {
        return Ok(Audit::BeforeStart(publication));
    }
    match journal.first_missing(publication) {
        Some(second) => Ok(Audit::Undecided(second)),
        None => compare_roots::<C, T>(alloc, journal, chains, calendar, hash, second),
    }
}

/// Of an accepted signature whose seconds are kept: whether it leads to the kept root, and then the place of its hash.
fn compare_roots<C: Compress, T: LaidChain>(
    alloc: Global,
    journal: &Journal<C>,
    chains: &[T],
    calendar: &CalendarPart<'_>,
    hash: &Imprint,
    second: u64,
) -> Result<Audit, NoMemory>
    requires few { length chains.now ≤ 16 }
    requires levels { level_after 0 (all_links (map T.plain chains.now)) ≤ highest_level }
    requires early { (calendar_of calendar.now).publication < 2 ^ 63 }
    requires from { journal.now.start ≤ (calendar_of calendar.now).publication }
    requires kept { first_missing (root_at journal.now) journal.now.start (calendar_of calendar.now).publication ≡ None }
    requires journal { IsJournal C.image journal.now }
    ensures answer { IfOk result (λ answer. answer ≡
        decided C.image journal.now (all_links (map T.plain chains.now)) hash.now second (calendar_of calendar.now) None) }
    ensures memory { OnErr result (HasClash
        (decided C.image journal.now (all_links (map T.plain chains.now)) hash.now second (calendar_of calendar.now) None)) }
    ensures short { IfOk result IsShort }
{
    let publication = calendar.publication;
    let given = climb_calendar::<C>(calendar.input, calendar.links);
    let kept = root_to(journal, publication);
    if given == kept {
        lay_journal::<C, T>(alloc, journal, chains, calendar, hash, second)
    } else {
        Ok(Audit::NotDecided(publication, given, kept))
    }
}

/// The kept root of the seconds from 0 to one that is covered.
fn root_to<C: Compress>(journal: &Journal<C>, last: u64) -> Imprint
    requires from { journal.now.start ≤ last }
    requires kept { first_missing (root_at journal.now) journal.now.start last ≡ None }
    requires journal { IsJournal C.image journal.now }
    ensures { result ≡ covered_root C.image (root_at journal.now) journal.now.start last }
{
    calendar_is_covered();
    one_first_missing();
    match journal.calendar().root_to(last) {
        Some(root) => root,
        None => Imprint::ZERO,
    }
}

/// Lays the links of an accepted signature, whose publication is decided, beside what a journal keeps.
fn lay_journal<C: Compress, T: LaidChain>(
    alloc: Global,
    journal: &Journal<C>,
    chains: &[T],
    calendar: &CalendarPart<'_>,
    hash: &Imprint,
    second: u64,
) -> Result<Audit, NoMemory>
    requires few { length chains.now ≤ 16 }
    requires levels { level_after 0 (all_links (map T.plain chains.now)) ≤ highest_level }
    requires early { (calendar_of calendar.now).publication < 2 ^ 63 }
    requires journal { IsJournal C.image journal.now }
    ensures audit { IfOk result (λ audit. audit ≡
        laid_beside C.image journal.now (all_links (map T.plain chains.now)) hash.now second (calendar_of calendar.now)) }
    ensures memory { OnErr result (HasClash
        (laid_beside C.image journal.now (all_links (map T.plain chains.now)) hash.now second (calendar_of calendar.now))) }
    ensures short { IfOk result IsShort }
{
    let items = journal.items(second);
    lay_beside::<C, T>(
        alloc,
        journal.calendar(),
        items,
        chains,
        calendar,
        hash,
        second,
    )
}
