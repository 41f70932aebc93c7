ghost use Rattle.std.specs.Prelude.{◌≡◌, ◌↔◌, ◌<◌, ℕ, length, map, option_map};
ghost use Rattle.ksi_verifier.specs.declared.verdict.Verdict.TheVariants as verdicts;
ghost use Rattle.ksi_verifier.specs.Accepted.{IsAccepted};
ghost use Rattle.ksi_verifier.specs.Verdict.{calendar_checked, checked, or_refused, verdict};

use crate::aggregated::Aggregated;
use crate::any_calendar::AnyCalendar;
use crate::any_chain::AnyChain;
use crate::calendar::{check_calendar, check_second};
use crate::chains::check_chains;
use crate::laws::accepted;
use crate::lent::{CalendarPart, RecordPart};
use crate::owned::{calendar_part, record_part};
use crate::proved::Proved;
use crate::publication::check_published;
use crate::refusal::Refusal;
use crate::verdict::Verdict;
use ksi_imprint::{Compress, Imprint};
use ksi_publications::{Publications, Published};
use ksi_signature::{AggregationChain, Signature};

/// Checks a signature for a hash against the published roots of the calendar: the first that fails of V1 to V6, V15, V7 to
/// V14, in this order, or the second that the sides of the calendar chain name.
pub fn verify<C: Compress>(
    signature: &Signature,
    hash: &Imprint,
    publications: &Publications,
) -> Verdict
    ensures first { result ≡ verdict C.image signature.now hash.now publications.now }
    ensures accepted { (t : ℕ) → (result ≡ verdicts.Accepted t) ↔ IsAccepted C.image signature.now hash.now publications.now t }
{
    accepted();
    verdict::<C>(signature, hash, publications)
}

#[tactic(auto, unfolding(crate::specs::Verdict::verdict))]
fn verdict<C: Compress>(
    signature: &Signature,
    hash: &Imprint,
    publications: &Publications,
) -> Verdict
    ensures { result ≡ verdict C.image signature.now hash.now publications.now }
{
    let chains = signature.chains.as_slice();
    let calendar = calendar_part(&signature.calendar);
    let record = record_part(&signature.publication);
    verdict_of(check::<C, AggregationChain, CalendarPart<'_>, Publications>(
        chains,
        &calendar,
        &record,
        hash,
        publications,
    ))
}

pub(crate) fn verdict_of(checked: Result<Proved, Refusal>) -> Verdict
    ensures { result ≡ or_refused checked }
{
    match checked {
        Ok(proved) => Verdict::Accepted(proved.second),
        Err(refusal) => Verdict::Refused(refusal),
    }
}

/// The checks V1 to V15, V15 behind V6, whoever owns the parts.
pub(crate) fn check<C: Compress, T: AnyChain, K: AnyCalendar, P: Published>(
    chains: &[T],
    calendar: &Option<K>,
    published: &Option<RecordPart>,
    hash: &Imprint,
    publications: &P,
) -> Result<Proved, Refusal>
    requires { 0 < length chains.now }
    ensures { result ≡ checked C.image (map T.plain chains.now) (option_map K.plain calendar.now) published.now hash.now (P.pairs publications.now) }
{
    let input = chains[0].input();
    if input != *hash {
        return Err(Refusal::WrongHash {
            in_signature: input,
            given: *hash,
        });
    }
    let aggregated = match check_chains::<C, T>(chains) {
        Ok(aggregated) => aggregated,
        Err(refusal) => return Err(refusal),
    };
    match calendar {
        Some(calendar) => check_above::<C, K, P>(&aggregated, calendar, published, publications),
        None => Err(Refusal::NoCalendar),
    }
}

/// The checks V8 to V14, where the chains come to a node.
fn check_above<C: Compress, K: AnyCalendar, P: Published>(
    aggregated: &Aggregated,
    calendar: &K,
    published: &Option<RecordPart>,
    publications: &P,
) -> Result<Proved, Refusal>
    ensures { result ≡ calendar_checked C.image aggregated.now (K.plain calendar.now) published.now (P.pairs publications.now) }
{
    let second = match check_calendar(&aggregated.node, calendar) {
        Ok(second) => second,
        Err(refusal) => return Err(refusal),
    };
    if let Err(refusal) = check_second(calendar.time(), aggregated.time, second) {
        return Err(refusal);
    }
    let root = calendar.climb::<C>();
    let publication = calendar.publication();
    match check_published(published, publications, publication, root) {
        Ok(()) => Ok(Proved {
            second,
            publication,
            root,
        }),
        Err(refusal) => Err(refusal),
    }
}
