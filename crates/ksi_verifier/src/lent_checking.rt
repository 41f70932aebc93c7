// The checks of a lent signature.
ghost use Rattle.std.specs.Prelude.{◌≡◌, ◌↔◌, ℕ, option_map};
ghost use Rattle.ksi_signature.specs.PartsSeen.{calendar_seen, record_seen};
ghost use Rattle.ksi_signature.specs.Seen.{seen};
ghost use Rattle.ksi_verifier.specs.declared.verdict.Verdict.TheVariants as verdicts;
ghost use Rattle.ksi_verifier.specs.Accepted.{IsAccepted};
ghost use Rattle.ksi_verifier.specs.ChainChecks.{aggregated};
ghost use Rattle.ksi_verifier.specs.Lent.{calendar_of, record_of};
ghost use Rattle.ksi_verifier.specs.Verdict.{signature_checked, verdict};

use crate::aggregated::Aggregated;
use crate::chains::check_chains;
use crate::checking::{check, verdict_of};
use crate::laws::accepted;
use crate::lent::{CalendarPart, RecordPart};
use crate::proved::Proved;
use crate::refusal::Refusal;
use crate::verdict::Verdict;
use ksi_imprint::{Compress, Imprint};
use ksi_publications::{Publications, Published};
use ksi_signature::{CalendarLinkViews, CalendarView, ChainView, RecordView, SignatureView};

/// What the aggregation chains of a lent signature come to.
///
/// # Errors
/// The first of the checks V2 to V6 and V15 that fails.
pub fn aggregate_view<C: Compress>(signature: &SignatureView<'_>) -> Result<Aggregated, Refusal>
    ensures { result ≡ aggregated C.image (seen signature.now) }
{
    check_chains::<C, ChainView<'_>>(signature.chains())
}

/// Checks a lent signature for a hash against the published roots of the calendar, as [`verify`](crate::verify) does an
/// owned one.
pub fn verify_view<C: Compress>(
    signature: &SignatureView<'_>,
    hash: &Imprint,
    publications: &Publications,
) -> Verdict
    ensures first { result ≡ verdict C.image (seen signature.now) hash.now publications.now }
    ensures accepted { (t : ℕ) → (result ≡ verdicts.Accepted t) ↔ IsAccepted C.image (seen signature.now) hash.now publications.now t }
{
    verify_lent::<C, Publications>(signature, hash, publications)
}

/// The same, whoever owns the published roots.
pub fn verify_lent<C: Compress, P: Published>(
    signature: &SignatureView<'_>,
    hash: &Imprint,
    publications: &P,
) -> Verdict
    ensures first { result ≡ verdict C.image (seen signature.now) hash.now (P.pairs publications.now) }
    ensures accepted { (t : ℕ) → (result ≡ verdicts.Accepted t) ↔ IsAccepted C.image (seen signature.now) hash.now (P.pairs publications.now) t }
{
    accepted();
    lent_verdict::<C, P>(signature, hash, publications)
}

#[tactic(auto, unfolding(crate::specs::Verdict::verdict))]
fn lent_verdict<C: Compress, P: Published>(
    signature: &SignatureView<'_>,
    hash: &Imprint,
    publications: &P,
) -> Verdict
    ensures { result ≡ verdict C.image (seen signature.now) hash.now (P.pairs publications.now) }
{
    verdict_of(check_lent::<C, P>(signature, hash, publications))
}

pub(crate) fn check_lent<C: Compress, P: Published>(
    signature: &SignatureView<'_>,
    hash: &Imprint,
    publications: &P,
) -> Result<Proved, Refusal>
    ensures { result ≡ signature_checked C.image (seen signature.now) hash.now (P.pairs publications.now) }
{
    let chains = signature.chains();
    let calendar = signature.calendar();
    let record = lent_record(&signature.publication());
    check::<C, ChainView<'_>, CalendarView<'_>, P>(chains, &calendar, &record, hash, publications)
}

/// The parts of a lent calendar chain, with its links.
pub fn lent_calendar<'a>(
    calendar: &CalendarView<'_>,
    links: &'a CalendarLinkViews,
) -> CalendarPart<'a>
    requires { links.now ≡ (calendar_seen calendar.now).links }
    ensures { calendar_of result ≡ calendar_seen calendar.now }
{
    CalendarPart {
        publication: calendar.publication(),
        time: calendar.time(),
        input: calendar.input(),
        links: links.as_slice(),
    }
}

/// What a lent publication record states.
fn lent_record(published: &Option<RecordView<'_>>) -> Option<RecordPart>
    ensures { result ≡ option_map record_of (option_map record_seen published.now) }
{
    match published {
        None => None,
        Some(published) => Some(RecordPart {
            time: published.time(),
            hash: published.hash(),
        }),
    }
}
