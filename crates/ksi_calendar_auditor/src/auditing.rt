ghost use Rattle.std.specs.List.{AllByRecursion};
ghost use Rattle.std.specs.Prelude.{◌≡◌, ◌<◌, ◌^◌, ℕ, Some, Ok, IsTrue, IfOk};
ghost use Rattle.ksi_imprint.specs.Imprints.{IsImprint, zero_imprint};
ghost use Rattle.ksi_imprint.specs.Refused.{OrNoMemory};
ghost use Rattle.ksi_calendar.specs.Calendar.{calendar_leaf, calendar_root, is_covered};
ghost use Rattle.ksi_signature.specs.Seen.{seen};
ghost use Rattle.ksi_verifier.specs.Verdict.{verdict};
ghost use Rattle.ksi_verifier.specs.declared.verdict.Verdict.TheVariants as verdicts;
ghost use Rattle.ksi_journal.specs.Journal.{root_at};
ghost use Rattle.ksi_auditor.specs.Shown.{HasClash, IsShort, Shows, Tells};
ghost use Rattle.ksi_calendar_auditor.specs.Audited.{audit_with, audited, published, same_root, then_audit};

use crate::laws::audit_is_laid;
use crate::publication::Publication;
use crate::refusal::AuditRefusal;
use ksi_auditor::laws::{decided_is_laid, kept_items, laid_shows, low_levels};
use ksi_auditor::{Audit, has_links, lay_view};
use ksi_calendar::Calendar;
use ksi_calendar_extender::leaf;
use ksi_imprint::{Compress, Imprint, NoMemory, Refused};
use ksi_journal::Journal;
use ksi_signature::SignatureView;
use ksi_verifier::{Verdict, verify_lent};
use std::alloc::Global;

/// The place of a signature's hash among the items that a journal keeps for a second, or why these are not the items of the
/// signature's second. The signature is checked against the calendar's root of `p`, which the calendar covers.
///
/// # Errors
/// The first of these, for an accepted signature: it is of another second; the journal does not keep the second; the journal's
/// root of the second is not the calendar's. `NoMemory` if memory runs out.
pub fn audit<C: Compress>(
    alloc: Global,
    calendar: &Calendar<C>,
    p: u64,
    second: u64,
    items: &Journal<C>,
    signature: &SignatureView<'_>,
    hash: &Imprint,
) -> Result<Audit, Refused<AuditRefusal>>
    requires early { p < 2 ^ 63 }
    requires covered { IsTrue (is_covered calendar.now p) }
    requires imprints { AllByRecursion IsImprint calendar.now.roots }
    ensures answer { OrNoMemory (audited C.image calendar.now p second items.now (seen signature.now) hash.now) result }
    ensures shown { IfOk result (Shows C.image items.now (seen signature.now) hash.now) }
    ensures tells { (t : ℕ) → verdict C.image (seen signature.now) hash.now (published C.image calendar.now p) ≡ verdicts.Accepted t →
        IfOk result Tells }
    ensures missed { (t : ℕ) → verdict C.image (seen signature.now) hash.now (published C.image calendar.now p) ≡ verdicts.Accepted t →
        calendar_leaf calendar.now second ≡ zero_imprint → IfOk result HasClash }
    ensures short { IfOk result IsShort }
{
    match verify_at(calendar, p, signature, hash) {
        Verdict::Refused(refusal) => Ok(Audit::NotAccepted(refusal)),
        Verdict::Accepted(time) => {
            if time != second {
                return Err(Refused::Fault(AuditRefusal::OtherSecond(time)));
            }
            audit_accepted(alloc, calendar, p, second, items, signature, hash)
        }
    }
}

/// The verdict on a signature, with the calendar's root of a covered second as the only publication.
fn verify_at<C: Compress>(
    calendar: &Calendar<C>,
    p: u64,
    signature: &SignatureView<'_>,
    hash: &Imprint,
) -> Verdict
    requires { IsTrue (is_covered calendar.now p) }
    ensures { result ≡ verdict C.image (seen signature.now) hash.now (published C.image calendar.now p) }
{
    let publication = Publication {
        time: p,
        root: root_of(calendar, p),
    };
    verify_lent::<C, Publication>(signature, hash, &publication)
}

/// The calendar's root of a covered second.
fn root_of<C: Compress>(calendar: &Calendar<C>, p: u64) -> Imprint
    requires { IsTrue (is_covered calendar.now p) }
    ensures { result ≡ calendar_root C.image calendar.now p }
{
    match calendar.root_to(p) {
        Some(root) => root,
        None => unreachable!(),
    }
}

/// The same of a signature that is accepted for this second.
fn audit_accepted<C: Compress>(
    alloc: Global,
    calendar: &Calendar<C>,
    p: u64,
    second: u64,
    items: &Journal<C>,
    signature: &SignatureView<'_>,
    hash: &Imprint,
) -> Result<Audit, Refused<AuditRefusal>>
    requires early { p < 2 ^ 63 }
    requires covered { IsTrue (is_covered calendar.now p) }
    requires imprints { AllByRecursion IsImprint calendar.now.roots }
    requires passes { verdict C.image (seen signature.now) hash.now (published C.image calendar.now p) ≡ verdicts.Accepted second }
    ensures answer { OrNoMemory (then_audit (same_root second (calendar_leaf calendar.now second) (root_at items.now second))
        (audit_with C.image calendar.now p items.now (seen signature.now) hash.now)) result }
    ensures shown { IfOk result (Shows C.image items.now (seen signature.now) hash.now) }
    ensures tells { IfOk result Tells }
    ensures missed { calendar_leaf calendar.now second ≡ zero_imprint → IfOk result HasClash }
    ensures short { IfOk result IsShort }
{
    audit_is_laid();
    let root = leaf(calendar, p, second);
    match items.root(second) {
        None => Err(Refused::Fault(AuditRefusal::NoItems(second))),
        Some(given) => {
            if root != given {
                return Err(Refused::Fault(AuditRefusal::OtherItems {
                    second,
                    root,
                    given,
                }));
            }
            let answer = lay(alloc, calendar, p, second, items, signature, hash)?;
            Ok(answer)
        }
    }
}

/// The place of the hash, or a clash, of a signature that is accepted for this second, whose items these are.
fn lay<C: Compress>(
    alloc: Global,
    calendar: &Calendar<C>,
    p: u64,
    second: u64,
    items: &Journal<C>,
    signature: &SignatureView<'_>,
    hash: &Imprint,
) -> Result<Audit, NoMemory>
    requires covered { IsTrue (is_covered calendar.now p) }
    requires imprints { AllByRecursion IsImprint calendar.now.roots }
    requires passes { verdict C.image (seen signature.now) hash.now (published C.image calendar.now p) ≡ verdicts.Accepted second }
    requires root { root_at items.now second ≡ Some (calendar_leaf calendar.now second) }
    ensures answer { IfOk result (λ answer. answer ≡ audit_with C.image calendar.now p items.now (seen signature.now) hash.now) }
    ensures shown { IfOk result (Shows C.image items.now (seen signature.now) hash.now) }
    ensures tells { IfOk result Tells }
    ensures missed { calendar_leaf calendar.now second ≡ zero_imprint → IfOk result HasClash }
    ensures short { IfOk result IsShort }
{
    audit_is_laid();
    low_levels();
    kept_items();
    laid_shows();
    decided_is_laid();
    ksi_verifier::laws::accepted();
    let _start = items.start();
    let _bytes = hash.bytes();
    has_links(signature);
    lay_view(
        alloc,
        calendar,
        items.items(second),
        signature,
        hash,
        second,
    )
}
