//! What holds of audits over the roots of a calendar, for the layers above to cite. None of these functions does anything.
ghost use Rattle.std.specs.Prelude.{◌≡◌, ◌≤◌, ℕ, List, Some, IsTrue};
ghost use Rattle.ksi_calendar.specs.Calendar.{Seconds, calendar_leaf, is_covered};
ghost use Rattle.ksi_signature.specs.declared.signature.Signature.{Signature};
ghost use Rattle.ksi_verifier.specs.Verdict.{verdict};
ghost use Rattle.ksi_verifier.specs.declared.verdict.Verdict.TheVariants as verdicts;
ghost use Rattle.ksi_journal.specs.Journal.{Contents, IsJournal, items_at, root_at};
ghost use Rattle.ksi_auditor.specs.Audit.{laid_if, links_of};
ghost use Rattle.ksi_auditor.specs.Shown.{LeadsToRoot};
ghost use Rattle.ksi_calendar_auditor.specs.Audited.{audit_with, published};

use ksi_auditor::laws::{decided_is_laid, kept_items};
use ksi_calendar::laws::one_covered;
use ksi_calendar_extender::laws::one_journal;

/// An accepted signature leads to the calendar's root, and is of a second up to `p`. Its audit finds what is found over the
/// calendar and the items of its second.
pub fn audit_is_laid()
    ensures to { (image : List ℕ → List ℕ) (seconds : Seconds) (p : ℕ) (signature : Signature) (hash : List ℕ) (t : ℕ) →
        verdict image signature hash (published image seconds p) ≡ verdicts.Accepted t → t ≤ p }
    ensures leads { (image : List ℕ → List ℕ) (seconds : Seconds) (p : ℕ) (signature : Signature) (hash : List ℕ) (t : ℕ) →
        IsTrue (is_covered seconds p) → verdict image signature hash (published image seconds p) ≡ verdicts.Accepted t →
        LeadsToRoot image seconds signature }
    ensures laid { (image : List ℕ → List ℕ) (seconds : Seconds) (p : ℕ) (items : Contents) (signature : Signature) (hash : List ℕ) (t : ℕ) →
        IsTrue (is_covered seconds p) → verdict image signature hash (published image seconds p) ≡ verdicts.Accepted t →
        IsJournal image items → root_at items t ≡ Some (calendar_leaf seconds t) →
        audit_with image seconds p items signature hash ≡
        laid_if image seconds (items_at items t) (links_of signature) hash t signature.calendar }
{
    ksi_calendar::laws::one_climb();
    ksi_verifier::laws::accepted();
    one_covered();
    one_journal();
    decided_is_laid();
    kept_items();
}
