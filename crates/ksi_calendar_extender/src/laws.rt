//! What holds of the journal that keeps the roots of seconds, for the layers above to cite. None of these functions does
//! anything.
ghost use Rattle.std.specs.Prelude.{◌≡◌, ◌≤◌, ℕ, List, IsTrue, Some, None};
ghost use Rattle.ksi_calendar.specs.Calendar.{Seconds, calendar_leaf, calendar_path, calendar_root, is_covered};
ghost use Rattle.ksi_calendar.specs.Covered.{IsCovered, covered_path, covered_root, first_missing, second_leaf};
ghost use Rattle.ksi_journal.specs.Journal.{Contents, root_at};
ghost use Rattle.ksi_extender.specs.Extended.{extended};
ghost use Rattle.ksi_calendar_extender.specs.Kept.{journal_of};

use ksi_calendar::laws::{more_is_known, one_covered, one_first_missing};

/// The journal keeps each covered second, with its root; so its calendar is that of the seconds.
pub fn one_journal()
    ensures covered { (seconds : Seconds) (p : ℕ) → IsTrue (is_covered seconds p) →
        IsCovered (root_at (journal_of seconds)) seconds.start p }
    ensures missing { (seconds : Seconds) (p : ℕ) → IsTrue (is_covered seconds p) →
        first_missing (root_at (journal_of seconds)) seconds.start p ≡ None }
    ensures leaves { (seconds : Seconds) (p t : ℕ) → IsTrue (is_covered seconds p) → t ≤ p →
        calendar_leaf seconds t ≡ second_leaf (root_at (journal_of seconds)) seconds.start t }
    ensures root { (image : List ℕ → List ℕ) (seconds : Seconds) (p : ℕ) → IsTrue (is_covered seconds p) →
        calendar_root image seconds p ≡ covered_root image (root_at (journal_of seconds)) seconds.start p }
    ensures path { (image : List ℕ → List ℕ) (seconds : Seconds) (t p : ℕ) → IsTrue (is_covered seconds p) →
        calendar_path image seconds t p ≡ covered_path image (root_at (journal_of seconds)) seconds.start t p }
{
    one_covered();
    one_first_missing();
}

/// Over any journal that begins at the same second and keeps the same roots to the last one, each signature is extended to the
/// same bytes, or has the same refusal.
pub fn same_roots()
    ensures { (image : List ℕ → List ℕ) (journal : Contents) (seconds : Seconds) (bytes : List ℕ) (p : ℕ) →
        IsTrue (is_covered seconds p) → journal.start ≡ seconds.start →
        ((t : ℕ) → seconds.start ≤ t → t ≤ p → root_at journal t ≡ Some (calendar_leaf seconds t)) →
        extended image journal bytes p ≡ extended image (journal_of seconds) bytes p }
{
    one_journal();
    one_first_missing();
    more_is_known();
}
