//! What holds of audits, for the layers above to cite. None of these functions does anything.
ghost use Rattle.std.specs.Prelude.{◌≡◌, ◌≤◌, ℕ, List, Some};
ghost use Rattle.std.specs.List.{AllByRecursion};
ghost use Rattle.ksi_imprint.specs.Imprints.{IsImprint, zero_imprint};
ghost use Rattle.ksi_aggtree.specs.Links.{PlainLink, highest_level};
ghost use Rattle.ksi_aggtree.specs.Climbing.{level_after};
ghost use Rattle.ksi_aggtree.specs.declared.item.Item.{Item};
ghost use Rattle.ksi_calendar.specs.Calendar.{Seconds, calendar_leaf};
ghost use Rattle.ksi_signature.specs.Values.{Calendar};
ghost use Rattle.ksi_signature.specs.declared.signature.Signature.{Signature};
ghost use Rattle.ksi_verifier.specs.Accepted.{IsAccepted};
ghost use Rattle.ksi_verifier.specs.Verdict.{verdict};
ghost use Rattle.ksi_verifier.specs.declared.verdict.Verdict.TheVariants as verdicts;
ghost use Rattle.ksi_journal.specs.Journal.{Contents, IsJournal, items_at, root_at};
ghost use Rattle.ksi_journal.specs.Calendar.{calendar_of};
ghost use Rattle.ksi_auditor.specs.Audit.{audit, laid_if, laid_over, links_of};
ghost use Rattle.ksi_auditor.specs.Shown.{AreItemsOf, HasClash, HasLinks, IsDecided, LeadsToRoot, MissedIsClash, Shows, ShowsIn, Tells};

use ksi_aggtree::laws::{metas_are_even, one_part, one_round, one_text};
use ksi_beside::laws::beside_a_tree;
use ksi_calendar::laws::{one_calendar, one_first_missing};
use ksi_journal::laws::calendar_is_covered;
use ksi_split::laws::{one_answer, one_split, one_way, parts};
use ksi_verifier::laws::{accepted, joined};

/// What is found of an accepted signature is true, over seconds whose root it leads to and over the items of its own second.
/// Nothing is needed of the items of other seconds. For a second before the start, or for a missed one, it is a clash.
pub fn laid_shows()
    ensures shows { (image : List ℕ → List ℕ) (seconds : Seconds) (items : ℕ → List Item) (signature : Signature) (hash : List ℕ)
        (publications : List (ℕ × List ℕ)) (t : ℕ) → ((bytes : List ℕ) → IsImprint (image bytes)) →
        AllByRecursion IsImprint seconds.roots → IsImprint hash → HasLinks signature →
        verdict image signature hash publications ≡ verdicts.Accepted t → LeadsToRoot image seconds signature →
        AreItemsOf image (items t) (calendar_leaf seconds t) →
        ShowsIn image items signature hash (laid_if image seconds (items t) (links_of signature) hash t signature.calendar) }
    ensures missed { (image : List ℕ → List ℕ) (seconds : Seconds) (items : List Item) (signature : Signature) (hash : List ℕ)
        (publications : List (ℕ × List ℕ)) (t : ℕ) → ((bytes : List ℕ) → IsImprint (image bytes)) →
        AllByRecursion IsImprint seconds.roots → IsImprint hash →
        verdict image signature hash publications ≡ verdicts.Accepted t → LeadsToRoot image seconds signature →
        calendar_leaf seconds t ≡ zero_imprint →
        HasClash (laid_if image seconds items (links_of signature) hash t signature.calendar) }
{
    parts();
    one_split();
    one_answer();
    one_way();
    beside_a_tree();
    one_calendar();
    one_first_missing();
    one_round();
    one_part();
    one_text();
    metas_are_even();
    ksi_aggtree::chains::laws::one_climb();
    ksi_calendar::laws::one_climb();
    joined();
    accepted();
    calendar_is_covered();
}

/// An audit of an accepted signature, whose publication is decided, finds what is found over the journal's calendar and the
/// items of the signature's second: the place of the hash, or a clash.
pub fn decided_is_laid()
    ensures laid { (image : List ℕ → List ℕ) (journal : Contents) (signature : Signature) (hash : List ℕ)
        (publications : List (ℕ × List ℕ)) (t : ℕ) → verdict image signature hash publications ≡ verdicts.Accepted t →
        IsDecided image journal signature → audit image journal signature hash publications ≡
        laid_if image (calendar_of journal) (items_at journal t) (links_of signature) hash t signature.calendar }
    ensures tells { (image : List ℕ → List ℕ) (seconds : Seconds) (items : List Item) (links : List PlainLink) (hash : List ℕ) (t : ℕ)
        (calendar : Calendar) → Tells (laid_over image seconds items links hash t calendar) }
{
    one_first_missing();
}

/// The items that a journal keeps for a second are those of the root that it keeps.
pub fn kept_items()
    ensures { (image : List ℕ → List ℕ) (journal : Contents) (t : ℕ) (root : List ℕ) → IsJournal image journal →
        root_at journal t ≡ Some root → AreItemsOf image (items_at journal t) root }
{}

/// Whatever an audit answers of a signature whose links are such as are read, it shows what it says, for every hash function
/// whose images are imprints.
pub fn audit_shows()
    ensures { (image : List ℕ → List ℕ) (journal : Contents) (signature : Signature) (hash : List ℕ)
        (publications : List (ℕ × List ℕ)) → ((bytes : List ℕ) → IsImprint (image bytes)) → IsJournal image journal →
        IsImprint hash → HasLinks signature → Shows image journal signature hash (audit image journal signature hash publications) }
{
    parts();
    one_split();
    one_answer();
    one_way();
    beside_a_tree();
    one_calendar();
    one_first_missing();
    one_round();
    one_part();
    one_text();
    metas_are_even();
    ksi_aggtree::chains::laws::one_climb();
    ksi_calendar::laws::one_climb();
    joined();
    accepted();
    calendar_is_covered();
}

/// An audit of an accepted signature, whose publication is decided, returns the place of the hash, or a clash.
pub fn decided_tells()
    ensures { (image : List ℕ → List ℕ) (journal : Contents) (signature : Signature) (hash : List ℕ)
        (publications : List (ℕ × List ℕ)) (t : ℕ) → IsJournal image journal →
        verdict image signature hash publications ≡ verdicts.Accepted t → IsDecided image journal signature →
        Tells (audit image journal signature hash publications) }
{
    one_first_missing();
}

/// A signature for a second before the start, or for one whose kept root is the zero imprint, is accepted against a decided
/// publication only with a clash, which the audit answers: by the law above it is one.
pub fn missed_seconds()
    ensures { (image : List ℕ → List ℕ) (journal : Contents) (signature : Signature) (hash : List ℕ)
        (publications : List (ℕ × List ℕ)) → ((bytes : List ℕ) → IsImprint (image bytes)) → IsJournal image journal →
        IsImprint hash → MissedIsClash image journal signature hash publications (audit image journal signature hash publications) }
{
    parts();
    one_split();
    one_answer();
    beside_a_tree();
    one_calendar();
    one_first_missing();
    ksi_aggtree::chains::laws::one_climb();
    ksi_calendar::laws::one_climb();
    joined();
    accepted();
    calendar_is_covered();
}

/// No level of an accepted signature passes 255.
pub fn low_levels()
    ensures { (image : List ℕ → List ℕ) (signature : Signature) (hash : List ℕ) (publications : List (ℕ × List ℕ)) (t : ℕ) →
        IsAccepted image signature hash publications t → level_after 0 (links_of signature) ≤ highest_level }
{
    ksi_aggtree::chains::laws::one_climb();
    joined();
}
