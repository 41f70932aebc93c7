//! What holds of journals, for the layers above to cite. None of these functions does anything.
ghost use Rattle.std.specs.Prelude.{◌≡◌, ◌↔◌, ◌⊎◌, ◌<◌, ◌≤◌, ◌+◌, ◌^◌, ℕ, suc, List, IsTrue, length, Ok, Err};
ghost use Rattle.ksi_tlv.specs.Spelling.{AreBytes};
ghost use Rattle.ksi_calendar.specs.Calendar.{calendar_leaf, calendar_root, calendar_path, is_covered};
ghost use Rattle.ksi_calendar.specs.Covered.{IsCovered, covered_seconds, covered_root, covered_path, second_leaf};
ghost use Rattle.ksi_journal.specs.declared.fault.JournalFault.{JournalFault};
ghost use Rattle.ksi_journal.specs.Journal.{Contents, IsJournal, root_at};
ghost use Rattle.ksi_journal.specs.Calendar.{calendar_of};
ghost use Rattle.ksi_journal.specs.File.{IsJournalFile, IsJournalFault};
ghost use Rattle.ksi_journal.specs.declared.version.Version.{Version};
ghost use Rattle.ksi_journal.specs.Written.{Allows, text_in, journal_text};
ghost use Rattle.ksi_journal.specs.Kinds.{IsInOrder};
ghost use Rattle.ksi_journal.specs.Reading.{journal_at};

use crate::fault::JournalFault;
use crate::journal::Journal;
use crate::loading::Loading;
use ksi_calendar::laws::one_covered;
use ksi_imprint::Sha;
use ksi_synod::laws::voters_are_cores;
use ksi_tlv::laws::{numeral_is_read, reading_is_elements, written_is_read};
use ksi_tlv::order::laws::{file_is_read, values_are_bounded};

/// The seconds of a journal's calendar are those that are covered, and it is the calendar of these by the roots that the
/// journal keeps: so to each covered second it has their root, and their chains.
pub fn calendar_is_covered()
    ensures covered { (image : List ℕ → List ℕ) (journal : Contents) (p : ℕ) → IsJournal image journal →
        IsTrue (is_covered (calendar_of journal) p) ↔ IsCovered (root_at journal) journal.start p }
    ensures within { (image : List ℕ → List ℕ) (journal : Contents) (p : ℕ) → IsJournal image journal →
        ((journal.start ≤ p) × (p < journal.start + length (calendar_of journal).roots)) ↔ IsCovered (root_at journal) journal.start p }
    ensures seconds { (image : List ℕ → List ℕ) (journal : Contents) (last : ℕ) → IsJournal image journal →
        suc last ≡ journal.start + length (calendar_of journal).roots →
        calendar_of journal ≡ covered_seconds (root_at journal) journal.start last }
    ensures leaves { (image : List ℕ → List ℕ) (journal : Contents) (t : ℕ) → IsJournal image journal →
        t < journal.start + length (calendar_of journal).roots → calendar_leaf (calendar_of journal) t ≡ second_leaf (root_at journal) journal.start t }
    ensures root { (image : List ℕ → List ℕ) (journal : Contents) (p : ℕ) → IsJournal image journal →
        IsCovered (root_at journal) journal.start p →
        calendar_root image (calendar_of journal) p ≡ covered_root image (root_at journal) journal.start p }
    ensures path { (image : List ℕ → List ℕ) (journal : Contents) (t p : ℕ) → IsJournal image journal →
        IsCovered (root_at journal) journal.start p →
        calendar_path image (calendar_of journal) t p ≡ covered_path image (root_at journal) journal.start t p }
    ensures early { (image : List ℕ → List ℕ) (journal : Contents) → IsJournal image journal →
        journal.start + length (calendar_of journal).roots ≤ 2 ^ 63 }
{
    one_covered();
}

/// Bytes are a journal or have a first fault, and not both; and they are one journal and have one first fault.
pub fn file_or_fault()
    ensures one { (image : List ℕ → List ℕ) (bytes : List ℕ) →
        ((journal : Contents) × IsJournalFile image bytes journal) ⊎ ((fault : JournalFault) × IsJournalFault image bytes fault) }
    ensures not_both { (image : List ℕ → List ℕ) (bytes : List ℕ) (journal : Contents) (fault : JournalFault) →
        IsJournalFile image bytes journal → IsJournalFault image bytes fault → ⊥ }
    ensures one_journal { (image : List ℕ → List ℕ) (bytes : List ℕ) (some other : Contents) →
        IsJournalFile image bytes some → IsJournalFile image bytes other → some ≡ other }
    ensures one_fault { (image : List ℕ → List ℕ) (bytes : List ℕ) (fault other : JournalFault) →
        IsJournalFault image bytes fault → IsJournalFault image bytes other → fault ≡ other }
{
    journal_is_read();
}

/// What a journal file holds is a journal. The elements of the file are those of the journal, one for one: their kinds are
/// the start, then voters, seconds each followed by its items, issued signatures, publications, and the end. In no version
/// is the text of the journal longer than the file.
pub fn file_is_journal()
    ensures journal { (image : List ℕ → List ℕ) (bytes : List ℕ) (journal : Contents) → AreBytes bytes →
        IsJournalFile image bytes journal → IsJournal image journal }
    ensures kinds { (image : List ℕ → List ℕ) (bytes : List ℕ) (journal : Contents) → AreBytes bytes →
        IsJournalFile image bytes journal → IsInOrder bytes journal }
    ensures shortest { (image : List ℕ → List ℕ) (bytes : List ℕ) (journal : Contents) (version : Version) → AreBytes bytes →
        IsJournalFile image bytes journal → length (text_in version journal) ≤ length bytes }
{
    values_are_bounded();
    reading_is_elements();
    numeral_is_read();
}

/// The text of a journal in a version that allows it is a file of that journal.
pub fn text_is_journal()
    ensures { (image : List ℕ → List ℕ) (version : Version) (journal : Contents) → IsJournal image journal → Allows version journal →
        IsJournalFile image (text_in version journal) journal }
{
    written_is_read();
    numeral_is_read();
    voters_are_cores();
}

/// The text of a journal is a file of that journal.
pub fn written_is_journal()
    ensures { (image : List ℕ → List ℕ) (journal : Contents) → IsJournal image journal →
        IsJournalFile image (journal_text journal) journal }
{
    text_is_journal();
}

/// What `journal_at` gives is the journal that the bytes are, or their first fault.
pub fn journal_is_read()
    ensures journal { (image : List ℕ → List ℕ) (bytes : List ℕ) (journal : Contents) →
        (journal_at image bytes ≡ Ok journal) ↔ IsJournalFile image bytes journal }
    ensures fault { (image : List ℕ → List ℕ) (bytes : List ℕ) (fault : JournalFault) →
        (journal_at image bytes ≡ Err fault) ↔ IsJournalFault image bytes fault }
{
    file_is_read::<Loading<Sha>, JournalFault, Journal<Sha>>();
}

/// Bytes are below 256, as their type keeps it.
pub fn are_bytes(bytes: &[u8])
    ensures { AreBytes bytes.now }
{}
