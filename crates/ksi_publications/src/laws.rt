//! Laws of publications files, for the proofs of the layers above. They do nothing when they are called.

ghost use Rattle.std.specs.Prelude.{◌≡◌, ◌↔◌, ◌<◌, ◌^◌, ◌⊎◌, ℕ, List, Ok, Err};
ghost use Rattle.std.specs.List.{AllByRecursion};
ghost use Rattle.ksi_imprint.specs.Imprints.{IsImprint};
ghost use Rattle.ksi_publications.specs.declared.fault.PublicationsFault.{PublicationsFault};
ghost use Rattle.ksi_publications.specs.File.{IsPublications, IsPublicationsFault, publications_text};
ghost use Rattle.ksi_publications.specs.Reading.{publications_at};

use ksi_tlv::grammar::laws::{
    faults_by_table, inside_is_whole, record_is_read, whole_or_fault, written_is_whole,
};
use ksi_tlv::laws::numeral_is_read;

/// Bytes are a publications file or have a first fault, and not both; and they have one list and one first fault.
pub fn file_or_fault()
    ensures one { (bytes : List ℕ) →
        ((pairs : List (ℕ × List ℕ)) × IsPublications bytes pairs) ⊎ ((fault : PublicationsFault) × IsPublicationsFault bytes fault) }
    ensures not_both { (bytes : List ℕ) (pairs : List (ℕ × List ℕ)) (fault : PublicationsFault) →
        IsPublications bytes pairs → IsPublicationsFault bytes fault → ⊥ }
    ensures one_list { (bytes : List ℕ) (some others : List (ℕ × List ℕ)) →
        IsPublications bytes some → IsPublications bytes others → some ≡ others }
    ensures one_fault { (bytes : List ℕ) (fault other : PublicationsFault) →
        IsPublicationsFault bytes fault → IsPublicationsFault bytes other → fault ≡ other }
{
    whole_or_fault();
    faults_by_table();
}

/// What is read in bytes are the times and hashes of the file that they are, or its first fault.
pub fn publications_are_read()
    ensures pairs { (bytes : List ℕ) (pairs : List (ℕ × List ℕ)) →
        (publications_at bytes ≡ Ok pairs) ↔ IsPublications bytes pairs }
    ensures fault { (bytes : List ℕ) (fault : PublicationsFault) →
        (publications_at bytes ≡ Err fault) ↔ IsPublicationsFault bytes fault }
{
    whole_or_fault();
    faults_by_table();
}

/// A file that is written is one of the times and hashes that were written.
pub fn written_is_publications()
    ensures { (creation : ℕ) (pairs : List (ℕ × List ℕ)) → creation < 2 ^ 63 →
        AllByRecursion (λ pair. (pair.0 < 2 ^ 63) × IsImprint pair.1) pairs →
        IsPublications (publications_text creation pairs) pairs }
{
    written_is_whole();
    inside_is_whole();
    record_is_read();
    numeral_is_read();
}
