//! What holds of the records of files, for the layers above to cite. These functions do nothing.
ghost use Rattle.std.specs.Prelude.{◌≡◌, ◌≢◌, ◌<◌, ◌+◌, ◌^◌, ℕ, false, List, ◌∷◌, ◌++◌, length, All};
ghost use Rattle.ksi_disk.specs.declared.ending.Ending.TheVariants.{Closed, Broken};
ghost use Rattle.ksi_disk.specs.Gates.{behind, ends, is_whole, place_of, reading_of, records_text};

/// Reading encoded records returns them: up to a closed gate, whatever follows it; up to the end of the file, if a gate
/// is missing; or up to an open gate whose record is cut off.
#[tactic(auto, using(crate::proofs::Spelled::file_closed, crate::proofs::Spelled::file_ended, crate::proofs::Spelled::file_cut))]
pub fn records_are_read_again()
    ensures closed { (header : List ℕ) (records : List (List ℕ)) (gate : ℕ) (rest : List ℕ) → All (λ content. length content < 2 ^ 32) records → gate ≢ 1 → reading_of (length header) (header ++ (records_text records ++ gate ∷ rest)) ≡ behind records (ends (Closed (length header + length (records_text records)))) }
    ensures ended { (header : List ℕ) (records : List (List ℕ)) → All (λ content. length content < 2 ^ 32) records → reading_of (length header) (header ++ records_text records) ≡ behind records (ends (Broken (length header + length (records_text records)))) }
    ensures cut { (header : List ℕ) (records : List (List ℕ)) (rest : List ℕ) → All (λ content. length content < 2 ^ 32) records → is_whole rest ≡ false → reading_of (length header) (header ++ (records_text records ++ 1 ∷ rest)) ≡ behind records (ends (Broken (length header + length (records_text records)))) }
{}

/// A closed gate at which the records of a file end is in the file.
#[tactic(auto, using(crate::proofs::Spelled::closed_within))]
pub fn closed_gates_are_in_the_file()
    ensures { (from : ℕ) (file : List ℕ) (gate : ℕ) → (reading_of from file).ending ≡ Closed gate → gate < length file }
{}

/// The records of a file stand one after the other, from its header up to their ending.
#[tactic(auto, using(crate::proofs::Endings::records_end))]
pub fn records_stand_one_after_the_other()
    ensures { (from : ℕ) (file : List ℕ) → from + length (records_text (reading_of from file).records) ≡ place_of (reading_of from file).ending }
{}
