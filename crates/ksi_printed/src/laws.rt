//! What holds of printed texts, for the layers above to cite. None of these functions does anything.
ghost use Rattle.std.specs.Prelude.{◌≡◌, ◌≢◌, ◌<◌, ◌++◌, ◌∷◌, ◌^◌, ℕ, List, Ok, Some, slice_index};
ghost use Rattle.ksi_imprint.specs.Imprints.{IsImprint};
ghost use Rattle.ksi_printed.specs.Groups.{number_in};
ghost use Rattle.ksi_printed.specs.Printed.{printed, weighed};
ghost use Rattle.ksi_printed.specs.Reading.{bare, reading};

/// A printed text is read as its second and root.
pub fn printed_is_read()
    ensures { (second : ℕ) (root : List ℕ) → second < 10 ^ 12 → IsImprint root → ((k : ℕ) → slice_index root k < 256) →
        reading (bare (printed second root)) ≡ Ok (second, root) }
{}

/// A text that is read is the printed one of what is read, up to case, spaces and line breaks.
pub fn read_is_printed()
    ensures { (text : List ℕ) (second : ℕ) (root : List ℕ) → reading text ≡ Ok (second, root) → text ≡ bare (printed second root) }
{}

/// Of two groups whose checks hold, none is the other one with one character changed, or with two different ones exchanged.
pub fn group_is_checked()
    ensures changed { (one two : List ℕ) (place n m : ℕ) → place < 5 → number_in one ≡ Some n → number_in two ≡ Some m →
        ((k : ℕ) → k < 5 → k ≢ place → slice_index one k ≡ slice_index two k) → slice_index one place ≡ slice_index two place }
    ensures exchanged { (one two : List ℕ) (low high n m : ℕ) → low < high → high < 5 → number_in one ≡ Some n → number_in two ≡ Some m →
        ((k : ℕ) → k < 5 → k ≢ low → k ≢ high → slice_index one k ≡ slice_index two k) →
        slice_index one low ≡ slice_index two high → slice_index one high ≡ slice_index two low → slice_index one low ≡ slice_index one high }
{}

/// Of two lists of numbers with one sum, none is the other one with one number changed, or with two different ones exchanged.
pub fn sum_is_checked()
    ensures changed { (front back : List ℕ) (a b : ℕ) → weighed (front ++ a ∷ back) ≡ weighed (front ++ b ∷ back) → a ≡ b }
    ensures exchanged { (front middle back : List ℕ) (a b : ℕ) →
        weighed (front ++ a ∷ (middle ++ b ∷ back)) ≡ weighed (front ++ b ∷ (middle ++ a ∷ back)) → a ≡ b }
{}
