//! What holds of schedule texts, for the layers above to cite. None of these functions does anything.
ghost use Rattle.std.specs.Prelude.{◌≡◌, ◌⊎◌, ◌↔◌, ℕ, List, Ok, Err};
ghost use Rattle.ksi_schedule.specs.declared.fault.LineFault.{LineFault};
ghost use Rattle.ksi_schedule.specs.Events.{History, AskForImprints};
ghost use Rattle.ksi_schedule.specs.Schedules.{IsSchedule, IsHistory};
ghost use Rattle.ksi_schedule.specs.Spelled.{IsScheduleText, IsScheduleFault};
ghost use Rattle.ksi_schedule.specs.Laid.{IsLaidOut};
ghost use Rattle.ksi_schedule.specs.Reading.{schedule_at};

use ksi_synod::laws::voters_are_cores;

/// A text is a schedule or has a first fault, and not both; it is one schedule, and it has one first fault.
pub fn schedule_or_fault()
    ensures one { (text : List ℕ) → ((h : History) × IsScheduleText text h) ⊎ ((fault : LineFault) × (n : ℕ) × IsScheduleFault text fault n) }
    ensures not_both { (text : List ℕ) (h : History) (fault : LineFault) (n : ℕ) → IsScheduleText text h → IsScheduleFault text fault n → ⊥ }
    ensures one_schedule { (text : List ℕ) (one two : History) → IsScheduleText text one → IsScheduleText text two → one ≡ two }
    ensures one_fault { (text : List ℕ) (one two : LineFault) (m n : ℕ) → IsScheduleFault text one m → IsScheduleFault text two n → (one ≡ two) × (m ≡ n) }
{}

/// What `schedule_at` gives is the schedule that the text spells, or its first fault.
pub fn schedule_is_read()
    ensures schedule { (text : List ℕ) (h : History) → (schedule_at text ≡ Ok h) ↔ IsScheduleText text h }
    ensures fault { (text : List ℕ) (fault : LineFault) (n : ℕ) → (schedule_at text ≡ Err (fault, n)) ↔ IsScheduleFault text fault n }
{}

/// What a text spells is within the limits of a schedule, and each request in it is for an imprint, whose numbers are
/// bytes.
pub fn spelled_is_schedule()
    ensures schedule { (text : List ℕ) (h : History) → IsScheduleText text h → IsSchedule h }
    ensures imprints { (text : List ℕ) (h : History) → IsScheduleText text h → AskForImprints h.events }
    ensures history { (text : List ℕ) (h : History) → IsScheduleText text h → IsHistory h }
{
    voters_are_cores();
}

/// The lines of a schedule have one order: the version, the number of cores and the start; then a line for each change of
/// voters, one for each aggregator, and one for each event. Each line begins with the word of its kind.
pub fn spelled_is_laid_out()
    ensures { (text : List ℕ) (h : History) → IsScheduleText text h → IsLaidOut text h }
{}
