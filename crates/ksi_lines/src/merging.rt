// The lines of mirrors.
ghost use Rattle.std.specs.Prelude.{◌≡◌};
ghost use Rattle.ksi_lines.specs.Mirrors.{not_merged_line, not_whole_line};

use crate::line::Line;
use crate::printing::Word::{Digest, Number};
use crate::refusals::refused;
use ksi_mirror::{MergeRefusal, WholeRefusal};

/// Why two mirrors are not merged.
pub fn not_merged_line(refusal: &MergeRefusal) -> Line
    ensures { result ≡ not_merged_line refusal.now }
{
    match refusal {
        MergeRefusal::Starts(one, two) => refused("M1", &[Number(*one), Number(*two)]),
        MergeRefusal::Conflict(second, one, two) => {
            refused("M2", &[Number(*second), Digest(one), Digest(two)])
        }
        MergeRefusal::Trees(second, core, place) => {
            let values = [
                Number(*second),
                Number(u64::from(*core)),
                Number(*place as u64),
            ];
            refused("M3", &values)
        }
    }
}

/// Why the journal of a mirror is not made.
pub fn not_whole_line(refusal: &WholeRefusal) -> Line
    ensures { result ≡ not_whole_line refusal.now }
{
    match refusal {
        WholeRefusal::NoTree(second) => refused("M4", &[Number(*second)]),
    }
}
