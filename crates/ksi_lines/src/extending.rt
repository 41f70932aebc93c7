// What is reported of a signature that is not extended to a later second.
ghost use Rattle.std.specs.Prelude.{◌≡◌};
ghost use Rattle.ksi_lines.specs.Answers.{not_extended_line};

use crate::faults::signature_fault_line;
use crate::line::Line;
use crate::printing::Word::{Digest, Number};
use crate::refusals::{refusal_line, refused};
use ksi_extender::ExtendRefusal;

/// The refusal's line; the signature is file word `n`.
pub fn not_extended_line(n: usize, refusal: &ExtendRefusal) -> Line
    ensures { result ≡ not_extended_line n refusal.now }
{
    match refusal {
        ExtendRefusal::Malformed(fault) => signature_fault_line(n, *fault),
        ExtendRefusal::Refused(refusal) => refusal_line(refusal),
        ExtendRefusal::RootDiffers {
            second,
            kept,
            given,
        } => refused("E1", &[Number(*second), Digest(kept), Digest(given)]),
        ExtendRefusal::Undecided(second) => refused("E2", &[Number(*second)]),
        ExtendRefusal::TooEarly {
            second,
            publication,
        } => refused("E3", &[Number(*second), Number(*publication)]),
        ExtendRefusal::BeforeStart(second) => refused("E4", &[Number(*second)]),
        ExtendRefusal::TooLarge(size) => refused("E5", &[Number(*size)]),
    }
}
