// The lines of what a front shows of two calendars.
ghost use Rattle.std.specs.Prelude.{◌≡◌, ◌≤◌, IfOk, length};
ghost use Rattle.ksi_lines.specs.Answers.{compared_line, not_front_line};
ghost use Rattle.ksi_consistency.specs.Compared.{IsShort};

use crate::auditing::clash_line;
use crate::line::Line;
use crate::printing::Word::{Digest, Number, Text};
use crate::printing::print;
use crate::refusals::refused;
use ksi_consistency::{Compared, FrontRefusal};
use ksi_imprint::NoMemory;
use std::alloc::Global;

/// The line of what a front shows, where the last second of the older calendar is `p1`.
///
/// # Errors
/// `NoMemory` where the line of a clash finds none.
pub fn compared_line(alloc: Global, p1: u64, compared: &Compared) -> Result<Line, NoMemory>
    requires { IsShort compared.now }
    ensures { IfOk result (λ line. line ≡ compared_line p1 compared.now) }
{
    match compared {
        Compared::NotAccepted(refusal) => Ok(not_front_line(refusal)),
        Compared::Equal => Ok(print(Text("equal"), &[], &[Number(p1)])),
        Compared::Clash(clash) => clash_line(alloc, clash.one.as_slice(), clash.two.as_slice()),
    }
}

/// The line of the first check of a front that fails.
fn not_front_line(refusal: &FrontRefusal) -> Line
    ensures { result ≡ not_front_line refusal.now }
{
    match refusal {
        FrontRefusal::Length { needed, given } => {
            let values = [Number(*needed as u64), Number(*given as u64)];
            refused("F1", &values)
        }
        FrontRefusal::OldDiffers { computed, given } => {
            refused("F2", &[Digest(computed), Digest(given)])
        }
        FrontRefusal::NewDiffers { computed, given } => {
            refused("F3", &[Digest(computed), Digest(given)])
        }
    }
}
