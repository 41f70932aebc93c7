// The lines of what is answered about logs, masked blocks and the proofs of their lines.
ghost use Rattle.std.specs.Prelude.{◌≡◌, IfOk};
ghost use Rattle.ksi_logblock.specs.Shown.{IsShortAnswer};
ghost use Rattle.ksi_lines.specs.Blocks.{level_line, located_line, log_refused_line, no_line_line, not_led_line};

use crate::auditing::clash_line;
use crate::line::Line;
use crate::printing::Word::{Digest, Number, Text};
use crate::printing::print;
use crate::refusals::refused;
use ksi_aggtree::chains::LevelFault;
use ksi_imprint::NoMemory;
use ksi_logblock::{LineRefusal, Located, LogRefusal};
use std::alloc::Global;

/// Why a log makes no block.
pub fn log_refused_line(refusal: LogRefusal) -> Line
    ensures { result ≡ log_refused_line refusal }
{
    match refusal {
        LogRefusal::NoLines => refused("B3", &[]),
        LogRefusal::TooManyLines => refused("B5", &[]),
        LogRefusal::LineTooLong { line, size } => {
            refused("B6", &[Number(line as u64), Number(size as u64)])
        }
    }
}

/// A block of `count` lines has no line `k`.
pub fn no_line_line(k: u64, count: usize) -> Line
    ensures { result ≡ no_line_line k count }
{
    refused("B4", &[Number(k), Number(count as u64)])
}

/// The first link of a line's proof whose level passes 255.
pub fn level_line(fault: LevelFault) -> Line
    ensures { result ≡ level_line fault }
{
    match fault {
        LevelFault::Over { link, level } => {
            refused("B1", &[Number(link as u64), Number(level as u64)])
        }
    }
}

/// The line for the place of a proof's line in a block.
///
/// # Errors
/// `NoMemory` if the line of a clash finds none.
pub fn located_line(alloc: Global, located: &Located) -> Result<Line, NoMemory>
    requires { IsShortAnswer located.now }
    ensures { IfOk result (λ line. line ≡ located_line located.now) }
{
    match located {
        Located::NotAccepted(refusal) => Ok(not_led_line(refusal)),
        Located::In(k) => Ok(print(Text("in"), &[], &[Number(*k as u64)])),
        Located::Clash(clash) => clash_line(alloc, clash.one.as_slice(), clash.two.as_slice()),
    }
}

fn not_led_line(refusal: &LineRefusal) -> Line
    ensures { result ≡ not_led_line refusal.now }
{
    match refusal {
        LineRefusal::Level(fault) => level_line(*fault),
        LineRefusal::RootDiffers(computed, kept) => {
            refused("B2", &[Digest(computed), Digest(kept)])
        }
    }
}
