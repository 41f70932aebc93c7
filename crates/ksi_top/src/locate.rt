// The command `locate`.
ghost use Rattle.std.specs.Prelude.{◌≡◌, ◌≤◌, ◌<◌, IfOk, length};
ghost use Rattle.std.specs.List.{AllByRecursion};
ghost use Rattle.ksi_logblock.specs.Logs.{IsShort};
ghost use Rattle.ksi_logblock.specs.Blocks.{longest_line};
ghost use Rattle.ksi_top.specs.Locate.{IsLocated, TellsWhere, locate_beside, locate_command, locate_over, located, located_status, located_told};
ghost use Rattle.ksi_top.specs.Log.{IsLogTold};
ghost use Rattle.ksi_top.specs.Promised.{Performed};

use crate::loading::{FILE_LIMIT, load, load_file};
use crate::log::log_refused;
use crate::report::{Halt, Report, ended};
use crate::status::Status;
use ksi_imprint::{NoMemory, Refused, Sha};
use ksi_lines::located_line;
use ksi_logblock::laws::{log_is_of_lines, log_is_read};
use ksi_logblock::{Block, LONGEST_LINE, LineProof, Located, block_of};
use ksi_ports::Files;
use std::alloc::Global;

/// Loads the log, then the line, then the proof, and looks the line up in the block of the log's lines.
pub(crate) fn locate<F: Files>(
    alloc: Global,
    files: &mut F,
    log: &str,
    seed: &[u8; 32],
    line: &str,
    proof: &str,
) -> Result<Report, Halt>
    ensures { Performed F.Files (locate_command log.now seed.now line.now proof.now) files.old files.new result }
{
    let log = load_file(alloc, files, FILE_LIMIT, 1, log)?;
    locate_beside(alloc, files, log.as_slice(), seed, line, proof)
}

/// Loads the line, then the proof.
fn locate_beside<F: Files>(
    alloc: Global,
    files: &mut F,
    log: &[u8],
    seed: &[u8; 32],
    line: &str,
    proof: &str,
) -> Result<Report, Halt>
    ensures { Performed F.Files (locate_beside log.now seed.now line.now proof.now) files.old files.new result }
{
    let line = load_file(alloc, files, LONGEST_LINE, 3, line)?;
    locate_over(alloc, files, log, seed, line.as_slice(), proof)
}

/// Loads the proof, and looks the line up.
fn locate_over<F: Files>(
    alloc: Global,
    files: &mut F,
    log: &[u8],
    seed: &[u8; 32],
    line: &[u8],
    proof: &str,
) -> Result<Report, Halt>
    requires { length line.now ≤ longest_line }
    ensures { Performed F.Files (locate_over log.now seed.now line.now proof.now) files.old files.new result }
{
    let proof = load::<LineProof, F>(alloc, files, 4, proof)?;
    ended(located(alloc, log, seed, line, &proof))
}

fn located(
    alloc: Global,
    log: &[u8],
    seed: &[u8; 32],
    line: &[u8],
    proof: &LineProof,
) -> Result<Report, NoMemory>
    requires { length line.now ≤ longest_line }
    ensures told { IfOk result (λ report. report ≡ located seed.now log.now line.now proof.now) }
    ensures means { IfOk result (IsLogTold (TellsWhere seed.now line.now proof.now) log.now) }
{
    log_is_of_lines();
    log_is_read();
    match block_of::<Sha>(alloc, *seed, log) {
        Ok(block) => where_told(alloc, &block, line, proof),
        Err(Refused::Fault(refusal)) => Ok(log_refused(refusal)),
        Err(Refused::NoMemory) => Err(NoMemory),
    }
}

/// Of a block that has lines.
fn where_told(
    alloc: Global,
    block: &Block<'_, Sha>,
    line: &[u8],
    proof: &LineProof,
) -> Result<Report, NoMemory>
    requires some { 0 < length block.now.lines }
    requires short { AllByRecursion IsShort block.now.lines }
    requires line { length line.now ≤ longest_line }
    ensures told { IfOk result (λ report. report ≡ located_told block.now.seed line.now proof.now block.now.lines) }
    ensures means { IfOk result (TellsWhere block.now.seed line.now proof.now block.now.lines) }
{
    let answer = ksi_logblock::locate(alloc, block, line, proof)?;
    let line = located_line(alloc, &answer)?;
    Ok(Report::new(status_of(&answer), line))
}

fn status_of(answer: &Located) -> Status
    ensures { result ≡ located_status answer.now }
{
    match answer {
        Located::NotAccepted(_) => Status::Refused,
        Located::In(_) => Status::Done,
        Located::Clash(_) => Status::Clash,
    }
}
