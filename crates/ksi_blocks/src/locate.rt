// The command `locate`.
ghost use Rattle.std.specs.Prelude.{◌≡◌, ◌≤◌, ◌<◌, IsTrue, IfOk, Ok, length};
ghost use Rattle.std.specs.List.{AllByRecursion};
ghost use Rattle.ksi_logblock.specs.Logs.{IsShort};
ghost use Rattle.ksi_logblock.specs.Blocks.{longest_line};
ghost use Rattle.ksi_logblock.specs.ProofReading.{proof_at};
ghost use Rattle.ksi_blocks.specs.Commands.{line_located, locate_run, located_by, looked_up, malformed, proof_loaded, proof_or_malformed};
ghost use Rattle.ksi_blocks.specs.Loading.{Gives};
ghost use Rattle.ksi_blocks.specs.Reports.{located_status, where_report};

use crate::loading::{FILE_LIMIT, load};
use crate::log::log_refused;
use crate::report::{Halt, Report};
use crate::source::{Source, load_source};
use ksi_imprint::{NoMemory, Refused, Sha};
use ksi_lines::{located_line, proof_fault_line};
use ksi_logblock::laws::{log_is_read, proof_is_read};
use ksi_logblock::{Block, LONGEST_LINE, LineProof, Located, ProofFault, block_of, read_proof};
use ksi_ports::Files;
use std::alloc::Global;

/// Loads the seed and the log, then the line, then the proof, and looks the line up in the block of the log's lines.
pub(crate) fn report<F: Files>(
    alloc: Global,
    files: &mut F,
    log: &str,
    seed: &str,
    line: &str,
    proof: &str,
) -> Result<Report, Halt>
    ensures told { IsTrue F.tells → Gives (locate_run (F.held files.old) log.now seed.now line.now proof.now) result }
    ensures stays { F.held files.new ≡ F.held files.old }
{
    let source = load_source(alloc, files, log, seed)?;
    line_located(alloc, files, &source, line, proof)
}

/// Loads the line, then the proof.
fn line_located<F: Files>(
    alloc: Global,
    files: &mut F,
    source: &Source,
    line: &str,
    proof: &str,
) -> Result<Report, Halt>
    ensures told { IsTrue F.tells → Gives (line_located (F.held files.old) line.now proof.now source.now) result }
    ensures stays { F.held files.new ≡ F.held files.old }
{
    let bytes = load(alloc, files, 3, LONGEST_LINE, line)?;
    located_by(alloc, files, source, bytes.as_slice(), proof)
}

/// Loads the proof.
fn located_by<F: Files>(
    alloc: Global,
    files: &mut F,
    source: &Source,
    line: &[u8],
    proof: &str,
) -> Result<Report, Halt>
    requires { length line.now ≤ longest_line }
    ensures told { IsTrue F.tells → Gives (located_by source.now line.now (F.held files.old proof.now)) result }
    ensures stays { F.held files.new ≡ F.held files.old }
{
    let read = load_proof(alloc, files, proof)?;
    looked_up(alloc, source, line, &read)
}

/// The proof of the file of word 4.
fn load_proof<F: Files>(alloc: Global, files: &mut F, name: &str) -> Result<LineProof, Halt>
    ensures told { IsTrue F.tells → Gives (proof_loaded (F.held files.old name.now)) result }
    ensures stays { F.held files.new ≡ F.held files.old }
{
    let bytes = load(alloc, files, 4, FILE_LIMIT, name)?;
    proof_or_malformed(alloc, bytes.as_slice())
}

fn proof_or_malformed(alloc: Global, bytes: &[u8]) -> Result<LineProof, Halt>
    ensures { Gives (proof_or_malformed (proof_at bytes.now)) result }
{
    proof_is_read();
    match read_proof(alloc, bytes) {
        Ok(proof) => Ok(proof),
        Err(Refused::Fault(fault)) => Err(malformed(fault)),
        Err(Refused::NoMemory) => Err(Halt::NoMemory),
    }
}

fn malformed(fault: ProofFault) -> Halt
    ensures { result ≡ malformed fault }
{
    Halt::Reported(Report::new(3, proof_fault_line(4, fault)))
}

fn looked_up(alloc: Global, source: &Source, line: &[u8], proof: &LineProof) -> Result<Report, Halt>
    requires { length line.now ≤ longest_line }
    ensures { Gives (looked_up source.now line.now proof.now) result }
{
    log_is_read();
    match block_of::<Sha>(alloc, source.seed, source.log.as_slice()) {
        Ok(block) => where_told(alloc, &block, line, proof),
        Err(Refused::Fault(refusal)) => Ok(log_refused(refusal)),
        Err(Refused::NoMemory) => Err(Halt::NoMemory),
    }
}

/// Of a block that has lines.
fn where_told(
    alloc: Global,
    block: &Block<'_, Sha>,
    line: &[u8],
    proof: &LineProof,
) -> Result<Report, Halt>
    requires some { 0 < length block.now.lines }
    requires short { AllByRecursion IsShort block.now.lines }
    requires line { length line.now ≤ longest_line }
    ensures { Gives (Ok (where_report block.now.seed line.now proof.now block.now.lines)) result }
{
    match found(alloc, block, line, proof) {
        Ok(report) => Ok(report),
        Err(_) => Err(Halt::NoMemory),
    }
}

fn found(
    alloc: Global,
    block: &Block<'_, Sha>,
    line: &[u8],
    proof: &LineProof,
) -> Result<Report, NoMemory>
    requires some { 0 < length block.now.lines }
    requires short { AllByRecursion IsShort block.now.lines }
    requires line { length line.now ≤ longest_line }
    ensures { IfOk result (λ report. report ≡ where_report block.now.seed line.now proof.now block.now.lines) }
{
    let answer = ksi_logblock::locate(alloc, block, line, proof)?;
    let line = located_line(alloc, &answer)?;
    Ok(Report::new(status_of(&answer), line))
}

fn status_of(answer: &Located) -> u8
    ensures { result ≡ located_status answer.now }
{
    match answer {
        Located::NotAccepted(_) => 1,
        Located::In(_) => 0,
        Located::Clash(_) => 6,
    }
}
