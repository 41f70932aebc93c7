// The command `line`.
ghost use Rattle.std.specs.Prelude.{◌≡◌, ◌<◌, IfOk, length};
ghost use Rattle.ksi_top.specs.LineOf.{SavesProof, TellsLine, line_command, line_told, lined, proof_saved};
ghost use Rattle.ksi_top.specs.Log.{IsLogTold};
ghost use Rattle.ksi_top.specs.Promised.{Performed};

use crate::loading::{FILE_LIMIT, load_file};
use crate::log::log_refused;
use crate::report::{Halt, Report, Saved, ended};
use crate::status::Status;
use ksi_imprint::{NoMemory, Refused, Sha};
use ksi_lines::Word::{Number, Text};
use ksi_lines::{no_line_line, print};
use ksi_logblock::laws::{log_is_of_lines, log_is_read};
use ksi_logblock::{Block, block_of, write_proof};
use ksi_ports::Files;
use std::alloc::Global;

/// Loads the log, and saves the proof of its line `k`.
pub(crate) fn line<F: Files>(
    alloc: Global,
    files: &mut F,
    log: &str,
    seed: &[u8; 32],
    k: u64,
    out: &str,
) -> Result<Report, Halt>
    ensures { Performed F.Files (line_command log.now seed.now k out.now) files.old files.new result }
{
    let log = load_file(alloc, files, FILE_LIMIT, 1, log)?;
    ended(lined(alloc, log.as_slice(), seed, k, out))
}

fn lined(alloc: Global, log: &[u8], seed: &[u8; 32], k: u64, out: &str) -> Result<Report, NoMemory>
    ensures told { IfOk result (λ report. report ≡ lined seed.now k out.now log.now) }
    ensures means { IfOk result (IsLogTold (TellsLine seed.now k out.now) log.now) }
{
    log_is_of_lines();
    log_is_read();
    match block_of::<Sha>(alloc, *seed, log) {
        Ok(block) => line_told(alloc, &block, k, out),
        Err(Refused::Fault(refusal)) => Ok(log_refused(refusal)),
        Err(Refused::NoMemory) => Err(NoMemory),
    }
}

fn line_told(alloc: Global, block: &Block<'_, Sha>, k: u64, out: &str) -> Result<Report, NoMemory>
    ensures told { IfOk result (λ report. report ≡ line_told block.now.seed k out.now block.now.lines) }
    ensures means { IfOk result (TellsLine block.now.seed k out.now block.now.lines) }
{
    let count = block.count();
    if k < count as u64 {
        proof_saved(alloc, block, k as usize, out)
    } else {
        Ok(Report::new(Status::Refused, no_line_line(k, count)))
    }
}

/// Of a line that is there.
fn proof_saved(
    alloc: Global,
    block: &Block<'_, Sha>,
    k: usize,
    out: &str,
) -> Result<Report, NoMemory>
    requires { k < length block.now.lines }
    ensures told { IfOk result (λ report. report ≡ proof_saved block.now.seed k out.now block.now.lines) }
    ensures saves { IfOk result (SavesProof block.now.seed k out.now block.now.lines) }
{
    let proof = block.proof(k)?;
    let text = write_proof(alloc, &proof)?;
    let line = print(Text("line"), &[], &[Number(k as u64)]);
    Ok(Report::saving(line, Saved::named(alloc, out, text)?))
}
