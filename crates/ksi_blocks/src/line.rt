// The command `line`.
ghost use Rattle.std.specs.Prelude.{◌≡◌, ◌<◌, IsTrue, IfOk, Ok, length};
ghost use Rattle.ksi_blocks.specs.Commands.{line_run, lined};
ghost use Rattle.ksi_blocks.specs.Loading.{Gives, Leaves};
ghost use Rattle.ksi_blocks.specs.Reports.{proof_or_none, proof_report};

use crate::log::log_refused;
use crate::report::{Halt, Report};
use crate::saving::finish;
use crate::source::{Source, load_source};
use ksi_imprint::{NoMemory, Refused, Sha};
use ksi_lines::Word::{Number, Text};
use ksi_lines::{no_line_line, print};
use ksi_logblock::laws::log_is_read;
use ksi_logblock::{Block, block_of, write_proof};
use ksi_ports::Files;
use std::alloc::Global;

/// Saves the proof of line `k` of a log.
pub(crate) fn report<F: Files>(
    alloc: Global,
    files: &mut F,
    log: &str,
    seed: &str,
    k: u64,
    out: &str,
) -> Result<Report, Halt>
    ensures told { IsTrue F.tells → Gives (line_run (F.held files.old) log.now seed.now k) result }
    ensures leaves { IsTrue F.tells → Leaves out.now (F.held files.old) (F.held files.new) result }
{
    let source = load_source(alloc, files, log, seed)?;
    line_saved(alloc, files, &source, k, out)
}

fn line_saved<F: Files>(
    alloc: Global,
    files: &mut F,
    source: &Source,
    k: u64,
    out: &str,
) -> Result<Report, Halt>
    ensures told { Gives (lined k source.now) result }
    ensures leaves { IsTrue F.tells → Leaves out.now (F.held files.old) (F.held files.new) result }
{
    let report = lined(alloc, source, k)?;
    finish(alloc, files, report, out)
}

fn lined(alloc: Global, source: &Source, k: u64) -> Result<Report, Halt>
    ensures { Gives (lined k source.now) result }
{
    log_is_read();
    match block_of::<Sha>(alloc, source.seed, source.log.as_slice()) {
        Ok(block) => proof_or_none(alloc, &block, k),
        Err(Refused::Fault(refusal)) => Ok(log_refused(refusal)),
        Err(Refused::NoMemory) => Err(Halt::NoMemory),
    }
}

fn proof_or_none(alloc: Global, block: &Block<'_, Sha>, k: u64) -> Result<Report, Halt>
    ensures { Gives (Ok (proof_or_none block.now.seed k block.now.lines)) result }
{
    let count = block.count();
    if k >= count as u64 {
        return Ok(Report::new(1, no_line_line(k, count)));
    }
    match proof_saved(alloc, block, k as usize) {
        Ok(report) => Ok(report),
        Err(_) => Err(Halt::NoMemory),
    }
}

/// Of a line that is there.
fn proof_saved(alloc: Global, block: &Block<'_, Sha>, k: usize) -> Result<Report, NoMemory>
    requires { k < length block.now.lines }
    ensures { IfOk result (λ report. report ≡ proof_report block.now.seed k block.now.lines) }
{
    let proof = block.proof(k)?;
    let text = write_proof(alloc, &proof)?;
    let line = print(Text("line"), &[], &[Number(k as u64)]);
    Ok(Report::saving(line, text))
}
