// The command `block`.
ghost use Rattle.std.specs.Prelude.{◌≡◌, ◌<◌, IsTrue, length};
ghost use Rattle.ksi_blocks.specs.Commands.{block_run, blocked};
ghost use Rattle.ksi_blocks.specs.Loading.{Gives};
ghost use Rattle.ksi_blocks.specs.Reports.{root_report};

use crate::log::log_refused;
use crate::report::{Halt, Report};
use crate::source::{Source, load_source};
use ksi_imprint::{Refused, Sha};
use ksi_lines::Word::{Digest, Number, Text};
use ksi_lines::print;
use ksi_logblock::laws::{lines_have_a_root, log_is_read};
use ksi_logblock::{Block, block_of};
use ksi_ports::Files;
use std::alloc::Global;

/// The root of the block of a log's lines.
pub(crate) fn report<F: Files>(
    alloc: Global,
    files: &mut F,
    log: &str,
    seed: &str,
) -> Result<Report, Halt>
    ensures told { IsTrue F.tells → Gives (block_run (F.held files.old) log.now seed.now) result }
    ensures stays { F.held files.new ≡ F.held files.old }
{
    let source = load_source(alloc, files, log, seed)?;
    blocked(alloc, &source)
}

fn blocked(alloc: Global, source: &Source) -> Result<Report, Halt>
    ensures { Gives (blocked source.now) result }
{
    log_is_read();
    match block_of::<Sha>(alloc, source.seed, source.log.as_slice()) {
        Ok(block) => Ok(root_told(&block)),
        Err(Refused::Fault(refusal)) => Ok(log_refused(refusal)),
        Err(Refused::NoMemory) => Err(Halt::NoMemory),
    }
}

/// Of a block that has lines.
fn root_told(block: &Block<'_, Sha>) -> Report
    requires { 0 < length block.now.lines }
    ensures { result ≡ root_report block.now.seed block.now.lines }
{
    lines_have_a_root();
    let count = block.count() as u64;
    match block.root() {
        None => unreachable!(),
        Some(root) => {
            let values = [Number(count), Digest(&root.imprint)];
            Report::new(0, print(Text("block"), &[], &values))
        }
    }
}
