// The command `block`.
ghost use Rattle.std.specs.Prelude.{◌≡◌, ◌<◌, IfOk, length};
ghost use Rattle.ksi_top.specs.Block.{TellsRoot, block_command, block_told, blocked};
ghost use Rattle.ksi_top.specs.Log.{IsLogTold};
ghost use Rattle.ksi_top.specs.Promised.{Performed};

use crate::loading::{FILE_LIMIT, load_file};
use crate::log::log_refused;
use crate::report::{Halt, Report, ended};
use crate::status::Status;
use ksi_imprint::laws::hashes_are_bytes;
use ksi_imprint::{NoMemory, Refused, Sha};
use ksi_lines::Word::{Digest, Number, Text};
use ksi_lines::print;
use ksi_logblock::laws::{leading_proof_shows, lines_have_a_root, log_is_of_lines, log_is_read};
use ksi_logblock::{Block, block_of};
use ksi_ports::Files;
use std::alloc::Global;

/// Loads the log, and tells the root of the block of its lines.
pub(crate) fn block<F: Files>(
    alloc: Global,
    files: &mut F,
    log: &str,
    seed: &[u8; 32],
) -> Result<Report, Halt>
    ensures { Performed F.Files (block_command log.now seed.now) files.old files.new result }
{
    let log = load_file(alloc, files, FILE_LIMIT, 1, log)?;
    ended(blocked(alloc, log.as_slice(), seed))
}

fn blocked(alloc: Global, log: &[u8], seed: &[u8; 32]) -> Result<Report, NoMemory>
    ensures told { IfOk result (λ report. report ≡ blocked seed.now log.now) }
    ensures means { IfOk result (IsLogTold (TellsRoot seed.now) log.now) }
{
    log_is_of_lines();
    log_is_read();
    match block_of::<Sha>(alloc, *seed, log) {
        Ok(block) => Ok(root_told(&block)),
        Err(Refused::Fault(refusal)) => Ok(log_refused(refusal)),
        Err(Refused::NoMemory) => Err(NoMemory),
    }
}

/// Of a block that has lines.
fn root_told(block: &Block<'_, Sha>) -> Report
    requires { 0 < length block.now.lines }
    ensures told { result ≡ block_told block.now.seed block.now.lines }
    ensures means { TellsRoot block.now.seed block.now.lines result }
{
    lines_have_a_root();
    leading_proof_shows();
    hashes_are_bytes();
    let count = block.count() as u64;
    match block.root() {
        None => unreachable!(),
        Some(root) => {
            let values = [Number(count), Digest(&root.imprint)];
            Report::new(Status::Done, print(Text("block"), &[], &values))
        }
    }
}
