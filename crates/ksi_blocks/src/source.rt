// The log and the seed of a block.
ghost use Rattle.std.specs.Prelude.{◌≡◌, IsTrue};
ghost use Rattle.ksi_blocks.specs.Loading.{Gives};
ghost use Rattle.ksi_blocks.specs.Commands.{log_loaded, source_loaded};

use crate::loading::{FILE_LIMIT, load};
use crate::report::Halt;
use crate::seed::load_seed;
use ksi_imprint::Bytes;
use ksi_ports::Files;
use std::alloc::Global;

/// What a block is made of.
#[derive(Drop)]
pub(crate) struct Source {
    pub(crate) seed: [u8; 32],
    pub(crate) log: Bytes,
}

/// Loads the seed, then the log.
pub(crate) fn load_source<F: Files>(
    alloc: Global,
    files: &mut F,
    log: &str,
    seed: &str,
) -> Result<Source, Halt>
    ensures told { IsTrue F.tells → Gives (source_loaded (F.held files.old) log.now seed.now) result }
    ensures stays { F.held files.new ≡ F.held files.old }
{
    let bytes = load_seed(alloc, files, seed)?;
    load_log(alloc, files, log, bytes)
}

/// Loads the log of a seed.
fn load_log<F: Files>(
    alloc: Global,
    files: &mut F,
    name: &str,
    seed: [u8; 32],
) -> Result<Source, Halt>
    ensures told { IsTrue F.tells → Gives (log_loaded seed (F.held files.old name.now)) result }
    ensures stays { F.held files.new ≡ F.held files.old }
{
    let log = load(alloc, files, 1, FILE_LIMIT, name)?;
    Ok(Source { seed, log })
}
