// A run over files and an output that do not fail.
ghost use Rattle.std.specs.Prelude.{◌≡◌, ◌≢◌, ℕ, ◌+◌, ◌≤◌, ◌++◌};
ghost use Rattle.ksi_ports.specs.Sure.{empty_where_none};
ghost use Rattle.ksi_top.specs.Endings.{UnlessCut};
ghost use Rattle.ksi_top.specs.Run.{most_calls, run, run_calls, saved_into};
ghost use Rattle.ksi_words.specs.Words.{texts, command_of};

use crate::ending::ksi;
use crate::status::Status;
use ksi_ports::{SureFiles, SureSink};
use std::alloc::Global;

/// Runs the command as [`ksi`] does, over files and an output in memory whose calls do not fail. There is no fault, so
/// the run is that of the words and the files held, or memory ran out: then nothing is saved and nothing put.
pub fn sure_run(
    alloc: Global,
    words: &[String],
    files: &mut SureFiles,
    out: &mut SureSink,
) -> Status
    requires free { 32767 ≤ out.old.free }
    ensures no_fault { result ≢ Status.Fault }
    ensures status { UnlessCut result (result
        ≡ (run (texts words.now) (empty_where_none files.old.entries)).status) }
    ensures saved { UnlessCut result (empty_where_none files.new.entries
        ≡ saved_into (run (texts words.now) (empty_where_none files.old.entries)).saved
        (empty_where_none files.old.entries)) }
    ensures put { UnlessCut result (out.new.written
        ≡ out.old.written ++ (run (texts words.now) (empty_where_none files.old.entries)).line) }
    ensures unsaved { result ≢ Status.Done →
        empty_where_none files.new.entries ≡ empty_where_none files.old.entries }
    ensures unput { result ≡ Status.NoMemory → out.new.written ≡ out.old.written }
    ensures calls { files.new.counts.calls
        ≤ files.old.counts.calls + run_calls (texts words.now) (empty_where_none files.old.entries) }
    ensures few_calls { files.new.counts.calls ≤ files.old.counts.calls + most_calls (command_of (texts words.now)) }
    ensures one_put { out.new.puts ≤ out.old.puts + 1 }
    ensures free { out.old.free ≤ out.new.free + 32767 }
{
    ksi(alloc, words, files, out)
}
