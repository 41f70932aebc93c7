// The top call, and how a run ends.
ghost use Rattle.std.specs.Prelude.{◌≡◌, ◌≢◌, ◌⊎◌, ℕ, ◌+◌, ◌<◌, ◌≤◌, ◌++◌, List, length, IsTrue, IfErr, IfOk, None};
ghost use Rattle.ksi_ports.specs.Outside.{Rose};
ghost use Rattle.ksi_top.specs.Endings.{FaultLeaves, TookTooMuch, UnlessCut, WordsLine, WordsStatus, outside};
ghost use Rattle.ksi_top.specs.Promised.{Finished, IsRun, Puts, Saves};
ghost use Rattle.ksi_top.specs.Causes.{counts};
ghost use Rattle.ksi_top.specs.Complete.{Complete};
ghost use Rattle.ksi_top.specs.Run.{Headline, most_calls, run, run_calls, run_loads, saved_into};
ghost use Rattle.ksi_words.specs.Words.{texts, command_of};

use crate::completeness::issued_is_accepted;
use crate::perform::report_of;
use crate::report::{Halt, Report};
use crate::status::Status;
use ksi_ports::{Files, SaveRefusal, Sink, SinkFailed};
use std::alloc::Global;

/// Runs the command that the words ask for: loads its files, saves its result, then puts its line.
///
/// The words leave out the program's name. At most one file is saved and one line is put, of at most 32,767 bytes: the
/// output has to be free for that many.
pub fn ksi<F: Files, K: Sink>(alloc: Global, words: &[String], files: &mut F, out: &mut K) -> Status
    requires free { 32767 ≤ K.free out.old }

    // Where the files tell what they hold, the run is that of the words and the files held.
    ensures status { IsTrue F.tells →
        UnlessCut result (result ≡ (run (texts words.now) (F.held files.old)).status) }
    ensures saved { IsTrue F.tells →
        UnlessCut result (F.held files.new
        ≡ saved_into (run (texts words.now) (F.held files.old)).saved (F.held files.old)) }
    ensures put { IsTrue F.tells → IsTrue K.tells →
        UnlessCut result (K.written out.new
        ≡ K.written out.old ++ (run (texts words.now) (F.held files.old)).line) }

    // The headline: what the run means, over the files that were held.
    ensures headline { IsTrue F.tells → IfOk (command_of (texts words.now)) (λ asked.
        UnlessCut result (Headline asked (F.held files.old) (run (texts words.now) (F.held files.old)))) }

    // What was issued, and extended to a covered second, is accepted against the root that is published of it.
    ensures complete { IfOk (command_of (texts words.now)) (λ asked.
        Complete asked (F.held files.old) (run (texts words.now) (F.held files.old))) }

    // It calls on the files no more often than the run does: words that are no command load nothing, and a file is loaded
    // only once those before it are read.
    ensures calls { IsTrue F.tells →
        F.calls files.new ≤ F.calls files.old + run_calls (texts words.now) (F.held files.old) }
    ensures few_calls { F.calls files.new ≤ F.calls files.old + most_calls (command_of (texts words.now)) }
    ensures untouched { IfErr (command_of (texts words.now)) (λ _. F.calls files.new ≡ F.calls files.old) }

    // A fault is reported only where a count rose, and always where one is greater at the end. `outside`: what is held,
    // saves, failed calls on the files, failed loads, what was written, puts, failed puts.
    ensures fault_rose { result ≡ Status.Fault →
        Rose (F.faults files.old) (F.faults files.new) ⊎ Rose (K.faults out.old) (K.faults out.new) }
    ensures fault { result ≡ Status.Fault →
        FaultLeaves F.tells K.tells (run (texts words.now) (F.held files.old))
        (outside (F.held files.old) (F.saves files.old) (F.faults files.old) (F.load_faults files.old) (K.written out.old) (K.puts out.old) (K.faults out.old))
        (outside (F.held files.new) (F.saves files.new) (F.faults files.new) (F.load_faults files.new) (K.written out.new) (K.puts out.new) (K.faults out.new)) }
    ensures files_fault { F.faults files.old < F.faults files.new → result ≡ Status.Fault }
    ensures sink_fault { K.faults out.old < K.faults out.new → result ≡ Status.Fault }

    // Only a result is saved, and a run that is out of memory puts nothing.
    ensures unsaved { result ≢ Status.Done → result ≢ Status.Fault → IsTrue F.tells →
        F.held files.new ≡ F.held files.old }
    ensures unput { result ≡ Status.NoMemory →
        (K.puts out.new ≡ K.puts out.old) × (IsTrue K.tells → K.written out.new ≡ K.written out.old) }

    // A file that was loaded and is too long is never reported as out of memory: if the run should end with status 7 and
    // memory runs out, fewer loads were made than the run makes, so not that file's.
    ensures wanting { IsTrue F.tells → result ≡ Status.NoMemory →
        (run (texts words.now) (F.held files.old)).status ≡ Status.TooLong →
        F.calls files.new < F.calls files.old + run_loads (command_of (texts words.now)) (F.held files.old) }

    // These hold also where the files tell nothing.
    ensures words { UnlessCut result (WordsStatus (command_of (texts words.now)) result) }
    ensures words_line { IsTrue K.tells →
        UnlessCut result (WordsLine (command_of (texts words.now)) (K.written out.old) (K.written out.new)) }
    ensures too_long { result ≡ Status.TooLong →
        (line : List ℕ) × (IsTrue K.tells → K.written out.new ≡ K.written out.old ++ line)
        × TookTooMuch (command_of (texts words.now))
        (counts (F.calls files.old) (F.saves files.old) (F.faults files.old) (F.load_faults files.old) (F.taken files.old) (F.last_taken files.old))
        (counts (F.calls files.new) (F.saves files.new) (F.faults files.new) (F.load_faults files.new) (F.taken files.new) (F.last_taken files.new)) line }
    ensures one_line { IsTrue K.tells →
        (line : List ℕ) × (K.written out.new ≡ K.written out.old ++ line) × (length line ≤ 32767) }
    ensures one_put { K.puts out.new ≤ K.puts out.old + 1 }
    ensures short_put { K.given out.new ≤ K.given out.old + 32767 }
    ensures free { K.free out.old ≤ K.free out.new + 32767 }
    ensures no_save { result ≢ Status.Done → result ≢ Status.Fault → F.saves files.new ≡ F.saves files.old }

    // No count of faults or of bytes falls, and those of faults stay where no fault is reported.
    ensures quiet { result ≢ Status.Fault →
        (F.faults files.new ≡ F.faults files.old) × (K.faults out.new ≡ K.faults out.old) }
    ensures later { (F.faults files.old ≤ F.faults files.new) × (F.taken files.old ≤ F.taken files.new)
        × (K.faults out.old ≤ K.faults out.new) }
{
    issued_is_accepted();
    run_words(alloc, words, files, out)
}

/// Reports, then saves the result and puts the line.
fn run_words<F: Files, K: Sink>(
    alloc: Global,
    words: &[String],
    files: &mut F,
    out: &mut K,
) -> Status
    requires { 32767 ≤ K.free out.old }
    ensures { IsRun F.Files K.Sink (texts words.now) files.old files.new out.old out.new result }
{
    match report_of(alloc, words, files) {
        Ok(report) => finish(alloc, &report, files, out),
        Err(Halt::Reported(report)) => finish(alloc, &report, files, out),
        Err(Halt::Fault) => Status::Fault,
        Err(Halt::NoMemory) => Status::NoMemory,
    }
}

/// Saves the result, then puts the line.
fn finish<F: Files, K: Sink>(alloc: Global, report: &Report, files: &mut F, out: &mut K) -> Status
    requires free { 32767 ≤ K.free out.old }
    requires no_fault { report.now.status ≢ Status.Fault }
    requires no_want { report.now.status ≢ Status.NoMemory }
    requires unsaved { report.now.status ≢ Status.Done → report.now.saved ≡ None }
    ensures { Finished F.Files K.Sink report.now files.old files.new out.old out.new result }
{
    match save(alloc, report, files) {
        Ok(()) => put(report, out),
        Err(SaveRefusal::Failed) => Status::Fault,
        Err(SaveRefusal::NoMemory) => Status::NoMemory,
    }
}

/// Saves the file, if there is one.
fn save<F: Files>(alloc: Global, report: &Report, files: &mut F) -> Result<(), SaveRefusal>
    ensures { Saves F.Files report.now.saved files.old files.new result }
{
    match &report.saved {
        Some(saved) => files.save(alloc, saved.name(), saved.bytes()),
        None => Ok(()),
    }
}

/// Puts the line.
fn put<K: Sink>(report: &Report, out: &mut K) -> Status
    requires free { 32767 ≤ K.free out.old }
    requires no_fault { report.now.status ≢ Status.Fault }
    requires no_want { report.now.status ≢ Status.NoMemory }
    ensures { Puts K.Sink report.now out.old out.new result }
{
    match out.put(report.line.as_bytes()) {
        Ok(()) => report.status,
        Err(SinkFailed) => Status::Fault,
    }
}
