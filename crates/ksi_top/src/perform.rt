// What a run reports, before anything is saved or put.
ghost use Rattle.std.specs.Prelude.{◌≡◌};
ghost use Rattle.ksi_words.specs.declared.asked.WordsRefusal.TheVariants as refusals;
ghost use Rattle.ksi_words.specs.Words.{IsEarly, asked, texts};
ghost use Rattle.ksi_top.specs.Promised.{Performed};
ghost use Rattle.ksi_top.specs.Run.{refused, row_of};
ghost use Rattle.ksi_top.specs.Promised.{IsReported};

use crate::audit::audit;
use crate::block::block;
use crate::checkline::checkline;
use crate::compare::compare;
use crate::drill::drill;
use crate::extend::extend;
use crate::front::front;
use crate::inspect::inspect;
use crate::line_of::line;
use crate::locate::locate;
use crate::make::make;
use crate::merge::merge;
use crate::migrate::migrate;
use crate::mirror::mirror;
use crate::node::node;
use crate::publish::publish;
use crate::replay::replay;
use crate::report::{Halt, Report, ended};
use crate::sign::sign;
use crate::status::Status;
use crate::verify::verify;
use crate::whole::whole;
use ksi_imprint::Refused;
use ksi_lines::Word::{Number, Text};
use ksi_lines::print;
use ksi_ports::Files;
use ksi_words::{Command, WordsRefusal, command};
use std::alloc::Global;

/// What the words and the files give as a report.
pub(crate) fn report_of<F: Files>(
    alloc: Global,
    words: &[String],
    files: &mut F,
) -> Result<Report, Halt>
    ensures { IsReported F.Files (texts words.now) files.old files.new result }
{
    match command(alloc, words) {
        Ok(command) => perform(alloc, files, &command),
        Err(Refused::Fault(refusal)) => Ok(refused(refusal)),
        Err(Refused::NoMemory) => Err(Halt::NoMemory),
    }
}

/// What words that are no command report.
fn refused(refusal: WordsRefusal) -> Report
    ensures { result ≡ refused refusal }
{
    match refusal {
        WordsRefusal::Words => words_refused(),
        WordsRefusal::BadWord(n) => bad_word(n),
    }
}

/// What a command reports: a case for each.
fn perform<F: Files>(alloc: Global, files: &mut F, command: &Command<'_>) -> Result<Report, Halt>
    requires early { IsEarly command.now }
    ensures { Performed F.Files (row_of (asked command.now)) files.old files.new result }
{
    match command {
        Command::Replay(schedule, journal) => replay(alloc, files, schedule, journal),
        Command::Sign(journal, number, out) => sign(alloc, files, journal, *number, out),
        Command::Publish(journal, out) => publish(alloc, files, journal, out),
        Command::Extend(journal, signature, second, out) => {
            extend(alloc, files, journal, signature, *second, out)
        }
        Command::Verify(signature, hash, publications) => {
            verify(alloc, files, signature, hash, publications)
        }
        Command::Audit(journal, signature, hash, publications) => {
            audit(alloc, files, journal, signature, hash, publications)
        }
        Command::Make(number, out) => ended(make(alloc, *number, out)),
        Command::Drill(number) => ended(drill(alloc, *number)),
        Command::Migrate(old, new) => migrate(alloc, files, old, new),
        Command::Front(journal, p1, p2, out) => front(alloc, files, journal, *p1, *p2, out),
        Command::Compare(old, new, proof) => compare(alloc, files, old, new, proof),
        Command::Block(log, seed) => block(alloc, files, log, seed),
        Command::Line(log, seed, k, out) => line(alloc, files, log, seed, *k, out),
        Command::CheckLine(signature, publications, entry, proof) => {
            checkline(alloc, files, signature, publications, entry, proof)
        }
        Command::Locate(log, seed, entry, proof) => locate(alloc, files, log, seed, entry, proof),
        Command::Merge(one, two, out) => merge(alloc, files, one, two, out),
        Command::Whole(mirror, journal) => whole(alloc, files, mirror, journal),
        Command::Inspect(node) => inspect(alloc, files, node),
        Command::Mirror(schedule, core, out) => mirror(alloc, files, schedule, *core, out),
        Command::Node(schedule, core, out) => node(alloc, files, schedule, *core, out),
    }
}

fn words_refused() -> Report
    ensures { result ≡ refused refusals.Words }
{
    let line = print(Text("words"), &[], &[Text("refused")]);
    Report::new(Status::Words, line)
}

fn bad_word(n: usize) -> Report
    ensures { result ≡ refused (refusals.BadWord n) }
{
    let line = print(Text("bad"), &[Text("word")], &[Number(n as u64)]);
    Report::new(Status::Words, line)
}
