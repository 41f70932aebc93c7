// Whether a journal keeps what a front of its calendar wants.
ghost use Rattle.std.specs.Prelude.{◌≡◌, ◌≤◌, ◌↔◌, None};
ghost use Rattle.ksi_calendar.specs.Covered.{IsCovered};
ghost use Rattle.ksi_journal.specs.Journal.{root_at};
ghost use Rattle.ksi_top.specs.Kept.{unkept};

use crate::report::Report;
use crate::status::Status;
use ksi_imprint::Sha;
use ksi_journal::Journal;
use ksi_lines::{before_start_line, undecided_line};

/// Why it does not: it begins behind `p`, or does not keep a second from its start to the last one.
pub(crate) fn unkept(journal: &Journal<Sha>, p: u64, last: u64) -> Option<Report>
    requires { p ≤ last }
    ensures reason { result ≡ unkept journal.now p last }
    ensures none { (result ≡ None) ↔
        ((journal.now.start ≤ p) × IsCovered (root_at journal.now) journal.now.start last) }
{
    if p < journal.start() {
        return Some(Report::new(Status::Refused, before_start_line(p)));
    }
    match journal.first_missing(last) {
        Some(second) => Some(Report::new(Status::Refused, undecided_line(second))),
        None => None,
    }
}
