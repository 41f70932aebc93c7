// The greatest covered second, and its root.
ghost use Rattle.std.specs.Prelude.{◌≡◌, ◌<◌, ◌≤◌, ◌+◌, ◌^◌, Some, IfOk, IfSome};
ghost use Rattle.ksi_imprint.specs.Imprints.{imprint_of};
ghost use Rattle.ksi_calendar.specs.Covered.{covered_root};
ghost use Rattle.ksi_journal.specs.Journal.{root_at};
ghost use Rattle.ksi_replay.specs.Covered.{greatest_covered, last_from, published};

use ksi_imprint::{Imprint, NoMemory, Sha};
use ksi_journal::Journal;
use ksi_journal::laws::calendar_is_covered;
use ksi_publications::Publications;
use std::alloc::Global;

/// The greatest covered second.
#[tactic(auto, unfolding(crate::specs::Covered::greatest_covered, ksi_journal::specs::Calendar::calendar_of))]
pub(crate) fn greatest_covered(journal: &Journal<Sha>) -> Option<u64>
    ensures greatest { result ≡ greatest_covered journal.now }
    ensures early { IfSome result (λ p. p < 2 ^ 63) }
{
    calendar_is_covered();
    let start = journal.start();
    last_from(start, journal.calendar().count())
}

/// The last of this many seconds from the start on.
fn last_from(start: u64, count: u64) -> Option<u64>
    requires { start + count ≤ 2 ^ 63 }
    ensures last { result ≡ last_from start count }
    ensures early { IfSome result (λ p. p < 2 ^ 63) }
{
    if count == 0 {
        None
    } else {
        Some(start + (count - 1))
    }
}

/// One publication: the greatest covered second with its root.
pub(crate) fn published(
    alloc: Global,
    journal: &Journal<Sha>,
    p: u64,
) -> Result<Publications, NoMemory>
    requires { greatest_covered journal.now ≡ Some p }
    ensures { IfOk result (λ publications. publications ≡ published imprint_of journal.now p) }
{
    let mut pairs = Vec::with_capacity(alloc, 1)?;
    pairs.push((p, root_to(journal, p)))?;
    Ok(Publications::from_vec(pairs))
}

/// The root of the seconds from 0 to the greatest covered one.
fn root_to(journal: &Journal<Sha>, p: u64) -> Imprint
    requires { greatest_covered journal.now ≡ Some p }
    ensures { result ≡ covered_root imprint_of (root_at journal.now) journal.now.start p }
{
    calendar_is_covered();
    let _start = journal.start();
    match journal.calendar().root_to(p) {
        Some(root) => root,
        None => Imprint::ZERO,
    }
}
