//! Where a second stands among those that are kept.
ghost use Rattle.std.specs.Prelude.{◌≡◌, ◌+◌, map};
ghost use Rattle.ksi_journal.specs.Journal.{RiseFrom, kept_among};
ghost use Rattle.ksi_journal.specs.Kept.{view_kept, at_place, place_of};

use ksi_aggtree::Second;
use ksi_calendar::Steps;
use std::sync::ledger::Ledger;

/// What is kept for a second, by halving. Each search is one step: there is no other way to look a second up.
pub(crate) fn find<'a, L: Ledger>(
    start: u64,
    seconds: &'a [Second],
    second: u64,
    steps: &mut Steps<L>,
) -> Option<&'a Second>
    requires rise { RiseFrom start (map (λ kept. kept.second) seconds.now) }
    ensures kept { view_kept result ≡ kept_among seconds.now second }
    ensures step { steps.new ≡ steps.old + 1 }
{
    steps.tick();
    let place = place(start, seconds, second);
    match stands(seconds, place) {
        Some(kept) => {
            if kept.second == second {
                Some(kept)
            } else {
                None
            }
        }
        None => None,
    }
}

/// The entry at a place.
fn stands(seconds: &[Second], place: usize) -> Option<&Second>
    ensures { view_kept result ≡ place_of seconds.now place }
{
    seconds.get(place)
}

/// How many seconds stand before a second.
fn place(start: u64, seconds: &[Second], second: u64) -> usize
    requires rise { RiseFrom start (map (λ kept. kept.second) seconds.now) }
    ensures found { kept_among seconds.now second ≡ at_place (place_of seconds.now result) second }
{
    let mut low = 0;
    let mut high = seconds.len();
    'halving: while low < high {
        let middle = low + (high - low) / 2;
        if seconds[middle].second < second {
            low = middle + 1;
        } else {
            high = middle;
        }
    }
    low
}
