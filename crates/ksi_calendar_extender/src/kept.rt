ghost use Rattle.std.specs.Prelude.{◌≡◌, ◌≤◌, ◌<◌, ◌^◌, ℕ, List, IsTrue, Some, None};
ghost use Rattle.ksi_calendar.specs.Calendar.{calendar_leaf, is_covered};
ghost use Rattle.ksi_calendar.specs.Covered.{first_missing, second_leaf};
ghost use Rattle.ksi_journal.specs.Journal.{root_at};
ghost use Rattle.ksi_extender.specs.Extended.{kept_to};
ghost use Rattle.ksi_calendar_extender.specs.Kept.{journal_of};

use crate::laws::one_journal;
use ksi_calendar::Calendar;
use ksi_calendar::laws::{one_calendar, one_part};
use ksi_extender::ExtendRefusal;
use ksi_imprint::{Compress, Imprint};
use ksi_split::laws::{different_ways, no_way_goes_on};
use ksi_split::way;
use ksi_verifier::{Aggregated, Refusal};

/// V9, E4, E3 and E1. E2 holds, because all seconds to `p` are covered.
pub(crate) fn check_kept<C: Compress>(
    calendar: &Calendar<C>,
    chains: &Aggregated,
    p: u64,
) -> Result<(), ExtendRefusal>
    requires early { p < 2 ^ 63 }
    requires covered { IsTrue (is_covered calendar.now p) }
    ensures { result ≡ kept_to (journal_of calendar.now) chains.now p }
{
    let given = chains.node.imprint;
    let second = chains.time;
    if given == Imprint::ZERO {
        return Err(ExtendRefusal::Refused(Refusal::MissedSecond));
    }
    if second < calendar.start() {
        return Err(ExtendRefusal::BeforeStart(second));
    }
    if p < second {
        return Err(ExtendRefusal::TooEarly {
            second,
            publication: p,
        });
    }
    let kept = kept_root(calendar, p, second);
    if kept != given {
        return Err(ExtendRefusal::RootDiffers {
            second,
            kept,
            given,
        });
    }
    Ok(())
}

/// The leaf of a second in the tree to a covered one.
fn kept_root<C: Compress>(calendar: &Calendar<C>, p: u64, second: u64) -> Imprint
    requires early { p < 2 ^ 63 }
    requires to { second ≤ p }
    requires covered { IsTrue (is_covered calendar.now p) }
    ensures kept { result ≡ second_leaf (root_at (journal_of calendar.now)) calendar.now.start second }
    ensures missing { first_missing (root_at (journal_of calendar.now)) calendar.now.start p ≡ None }
{
    one_journal();
    leaf(calendar, p, second)
}

/// The leaf of a second in the tree to a covered one: the zero imprint before the start, else the second's root.
pub fn leaf<C: Compress>(calendar: &Calendar<C>, p: u64, second: u64) -> Imprint
    requires early { p < 2 ^ 63 }
    requires to { second ≤ p }
    requires covered { IsTrue (is_covered calendar.now p) }
    ensures { result ≡ calendar_leaf calendar.now second }
{
    one_part();
    one_calendar();
    different_ways();
    no_way_goes_on();
    let sides = way(second, p + 1);
    or_zero(calendar.node(p, sides.as_slice()))
}

/// The node that sides lead to, or the zero imprint if they lead to none.
fn or_zero(node: Option<Imprint>) -> Imprint
    ensures { (root : List ℕ) → node ≡ Some root → result ≡ root }
{
    match node {
        Some(root) => root,
        None => Imprint::ZERO,
    }
}
