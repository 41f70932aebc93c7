// The checks of a calendar chain.
ghost use Rattle.std.specs.Prelude.{◌≡◌};
ghost use Rattle.ksi_verifier.specs.Verdict.{calendar_second, same_second, second_named};

use crate::any_calendar::AnyCalendar;
use crate::refusal::Refusal;
use ksi_aggtree::chains::Node;
use ksi_imprint::Imprint;

/// V8, V9 and V10: the second that the sides name.
pub(crate) fn check_calendar<K: AnyCalendar>(node: &Node, calendar: &K) -> Result<u64, Refusal>
    ensures { result ≡ calendar_second node.now (K.plain calendar.now) }
{
    let input = calendar.input();
    if input != node.imprint {
        return Err(Refusal::CalendarInput {
            computed: node.imprint,
            stated: input,
        });
    }
    if input == Imprint::ZERO {
        return Err(Refusal::MissedSecond);
    }
    second_named(calendar)
}

fn second_named<K: AnyCalendar>(calendar: &K) -> Result<u64, Refusal>
    ensures { result ≡ second_named (K.plain calendar.now) }
{
    match calendar.second() {
        Ok(second) => Ok(second),
        Err(fault) => Err(Refusal::CalendarShape(fault)),
    }
}

/// V11: both stated times are the second.
pub(crate) fn check_second(calendar_time: u64, chain_time: u64, second: u64) -> Result<(), Refusal>
    ensures { result ≡ same_second calendar_time chain_time second }
{
    let field = if calendar_time == second {
        chain_time
    } else {
        calendar_time
    };
    if field == second {
        Ok(())
    } else {
        Err(Refusal::TimeField { field, second })
    }
}
