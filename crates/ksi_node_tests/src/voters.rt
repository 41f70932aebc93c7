//! Plans in which not all cores vote on each second.
use crate::worlds::are_so;
use std::test::Fail;

/// Three cores, of which core 1 alone votes.
const ONE_VOTES: &str = "ksi-schedule 2
cores 3
start T
members T c1";

/// Core 1 alone votes.
const ONE_VOTER: &str = "seal 0 T = done
ballot 0 T = done / c0 c1 T next 16
deliver 0 = done / c1 c0 T last 16 -
deliver 1 = done / c0 c1 T begin 16 Z
deliver 2 = done / c1 c0 T voted 16
deliver 3 = done / c0 c0 T success Z / c0 c1 T success Z / c0 c2 T success Z";

const ONE_VOTER_ENDS: &str = "events 6 messages 7
settled 1 sealed T 0 Z held T Z
settled 0
settled 0
kept T Z";

/// Three cores. On the first second core 1 alone votes, and from the next on cores 0 and 2.
const OTHERS_VOTE: &str = "ksi-schedule 2
cores 3
start T
members T c1
members T+1 c0 c2";

/// Ballots of two seconds are open at once, each among the voters of its second. All cores are told what is decided.
const EACH_SECOND: &str = "seal 0 T = done
seal 0 T+1 = done
ballot 0 T = done / c0 c1 T next 16
ballot 0 T+1 = done / c0 c0 T+1 next 16 / c0 c2 T+1 next 16
deliver 0 = done / c1 c0 T last 16 -
deliver 2 = done / c2 c0 T+1 last 16 -
deliver 3 = done / c0 c1 T begin 16 Z
deliver 4 = done
deliver 5 = done / c1 c0 T voted 16
deliver 1 = done / c0 c0 T+1 last 16 -
deliver 6 = done / c0 c0 T success Z / c0 c1 T success Z / c0 c2 T success Z
deliver 7 = done / c0 c0 T+1 begin 16 Z / c0 c2 T+1 begin 16 Z
deliver 8 = nothing
tell 0 T = done / c0 c0 T success Z / c0 c1 T success Z / c0 c2 T success Z
deliver 12 = done / c2 c0 T+1 voted 16
deliver 16 = done";

const EACH_SECOND_ENDS: &str = "events 16 messages 17
settled 1 sealed T 0 Z held T Z sealed T+1 0 Z
settled 0
settled 0
kept T Z";

/// Three cores and an aggregator. All vote on the first second, core 1 on the next, and cores 0 and 2 from the third on.
const TWICE: &str = "ksi-schedule 2
cores 3
start T
members T+1 c1
members T+2 c0 c2
aggregator 0 parent c0";

/// Ballots of three seconds are open, each among other voters. Core 0 restarts with a decree begun, and tries again.
const CHANGING: &str = "request 0 T A = number 0
close 0 T = done / a0 c0 T A 0
deliver 0 = done
seal 0 T = done
seal 0 T+1 = done
seal 2 T+2 = done
ballot 0 T = done / c0 c0 T next 16 / c0 c1 T next 16 / c0 c2 T next 16
ballot 0 T+1 = done / c0 c1 T+1 next 16
ballot 2 T+2 = done / c2 c0 T+2 next 18 / c2 c2 T+2 next 18
deliver 1 = done / c0 c0 T last 16 -
deliver 4 = done / c1 c0 T+1 last 16 -
deliver 5 = done / c0 c2 T+2 last 18 -
deliver 7 = done
deliver 8 = done / c0 c1 T+1 begin 16 Z
deliver 9 = done
restart c0 = done
deliver 10 = done / c1 c0 T+1 voted 16
deliver 11 = nothing
deliver 6 = done / c2 c2 T+2 last 18 -
deliver 12 = done / c2 c0 T+2 begin 18 Z / c2 c2 T+2 begin 18 Z
deliver 13 = done / c0 c2 T+2 voted 18
deliver 14 = done / c2 c2 T+2 voted 18
deliver 15 = done
deliver 16 = done / c2 c0 T+2 success Z / c2 c1 T+2 success Z / c2 c2 T+2 success Z
deliver 18 = done
ballot 0 T = done / c0 c0 T next 32 / c0 c1 T next 32 / c0 c2 T next 32
deliver 21 = done / c1 c0 T last 32 -
deliver 22 = done / c2 c0 T last 32 -
deliver 23 = done
deliver 24 = done / c0 c0 T begin 32 A / c0 c1 T begin 32 A / c0 c2 T begin 32 A
deliver 26 = done / c1 c0 T voted 32
deliver 27 = done / c2 c0 T voted 32
deliver 28 = done
deliver 29 = done / c0 c0 T success A / c0 c1 T success A / c0 c2 T success A
deliver 2 = nothing
respond 0 T = done / c0 a0 T above A from A calendar R R R R R R R R R R R R R Z8 *A
deliver 33 = done
ballot 0 T+1 = done / c0 c1 T+1 next 32
deliver 34 = done / c1 c0 T+1 last 32 in 16 Z
deliver 35 = done / c0 c1 T+1 begin 32 Z
deliver 36 = done / c1 c0 T+1 voted 32
deliver 37 = done / c0 c0 T+1 success Z / c0 c1 T+1 success Z / c0 c2 T+1 success Z
deliver 17 = done";

const CHANGING_ENDS: &str = "events 43 messages 41
settled 3 sealed T 1 A held T A sealed T+1 0 Z held T+1 Z held T+2 Z
settled 0 held T+2 Z
settled 0 sealed T+2 0 Z held T+2 Z
kept T A A 0
kept T+1 Z
kept T+2 Z
request 0 bytes 615 at T 1 1 from A at T 1 from A";

/// A plan, events and what they tell, and the state of the world behind them.
static WORLDS: [(&str, &str, &str); 3] = [
    // one voter decides for another core
    (ONE_VOTES, ONE_VOTER, ONE_VOTER_ENDS),
    // a core asks the voters of each second
    (OTHERS_VOTE, EACH_SECOND, EACH_SECOND_ENDS),
    // voters change twice while ballots are open
    (TWICE, CHANGING, CHANGING_ENDS),
];

#[test]
fn each_world_is_so(rt: HostRuntime) -> Result<(), Fail> {
    for (plan, rows, ends) in &WORLDS {
        are_so(&rt, rt.alloc(), plan, rows, ends)?;
    }
    Ok(())
}
