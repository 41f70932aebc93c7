//! Ballots of one core and of three.
use crate::worlds::are_so;
use std::test::Fail;

/// One core, and two aggregators beside one another.
const BESIDE: &str = "ksi-schedule 1
cores 1
start T
aggregator 0 parent c0
aggregator 1 parent c0";

/// Behind the decision each row is as before.
const SETTLED: &str = "request 1 T B = number 0
close 1 T = done / a1 c0 T B 0
request 0 T A = number 1
close 0 T = done / a0 c0 T A 0
deliver 1 = done
seal 0 T = done
ballot 0 T = done / c0 c0 T next 16
deliver 2 = done / c0 c0 T last 16 -
deliver 3 = done / c0 c0 T begin 16 A
deliver 4 = done / c0 c0 T voted 16
deliver 5 = done / c0 c0 T success A
deliver 6 = nothing
tell 0 T = done / c0 c0 T success A
deliver 0 = late
seal 0 T = sealed
ballot 0 T = done / c0 c0 T next 32";

const SETTLED_ENDS: &str = "events 16 messages 9
settled 1 sealed T 1 A held T A
kept T A A 0
request 0
request 1";

/// One core, and two aggregators above one another.
const ONE: &str = "ksi-schedule 1
cores 1
start T
aggregator 0 parent c0
aggregator 1 parent a0";

/// The last of three seconds is missed first, and the second in between last.
const MISSING: &str = "respond 0 T+2 = unsealed
seal 0 T+2 = done
respond 0 T+2 = undecided T
seal 0 T = done
ballot 0 T = done / c0 c0 T next 16
deliver 0 = done / c0 c0 T last 16 -
deliver 1 = done / c0 c0 T begin 16 Z
deliver 2 = done / c0 c0 T voted 16
deliver 3 = done / c0 c0 T success Z
ballot 0 T+2 = done / c0 c0 T+2 next 16
deliver 5 = done / c0 c0 T+2 last 16 -
deliver 6 = done / c0 c0 T+2 begin 16 Z
deliver 7 = done / c0 c0 T+2 voted 16
deliver 8 = done / c0 c0 T+2 success Z
publish 0 T+2 = undecided T+1
respond 0 T+2 = undecided T+1
tell 0 T+1 = undecided T+1
seal 0 T+1 = done
ballot 0 T+1 = done / c0 c0 T+1 next 16
deliver 10 = done / c0 c0 T+1 last 16 -
deliver 11 = done / c0 c0 T+1 begin 16 Z
deliver 12 = done / c0 c0 T+1 voted 16
deliver 13 = done / c0 c0 T+1 success Z
respond 0 T+2 = not-mine
publish 0 T+2 = published *ZZZ";

const MISSING_ENDS: &str = "events 25 messages 15
settled 3 sealed T 0 Z held T Z sealed T+1 0 Z held T+1 Z sealed T+2 0 Z held T+2 Z
published T+2 *ZZZ
kept T Z
kept T+1 Z
kept T+2 Z";

/// Three cores and an aggregator.
const THREE: &str = "ksi-schedule 1
cores 3
start T
aggregator 0 parent c0";

/// The open items are forgotten, and the ballot in hand, but not that it was tried.
const RESTARTED: &str = "ballot 0 T = unsealed
request 0 T A = number 0
close 0 T = done / a0 c0 T A 0
deliver 0 = done
restart c0 = done
seal 0 T = done
ballot 0 T = done / c0 c0 T next 16 / c0 c1 T next 16 / c0 c2 T next 16
deliver 1 = done / c0 c0 T last 16 -
deliver 2 = done / c1 c0 T last 16 -
restart c0 = done
deliver 5 = nothing
deliver 4 = nothing
ballot 0 T = done / c0 c0 T next 32 / c0 c1 T next 32 / c0 c2 T next 32";

const RESTARTED_ENDS: &str = "events 13 messages 9
settled 0 sealed T 0 Z
settled 0
settled 0
request 0";

/// Core 1 promises ballot 16 and then 18: no vote comes in ballot 16.
const TWO_BALLOTS: &str = "seal 0 T = done
seal 2 T = done
ballot 0 T = done / c0 c0 T next 16 / c0 c1 T next 16 / c0 c2 T next 16
ballot 2 T = done / c2 c0 T next 18 / c2 c1 T next 18 / c2 c2 T next 18
deliver 0 = done / c0 c0 T last 16 -
deliver 1 = done / c1 c0 T last 16 -
deliver 6 = done
deliver 7 = done / c0 c0 T begin 16 Z / c0 c1 T begin 16 Z / c0 c2 T begin 16 Z
deliver 4 = done / c1 c2 T last 18 -
deliver 9 = nothing";

const TWO_BALLOTS_ENDS: &str = "events 10 messages 12
settled 0 sealed T 0 Z
settled 0
settled 0 sealed T 0 Z";

/// A LastVote and a Voted count once of each core.
const REPEATED: &str = "request 0 T A = number 0
close 0 T = done / a0 c0 T A 0
deliver 0 = done
seal 0 T = done
ballot 0 T = done / c0 c0 T next 16 / c0 c1 T next 16 / c0 c2 T next 16
deliver 1 = done / c0 c0 T last 16 -
deliver 2 = done / c1 c0 T last 16 -
deliver 3 = done / c2 c0 T last 16 -
deliver 5 = done
deliver 5 = nothing
deliver 4 = done / c0 c0 T begin 16 A / c0 c1 T begin 16 A / c0 c2 T begin 16 A
deliver 7 = done / c0 c0 T voted 16
deliver 8 = done / c1 c0 T voted 16
deliver 9 = done / c2 c0 T voted 16
deliver 12 = done
deliver 12 = nothing
deliver 11 = done / c0 c0 T success A / c0 c1 T success A / c0 c2 T success A
deliver 10 = done
deliver 13 = nothing
deliver 13 = nothing
deliver 14 = done";

const REPEATED_ENDS: &str = "events 21 messages 16
settled 1 sealed T 1 A held T A
settled 1 held T A
settled 0
kept T A A 0
request 0";

/// Core 1 voted in ballot 16, and core 2, with a candidate of its own, begins ballot 18 with that decree.
const TAKEN_OVER: &str = "request 0 T A = number 0
close 0 T = done / a0 c0 T A 0
deliver 0 = done
seal 0 T = done
seal 2 T = done
ballot 0 T = done / c0 c0 T next 16 / c0 c1 T next 16 / c0 c2 T next 16
deliver 1 = done / c0 c0 T last 16 -
deliver 2 = done / c1 c0 T last 16 -
deliver 4 = done
deliver 5 = done / c0 c0 T begin 16 A / c0 c1 T begin 16 A / c0 c2 T begin 16 A
deliver 7 = done / c1 c0 T voted 16
ballot 2 T = done / c2 c0 T next 18 / c2 c1 T next 18 / c2 c2 T next 18
deliver 11 = done / c1 c2 T last 18 in 16 A
deliver 13 = done
deliver 12 = done / c2 c2 T last 18 -
deliver 14 = done / c2 c0 T begin 18 A / c2 c1 T begin 18 A / c2 c2 T begin 18 A";

const TAKEN_OVER_ENDS: &str = "events 16 messages 18
settled 0 sealed T 1 A
settled 0
settled 0 sealed T 0 Z
request 0";

/// A plan, events and what they tell, and the state of the world behind them.
static WORLDS: [(&str, &str, &str); 6] = [
    // a settled second answers as before
    (BESIDE, SETTLED, SETTLED_ENDS),
    // what is missing is named
    (ONE, MISSING, MISSING_ENDS),
    // a restart forgets the ballot in hand
    (THREE, RESTARTED, RESTARTED_ENDS),
    // a lower ballot comes too late
    (THREE, TWO_BALLOTS, TWO_BALLOTS_ENDS),
    // repeats do not count
    (THREE, REPEATED, REPEATED_ENDS),
    // a reported vote is taken over
    (THREE, TAKEN_OVER, TAKEN_OVER_ENDS),
];

#[test]
fn each_world_is_so(rt: HostRuntime) -> Result<(), Fail> {
    for (plan, rows, ends) in &WORLDS {
        are_so(&rt, rt.alloc(), plan, rows, ends)?;
    }
    Ok(())
}
