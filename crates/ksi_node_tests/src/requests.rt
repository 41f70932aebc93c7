//! Requests on their way to cores and back.
use crate::worlds::are_so;
use std::test::Fail;

/// One core, and two aggregators above one another.
const ONE: &str = "ksi-schedule 1
cores 1
start T
aggregator 0 parent c0
aggregator 1 parent a0";

/// A request on its way to a published root.
const ISSUED: &str = "request 0 T A = number 0
close 0 T = done / a0 c0 T A 0
deliver 0 = done
seal 0 T = done
ballot 0 T = done / c0 c0 T next 16
deliver 1 = done / c0 c0 T last 16 -
deliver 2 = done / c0 c0 T begin 16 A
deliver 3 = done / c0 c0 T voted 16
deliver 4 = done / c0 c0 T success A
respond 0 T = done / c0 a0 T above A from A calendar R R R R R R R R R R R R R Z8 *A
deliver 6 = done
publish 0 T = published *A
deliver 7 = nothing";

const ISSUED_ENDS: &str = "events 13 messages 7
settled 1 sealed T 1 A held T A
published T *A
kept T A A 0
request 0 bytes 615 at T 1 1 from A at T 1 from A";

/// A request of the lower aggregator, and one of the upper beside it. A response that comes again changes nothing.
const BELOW: &str = "request 1 T A = number 0
close 1 T = done / a1 a0 T A 0
deliver 0 = done
request 0 T B = number 1
close 0 T = done / a0 c0 T AB 1
deliver 1 = done
seal 0 T = done
ballot 0 T = done / c0 c0 T next 16
deliver 2 = done / c0 c0 T last 16 -
deliver 3 = done / c0 c0 T begin 16 AB
deliver 4 = done / c0 c0 T voted 16
deliver 5 = done / c0 c0 T success AB
respond 0 T = done / c0 a0 T above AB from AB calendar R R R R R R R R R R R R R Z8 *AB
deliver 7 = done / a0 a1 T above AB from A L 0 B from AB calendar R R R R R R R R R R R R R Z8 *AB
deliver 7 = nothing
deliver 8 = done
deliver 8 = nothing";

const BELOW_ENDS: &str = "events 17 messages 9
settled 1 sealed T 1 AB held T AB
kept T AB AB 1
request 0 bytes 709 at T 1 3 1 from A at T 1 3 from A L 0 B at T 1 from AB
request 1 bytes 652 at T 1 2 from B R 0 A at T 1 from AB";

/// One core, and two aggregators beside one another.
const BESIDE: &str = "ksi-schedule 1
cores 1
start T
aggregator 0 parent c0
aggregator 1 parent c0";

/// Two aggregators below one core, of which one submits again.
const TWO_BESIDE: &str = "request 0 T A = number 0
close 0 T = done / a0 c0 T A 0
deliver 0 = done
deliver 0 = known
request 1 T B = number 1
close 1 T = done / a1 c0 T B 0
deliver 1 = done
seal 0 T = done
ballot 0 T = done / c0 c0 T next 16
deliver 2 = done / c0 c0 T last 16 -
deliver 3 = done / c0 c0 T begin 16 AB
deliver 4 = done / c0 c0 T voted 16
deliver 5 = done / c0 c0 T success AB
respond 0 T = done / c0 a0 T above AB from A L 0 B calendar R R R R R R R R R R R R R Z8 *AB / c0 a1 T above AB from B R 0 A calendar R R R R R R R R R R R R R Z8 *AB
deliver 7 = done
deliver 8 = done";

const TWO_BESIDE_ENDS: &str = "events 16 messages 9
settled 1 sealed T 2 AB held T AB
kept T AB A 0 B 0
request 0 bytes 652 at T 3 1 from A at T 3 from A L 0 B
request 1 bytes 652 at T 2 1 from B at T 2 from B R 0 A";

/// What is open is lost by a restart, and what is closed is not. A submission that comes again is known, and late once the
/// round is sealed or closed.
const LATE: &str = "request 0 T A = number 0
restart a0 = done
close 0 T = done
request 0 T A = late
close 0 T = closed
request 0 T+1 A = number 1
close 0 T+1 = done / a0 c0 T+1 A 0
restart a0 = done
deliver 0 = done
deliver 0 = known
seal 0 T+1 = done
deliver 0 = late
request 1 T+2 A = number 2
request 1 T+2 B = number 3
close 1 T+2 = done / a1 a0 T+2 AB 1
deliver 1 = done
deliver 1 = known
close 0 T+2 = done / a0 c0 T+2 AB 1
deliver 1 = late
seal 0 T = done
ballot 0 T = done / c0 c0 T next 16
deliver 3 = done / c0 c0 T last 16 -
deliver 4 = done / c0 c0 T begin 16 Z
deliver 5 = done / c0 c0 T voted 16
deliver 6 = done / c0 c0 T success Z
ballot 0 T+1 = done / c0 c0 T+1 next 16
deliver 8 = done / c0 c0 T+1 last 16 -
deliver 9 = done / c0 c0 T+1 begin 16 A
deliver 10 = done / c0 c0 T+1 voted 16
deliver 11 = done / c0 c0 T+1 success A
respond 0 T+1 = done / c0 a0 T+1 above A from A calendar R R R R R R R R R R R R R R Z *ZA
deliver 13 = done";

const LATE_ENDS: &str = "events 32 messages 14
settled 2 sealed T 0 Z held T Z sealed T+1 1 A held T+1 A
kept T Z
kept T+1 A A 0
request 0
request 1 bytes 650 at T+1 1 1 from A at T+1 1 from A
request 2
request 3";

/// A plan, events and what they tell, and the state of the world behind them.
static WORLDS: [(&str, &str, &str); 4] = [
    // a request is decided issued and published
    (ONE, ISSUED, ISSUED_ENDS),
    // a response goes down the aggregators
    (ONE, BELOW, BELOW_ENDS),
    // each aggregator submits once and has its response
    (BESIDE, TWO_BESIDE, TWO_BESIDE_ENDS),
    // a restart forgets what is open
    (ONE, LATE, LATE_ENDS),
];

#[test]
fn each_world_is_so(rt: HostRuntime) -> Result<(), Fail> {
    for (plan, rows, ends) in &WORLDS {
        are_so(&rt, rt.alloc(), plan, rows, ends)?;
    }
    Ok(())
}
