// Schedules of numbers, made, run and drilled.
use crate::script::plays;
use std::test::Fail;

const OF_SEVEN: &str =
    "text header ksi-schedule 1|cores 3|start 1700000000|aggregator 0 parent c0|aggregator 1 parent c1|aggregator 2 parent c2|aggregator 3 parent a0|aggregator 4 parent a1|aggregator 5 parent a3|
make 7 f = Done made 11012
replay f j = Done events 11012 messages 6289 seconds 256 issued 330 published 16
drill 7 = Done seconds 256 missed 91 issued 330 accepted 330 inside 71 beneath 259
drill 7 = Done seconds 256 missed 91 issued 330 accepted 330 inside 71 beneath 259
holds f 233840 header:";

#[test]
fn the_schedule_of_seven_is_made_run_and_drilled(rt: HostRuntime) -> Result<(), Fail> {
    plays(&rt, rt.alloc(), &[OF_SEVEN])
}
