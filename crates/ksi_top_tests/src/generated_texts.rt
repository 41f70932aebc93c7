use crate::rows::are_so;
use crate::same::same;
use crate::schedules::text_of;
use ksi_imprint::NoMemory;
use ksi_replay::generate;
use ksi_schedule::Event;
use std::alloc::Global;
use std::test::Fail;

// The first lines for number 7: its header, the requests that the first two hundred bytes of its stream say, and the
// rounds of the aggregators that these come to.
const FIRST: &str = "ksi-schedule 1
cores 3
start 1700000000
aggregator 0 parent c0
aggregator 1 parent c1
aggregator 2 parent c2
aggregator 3 parent a0
aggregator 4 parent a1
aggregator 5 parent a3
request 4 1700000000 615e7743551ad3e5cfa1b316019c667db5332452352da32206948cb6222d4f07
request 0 1700000000 cc0d74aa33023bfdfa08a8f7720652609411e8651c72230c04e8d6be6556c8e0
request 4 1700000000 d2a9681a217624ba068e3c07c8423d20a504ae3eb6980cf76917c245307d8046
request 3 1700000000 07dddac7b49719480002afa734df0bf6a773a56c6fffe3e7c3dae3837e7ec56e
close 5 1700000000
close 3 1700000000
deliver 0
close 4 1700000000
deliver 1
close 0 1700000000
deliver 2
close 1 1700000000
deliver 3
close 2 1700000000
seal 0 1700000000
seal 1 1700000000
seal 2 1700000000
ballot 1 1700000000
";

#[test]
fn the_text_of_seven_begins_so(rt: HostRuntime) {
    let begins = match text_of(rt.alloc(), "seven") {
        Some(text) => text.as_slice().starts_with(FIRST.as_bytes()),
        None => false,
    };
    same(&rt, "seven", begins, true);
}

/// How many events of the schedule of a number publish a second.
pub(crate) fn published(alloc: Global, number: u64) -> Result<usize, NoMemory> {
    let schedule = generate(alloc, number)?;
    let mut count: usize = 0;
    for event in schedule.events() {
        if matches!(event, Event::Publish(..)) {
            count = count.wrapping_add(1);
        }
    }
    Ok(count)
}

const PUBLISHED: &str = "publish 0 = 16
publish 7 = 16
publish 18446744073709551615 = 16";

#[test]
fn every_sixteenth_second_is_published(rt: HostRuntime) -> Result<(), Fail> {
    are_so(&rt, rt.alloc(), PUBLISHED)
}
