// Texts of schedules, by their names.
use ksi_imprint::Bytes;
use ksi_replay::generate;
use ksi_schedule::print;
use std::alloc::Global;

// No event.
const IDLE: &str = "ksi-schedule 1
cores 1
start 1700000000
";

// A missed second.
const MISSED: &str = "ksi-schedule 1
cores 1
start 1700000000
seal 0 1700000000
ballot 0 1700000000
deliver 0
deliver 1
deliver 2
deliver 3
";

// A second that is sealed and not decided.
const OPEN: &str = "ksi-schedule 1
cores 1
start 1700000000
seal 0 1700000000
ballot 0 1700000000
";

// A request on its way to a published root.
const SIGNED: &str = "ksi-schedule 1
cores 1
start 1700000000
aggregator 0 parent c0
request 0 1700000000 e3b0c44298fc1c149afbf4c8996fb92427ae41e4649b934ca495991b7852b855
close 0 1700000000
deliver 0
seal 0 1700000000
ballot 0 1700000000
deliver 1
deliver 2
deliver 3
deliver 4
respond 0 1700000000
deliver 6
publish 0 1700000000
";

// A second that one voter decides for another core.
const ONE_VOTES: &str = "ksi-schedule 2
cores 3
start 1700000000
members 1700000000 c1
seal 0 1700000000
ballot 0 1700000000
deliver 0
deliver 1
deliver 2
deliver 3
";

// The request of `SIGNED` under an aggregator with a name.
const NAMED: &str = "ksi-schedule 2
cores 1
start 1700000000
aggregator 0 parent c0 name bob
request 0 1700000000 e3b0c44298fc1c149afbf4c8996fb92427ae41e4649b934ca495991b7852b855
close 0 1700000000
deliver 0
seal 0 1700000000
ballot 0 1700000000
deliver 1
deliver 2
deliver 3
deliver 4
respond 0 1700000000
deliver 6
publish 0 1700000000
";

// The same request until its second is decided.
const DECIDED: &str = "ksi-schedule 1
cores 1
start 1700000000
aggregator 0 parent c0
request 0 1700000000 e3b0c44298fc1c149afbf4c8996fb92427ae41e4649b934ca495991b7852b855
close 0 1700000000
deliver 0
seal 0 1700000000
ballot 0 1700000000
deliver 1
deliver 2
deliver 3
deliver 4
";

/// The text of a name, where memory is left. The one of `seven` is made for number 7.
pub(crate) fn text_of(alloc: Global, name: &str) -> Option<Bytes> {
    match name {
        "seven" => print(alloc, &generate(alloc, 7).ok()?).ok(),
        name => Bytes::copy_of(alloc, by_hand(name).as_bytes()).ok(),
    }
}

static TEXTS: [(&str, &str); 6] = [
    ("missed", MISSED),
    ("open", OPEN),
    ("signed", SIGNED),
    ("decided", DECIDED),
    ("one_votes", ONE_VOTES),
    ("named", NAMED),
];

fn by_hand(name: &str) -> &'static str {
    for (known, text) in &TEXTS {
        if *known == name {
            return *text;
        }
    }
    IDLE
}
