//! Requests and aggregators with names.
use crate::worlds::are_so;
use std::test::Fail;

/// One aggregator whose name is `bob`.
const BOB: &str = "ksi-schedule 2
cores 1
start T
aggregator 0 parent c0 name bob";

/// A request without a name: the chain of the core has a link for the name of the aggregator.
const UNNAMED: &str = "request 0 T A = number 0
close 0 T = done / a0 c0 T A 0 bob
deliver 0 = done
seal 0 T = done
ballot 0 T = done / c0 c0 T next 16
deliver 1 = done / c0 c0 T last 16 -
deliver 2 = done / c0 c0 T begin 16 A.bob
deliver 3 = done / c0 c0 T voted 16
deliver 4 = done / c0 c0 T success A.bob
respond 0 T = done / c0 a0 T above A.bob from A L 0 m.bob calendar R R R R R R R R R R R R R Z8 *A.bob
deliver 6 = done";

const UNNAMED_ENDS: &str = "events 11 messages 7
settled 1 sealed T 1 A.bob held T A.bob
kept T A.bob A 0 bob
request 0 bytes 629 at T 3 1 from A at T 3 from A L 0 m.bob";

/// The same with a name, for which the own chain has a link.
const NAMED: &str = "request 0 T A al = number 0
close 0 T = done / a0 c0 T A.al 1 bob
deliver 0 = done
seal 0 T = done
ballot 0 T = done / c0 c0 T next 16
deliver 1 = done / c0 c0 T last 16 -
deliver 2 = done / c0 c0 T begin 16 A.al.bob
deliver 3 = done / c0 c0 T voted 16
deliver 4 = done / c0 c0 T success A.al.bob
respond 0 T = done / c0 a0 T above A.al.bob from A.al L 0 m.bob calendar R R R R R R R R R R R R R Z8 *A.al.bob
deliver 6 = done";

const NAMED_ENDS: &str = "events 11 messages 7
settled 1 sealed T 1 A.al.bob held T A.al.bob
kept T A.al.bob A.al 1 bob
request 0 bytes 641 at T 3 3 from A L 0 m.al at T 3 from A.al L 0 m.bob";

#[test]
fn a_name_is_a_link_of_the_chain_above(rt: HostRuntime) -> Result<(), Fail> {
    are_so(&rt, rt.alloc(), BOB, UNNAMED, UNNAMED_ENDS)?;
    are_so(&rt, rt.alloc(), BOB, NAMED, NAMED_ENDS)
}

/// Three above one another: the middle one has no name.
const CASCADE: &str = "ksi-schedule 2
cores 1
start T
aggregator 0 parent c0 name bob
aggregator 1 parent a0
aggregator 2 parent a1 name al";

/// A request without a name of the lowest aggregator.
const UNNAMED_BELOW: &str = "request 2 T A = number 0
close 2 T = done / a2 a1 T A 0 al
deliver 0 = done
close 1 T = done / a1 a0 T A.al 1
deliver 1 = done
close 0 T = done / a0 c0 T A.al 1 bob
deliver 2 = done
seal 0 T = done
ballot 0 T = done / c0 c0 T next 16
deliver 3 = done / c0 c0 T last 16 -
deliver 4 = done / c0 c0 T begin 16 A.al.bob
deliver 5 = done / c0 c0 T voted 16
deliver 6 = done / c0 c0 T success A.al.bob
respond 0 T = done / c0 a0 T above A.al.bob from A.al L 0 m.bob calendar R R R R R R R R R R R R R Z8 *A.al.bob
deliver 8 = done / a0 a1 T above A.al.bob from A.al from A.al L 0 m.bob calendar R R R R R R R R R R R R R Z8 *A.al.bob
deliver 9 = done / a1 a2 T above A.al.bob from A L 0 m.al from A.al from A.al L 0 m.bob calendar R R R R R R R R R R R R R Z8 *A.al.bob
deliver 10 = done";

const UNNAMED_BELOW_ENDS: &str = "events 17 messages 11
settled 1 sealed T 1 A.al.bob held T A.al.bob
kept T A.al.bob A.al 1 bob
request 0 bytes 758 at T 3 1 3 1 from A at T 3 1 3 from A L 0 m.al at T 3 1 from A.al at T 3 from A.al L 0 m.bob";

/// The same with a name.
const NAMED_BELOW: &str = "request 2 T A Z.9_-x = number 0
close 2 T = done / a2 a1 T A.Z 1 al
deliver 0 = done
close 1 T = done / a1 a0 T A.Z.al 2
deliver 1 = done
close 0 T = done / a0 c0 T A.Z.al 2 bob
deliver 2 = done
seal 0 T = done
ballot 0 T = done / c0 c0 T next 16
deliver 3 = done / c0 c0 T last 16 -
deliver 4 = done / c0 c0 T begin 16 A.Z.al.bob
deliver 5 = done / c0 c0 T voted 16
deliver 6 = done / c0 c0 T success A.Z.al.bob
respond 0 T = done / c0 a0 T above A.Z.al.bob from A.Z.al L 0 m.bob calendar R R R R R R R R R R R R R Z8 *A.Z.al.bob
deliver 8 = done / a0 a1 T above A.Z.al.bob from A.Z.al from A.Z.al L 0 m.bob calendar R R R R R R R R R R R R R Z8 *A.Z.al.bob
deliver 9 = done / a1 a2 T above A.Z.al.bob from A.Z L 0 m.al from A.Z.al from A.Z.al L 0 m.bob calendar R R R R R R R R R R R R R Z8 *A.Z.al.bob
deliver 10 = done";

const NAMED_BELOW_ENDS: &str = "events 17 messages 11
settled 1 sealed T 1 A.Z.al.bob held T A.Z.al.bob
kept T A.Z.al.bob A.Z.al 2 bob
request 0 bytes 774 at T 3 1 3 3 from A L 0 m.Z at T 3 1 3 from A.Z L 0 m.al at T 3 1 from A.Z.al at T 3 from A.Z.al L 0 m.bob";

#[test]
fn each_aggregator_puts_its_name_on_what_it_submits(rt: HostRuntime) -> Result<(), Fail> {
    are_so(&rt, rt.alloc(), CASCADE, UNNAMED_BELOW, UNNAMED_BELOW_ENDS)?;
    are_so(&rt, rt.alloc(), CASCADE, NAMED_BELOW, NAMED_BELOW_ENDS)
}
