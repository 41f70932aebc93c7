//! Cores and aggregators that keep their facts in files and crash: they have a history.
//!
//! A run is a list of deeds (`specs/Crashed`): events that were acknowledged; events in which a failure or a crash cut a core or
//! an aggregator off, whose store was then opened again; events that a node refused, because it was out of memory, say; and
//! rounds that an aggregator forgot, or seconds that a core forgot. The layers above may rely on this: the nodes after a run are those of a history, in which
//! each interrupted event happened or did not, and its node restarted. So whatever holds after every history holds of these
//! nodes (`histories_of_crashed_nodes_hold`). The number of a request is a live aggregator's own: its rounds are those of the
//! history under other numbers, but for those that it forgot (`specs/Aggregators`). A core's seconds are the history's, but for
//! those that it forgot, of which the roots are left (`specs/Cores`). Nothing here runs.
#![tactic(auto)]

pub mod cores;
pub mod laws;
