//! Logs of nodes that forget, as laws: nothing here runs.
//!
//! A log says what a node took, what it answered and sent, and when its process was started again; and here also when it was
//! started over a compacted file (`specs/Logs`, `specs/RoundLogs`). The layers above may rely on this: if the log of each node
//! agrees with the rows of the node alone, with all that it forgot, then all logs together are those of one history of nodes that
//! forgot nothing. So whatever holds after every history holds of them, and two cores that hold a root for a second hold the same.
#![tactic(auto)]

pub mod laws;
