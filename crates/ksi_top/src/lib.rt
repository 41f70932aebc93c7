//! The top call: one run of a command over borrowed files and a borrowed output.
//!
//! [`ksi`] loads the files that the words name, computes the command's report, saves its file and prints its line. The
//! report of a run is the definition `run` of the words and the contents of the files. The counts of faults state when a
//! run may report a fault. [`sure_run`] is the same over files and an output in memory that do not fail: there no run ends
//! with a fault.
//!
//! ```text
//! let mut files = HostFiles::new(&rt);
//! let mut out = HostSink::new(io::writer(&rt));
//! let status = ksi(rt.alloc(), &words, &mut files, &mut out);
//! ```
#![tactic(auto)]

mod audit;
mod block;
mod checkline;
mod compare;
mod completeness;
mod drill;
mod ending;
mod extend;
mod front;
mod histories;
mod inspect;
mod kept;
mod line_of;
mod loading;
mod locate;
mod log;
mod make;
mod merge;
mod migrate;
mod mirror;
mod node;
mod perform;
mod publish;
mod reading;
mod replay;
mod report;
mod sign;
mod status;
mod sure;
mod verify;
mod whole;

pub use ending::ksi;
pub use status::Status;
pub use sure::sure_run;
