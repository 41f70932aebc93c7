//! The files and the output that a run borrows: traits that count calls and faults, and implementations in memory and over
//! std.
//!
//! The layers above rely on four things. First, if contents are known, a load that returns bytes returns exactly those that
//! the name has, a save changes only those, and a put appends its piece, or a prefix of it if it fails. Second, `Failed`
//! and `SinkFailed` occur only if the count of faults rose, and every other result leaves it unchanged; failed loads also
//! have a count of their own. Third, the count `taken` rises by the number of bytes that a load returns, by one more than
//! the limit for a load that is `TooLong`, and never by more than that. Fourth, each load, save and put raises its count of
//! calls by one; a load or save that runs out of memory may leave it. Saves that did not run out of memory have a count of
//! their own, as have the bytes given to puts and the bytes of the last load.
//!
//! A piece is at most as long as the sink is `free` for, which is a condition of each put. `MemFiles` and `MemSink` fail at
//! the calls that they are told to fail. `MemFiles` also fails if it does not have the name, and `MemSink` if the piece
//! exceeds its room. `SureFiles` and `SureSink` never fail: a missing name reads as empty there.
//!
//! ```text
//! let mut files = MemFiles::new(alloc, failing);
//! files.save(alloc, "name", b"content")?;
//! let bytes = files.load(alloc, "name", 7)?;
//! let mut out = MemSink::new(alloc, 32_767)?;
//! out.put(bytes.as_slice())?;
//! ```
#![tactic(auto)]

mod counts;
mod entries;
mod files;
mod host_files;
mod host_sink;
mod mem_files;
mod mem_sink;
mod sink;
mod sure_files;
mod sure_sink;

pub use counts::Counts;
pub use files::{Files, LoadRefusal, SaveRefusal};
pub use host_files::HostFiles;
pub use host_sink::HostSink;
pub use mem_files::MemFiles;
pub use mem_sink::MemSink;
pub use sink::{Sink, SinkFailed};
pub use sure_files::SureFiles;
pub use sure_sink::SureSink;
