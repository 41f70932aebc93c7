//! A write-ahead log whose records survive a crash whole or not at all; and the disk below it, as a trait that states what a
//! crash may leave, with one implementation in memory and one over a file of the system.
//!
//! The layers above rely on three properties of a [`Disk`]. A read returns what was written. The states in which a crash may
//! leave the disk are a set of byte lists, its images: a write, failed or not, may be torn in each of them until a sync
//! succeeds, and then the bytes that a read returns are the only image. `DiskFailed` is returned only if the count of faults
//! rose, and every other result leaves that count unchanged.
//!
//! A [`MemDisk`] can be given a list of calls that fail. A call also fails if a write finds no space or no call is left. Without
//! such a list it reports how much it still accepts. It states its images at each moment of its calls.
//!
//! Each call of a [`HostDisk`] does one thing to the file and notes it in a list that only contracts read. The clauses on its
//! content and images are proved from these notes, by the definitions that the disk in memory uses. Two things are premises,
//! not proved: that each body makes the call that it notes, and that the system keeps what it has synced. The bodies are
//! `holding`, `write_on` and `sync_on`, of a few lines each.
//!
//! A log is a header of a given length, then records: a commit byte (called gate in the code), a length in four bytes, the most
//! significant first, and the content. Commit byte 1 is open, any other is closed. After the last record comes a closed one.
//! The bytes after the first closed commit byte are not looked at, and the next record overwrites them.
//!
//! The layers above rely on three properties of a log. The result of reading a file is a function of its bytes: the records up
//! to the first commit byte that is not open, and whether that one is closed or the file is broken there. After a crash at any
//! moment of [`GateLog::append`], each image opens to the records before it, with or without the new one; after Ok each image
//! has it. `DiskFailed` is returned only if the disk's count of faults rose, and then the log is spent: the file must be opened
//! again. [`open_log`] is [`settle`], [`read_log`] and [`GateLog::new`], for a layer that checks the header between the first
//! two. The contents read are in two blocks of memory ([`Records`]), not in one block for each record.
//!
//! ```text
//! let disk = MemDisk::new(alloc, b"", 100, 4, failing)?;
//! let mut opened = open_log(alloc, disk, 18)?;
//! let mut record = Record::with_room(alloc, 3)?;
//! record.put(b"abc");
//! opened.log.append(record)?;
//! ```
#![tactic(auto)]

mod appending;
mod disk;
mod draft;
mod ending;
mod fate;
mod front;
mod host_disk;
pub mod laws;
mod log;
mod marks;
mod mem_disk;
mod opened;
mod opening;
mod overwrite;
mod parts;
mod read;
mod record;
mod records;
mod refusal;
mod replay;
mod settling;
mod through;

pub use disk::{Disk, DiskFailed};
pub use draft::Record;
pub use ending::Ending;
pub use fate::Fate;
pub use host_disk::HostDisk;
pub use log::GateLog;
pub use mem_disk::MemDisk;
pub use opened::{OpenRefusal, Opened};
pub use opening::open_log;
pub use read::{LogRead, read_log};
pub use records::Records;
pub use refusal::ReadRefusal;
pub use settling::settle;
pub use through::write_through;
