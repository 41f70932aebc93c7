//! The words of a command line: the command that they ask for, with its number and hash words read.
//!
//! Each command is a row of a table: its name, and the words after it, each a file, a hash, a number, a time or a seed.
//! `clap` parses by a grammar that is built from the rows. The layers above may rely on this: [`command`] returns exactly
//! the command that the words ask for, by the definition `command_of`. It refuses words that have no command's form, and
//! otherwise reports the first word that is no number, hash or seed. It may run out of memory. [`number`], [`time`],
//! [`hash`] and [`seed`] read one word and allocate nothing.
//!
//! ```text
//! match command(alloc, &words) {
//!     Ok(command) => perform(&command),
//!     Err(Refused::Fault(WordsRefusal::Words)) => say("words refused"),
//!     Err(Refused::Fault(WordsRefusal::BadWord(n))) => say_of("bad word", n),
//!     Err(Refused::NoMemory) => {}
//! }
//! ```
#![tactic(auto)]

mod asked;
mod grammar;
mod table;
mod values;
mod words;

pub use asked::{Command, WordsRefusal};
pub use values::{hash, number, seed, time};
pub use words::command;
