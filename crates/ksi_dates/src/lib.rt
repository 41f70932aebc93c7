//! Dates of seconds of Unix time, as HTTP and ISO 8601 write them.
//!
//! Dates are those of the Gregorian calendar in UTC, by its count of days. The layer above may rely on this: [`push_date`] and
//! [`push_basic_date`] append exactly the date of the second, from the year 1970 to the year 9999.
//!
//! ```text
//! push_date(&mut text, 1_700_000_000)?; // Tue, 14 Nov 2023 22:13:20 GMT
//! push_basic_date(&mut text, 1_700_000_000)?; // 20231114T221320Z
//! ```
#![tactic(auto)]

mod basic;
mod dates;

pub use basic::push_basic_date;
pub use dates::push_date;
