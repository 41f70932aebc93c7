//! The bounds of seconds. Each has one name here, which the crates of the nodes and of schedules use.

/// The first number that is too late for a time: 2^63. Times of files have the same bound.
pub const TOO_LATE: u64 = 9_223_372_036_854_775_808;

/// How many seconds a plan has, from its start on: 2^24.
pub const PLAN_SECONDS: u64 = 16_777_216;
