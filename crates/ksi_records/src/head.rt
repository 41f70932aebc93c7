use ksi_schedule::{Actor, Event};

/// What a step was given.
#[derive(Clone, Copy)]
pub enum Given {
    /// A line that no node sent, as the event that it asks for. Where it is a request, its number in the run.
    Line(u64, Event),
    /// A message: the step that sent it, and its place among the messages of that step, counted from 0.
    Message(u64, u64),
}

/// The first line of an entry.
#[derive(Clone, Copy)]
pub enum Head {
    /// A step, whose block follows.
    Said(Given),
    /// A step that happened and whose reply was lost. No block follows.
    Unsaid(Given),
    /// A node was started again. No block follows.
    Restarted(Actor),
    /// No step: the signature of the request that this step accepted was asked for. Its block follows.
    Sign(u64),
}
