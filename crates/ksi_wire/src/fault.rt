ghost use Rattle.std.specs.Prelude.{◌≡◌};
ghost use Rattle.ksi_wire.specs.Refused.{fault_word};

/// Why a line is refused.
#[derive(Clone, Copy, Debug, PartialEq, Eq)]
pub enum WireFault {
    /// The line or the message of the vote has another form, or a word is missing.
    Word,
    /// A number is not 1 to 20 decimal digits below 2^64, or a count of seconds is not 1 to 1,024.
    Number,
    /// A hash is not 64 hex digits.
    Hash,
    /// The core is not in the plan, or the aggregator does not submit to this node.
    Actor,
    /// The second is not one of the plan's.
    Second,
    /// The ballot is below 16 or from 2^36 on, or of no core of the plan.
    Ballot,
    /// The level is above 238.
    Level,
    /// The word is no name, or not that of the aggregator.
    Name,
    /// The response's word is no signature with chains above a round.
    Above,
    /// The line is not just as its event is printed.
    Spelling,
    /// The line is longer than [`MOST_LINE`](crate::MOST_LINE).
    Long,
    /// The number belongs to another request.
    Taken,
    /// The core forgot the second and keeps only its root.
    Forgotten,
}

impl WireFault {
    /// The word of the fault.
    pub fn word(&self) -> &'static [u8]
        ensures { result.now ≡ fault_word self.now }
    {
        match self {
            WireFault::Word => b"word",
            WireFault::Number => b"number",
            WireFault::Hash => b"hash",
            WireFault::Actor => b"actor",
            WireFault::Second => b"second",
            WireFault::Ballot => b"ballot",
            WireFault::Level => b"level",
            WireFault::Name => b"name",
            WireFault::Above => b"above",
            WireFault::Spelling => b"spelling",
            WireFault::Long => b"long",
            WireFault::Taken => b"taken",
            WireFault::Forgotten => b"forgotten",
        }
    }
}
