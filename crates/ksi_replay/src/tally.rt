/// What a drill counts.
#[derive(Clone, Copy, PartialEq, Eq)]
pub struct Tally {
    /// The kept seconds.
    pub seconds: u64,
    /// Those whose root is the zero imprint.
    pub missed: u64,
    /// The issued signatures.
    pub issued: u64,
    /// Those that are accepted, extended to the greatest covered second, against its root.
    pub accepted: u64,
    /// Those whose imprint the audit finds as a node of the kept tree of their second.
    pub inside: u64,
    /// Those whose imprint the audit finds beneath an item of that tree.
    pub beneath: u64,
}
