/// What becomes of one issued signature.
#[derive(Clone, Copy, PartialEq, Eq)]
pub struct Trial {
    /// It is accepted.
    pub accepted: bool,
    /// The audit finds its imprint as a node of the kept tree.
    pub inside: bool,
    /// The audit finds its imprint beneath an item of the kept tree.
    pub beneath: bool,
}

impl Trial {
    /// Of which nothing is said.
    pub const SILENT: Trial = Trial {
        accepted: false,
        inside: false,
        beneath: false,
    };
}
