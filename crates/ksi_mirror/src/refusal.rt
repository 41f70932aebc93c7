use ksi_imprint::Imprint;

/// Why two mirrors are not merged.
#[derive(Clone, Copy, PartialEq, Eq, Debug)]
pub enum MergeRefusal {
    /// M1: they start with different seconds, these.
    Starts(u64, u64),
    /// M2: this is the least second for which they have something different, and its roots are these.
    Conflict(u64, Imprint, Imprint),
    /// M3: this is the least second for which they have something different; its roots are not, but the lists of this core,
    /// the lowest such, which differ at this place first.
    Trees(u64, u8, usize),
}

/// Why the journal of a mirror is not made.
#[derive(Clone, Copy, PartialEq, Eq, Debug)]
pub enum WholeRefusal {
    /// M4: the first second whose root is not the zero imprint, and of no sealed list's tree.
    NoTree(u64),
}
