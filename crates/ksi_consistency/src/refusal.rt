use ksi_imprint::Imprint;

/// Why a list of imprints is no front of the calendar of one root in that of another.
#[derive(Clone, Copy, PartialEq, Eq)]
pub enum FrontRefusal {
    /// F1: so many imprints are needed, and so many are given.
    Length { needed: usize, given: usize },
    /// F2: the imprints lead to another old root than the given one.
    OldDiffers { computed: Imprint, given: Imprint },
    /// F3: the imprints lead to another new root than the given one.
    NewDiffers { computed: Imprint, given: Imprint },
}
