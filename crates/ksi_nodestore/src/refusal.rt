use ksi_disk::{DiskFailed, ReadRefusal};
use ksi_imprint::NoMemory;

/// Why a node file was not opened.
#[derive(Clone, Copy, Debug, PartialEq, Eq)]
pub enum OpenRefusal {
    /// The disk failed, and its count of faults rose.
    Failed,
    /// The magic or 18 bytes are not there.
    NotFormatted,
    /// The header is another core's, or one of another plan: its core, number of cores and start.
    Foreign(u8, u8, u64),
    /// The file is broken: the place of the gate of a record that is no lawful fact's or is cut off, or where a gate is missing.
    Malformed(u64),
    /// Memory ran out.
    NoMemory,
}

/// Why a store did not take an event.
#[derive(Clone, Copy, Debug, PartialEq, Eq)]
pub enum TakeRefusal {
    /// The disk failed, and its count of faults rose. The store is spent.
    Failed,
    /// The disk failed at an earlier event: its file is to be opened again.
    Spent,
    /// Memory ran out.
    NoMemory,
}

impl From<NoMemory> for TakeRefusal {
    ghost use Rattle.std.specs.Prelude.{◌≡◌};
    ghost use Rattle.ksi_nodestore.specs.declared.refusal.TakeRefusal.TheVariants.{NoMemory};

    ghost from_gives = { λ _ refusal. refusal ≡ NoMemory };

    fn from(_: NoMemory) -> Self {
        TakeRefusal::NoMemory
    }
}

impl From<DiskFailed> for TakeRefusal {
    ghost use Rattle.std.specs.Prelude.{◌≡◌};
    ghost use Rattle.ksi_nodestore.specs.declared.refusal.TakeRefusal.TheVariants.{Failed};

    ghost from_gives = { λ _ refusal. refusal ≡ Failed };

    fn from(_: DiskFailed) -> Self {
        TakeRefusal::Failed
    }
}

impl From<NoMemory> for OpenRefusal {
    ghost use Rattle.std.specs.Prelude.{◌≡◌};
    ghost use Rattle.ksi_nodestore.specs.declared.refusal.OpenRefusal.TheVariants.{NoMemory};

    ghost from_gives = { λ _ refusal. refusal ≡ NoMemory };

    fn from(_: NoMemory) -> Self {
        OpenRefusal::NoMemory
    }
}

impl From<DiskFailed> for OpenRefusal {
    ghost use Rattle.std.specs.Prelude.{◌≡◌};
    ghost use Rattle.ksi_nodestore.specs.declared.refusal.OpenRefusal.TheVariants.{Failed};

    ghost from_gives = { λ _ refusal. refusal ≡ Failed };

    fn from(_: DiskFailed) -> Self {
        OpenRefusal::Failed
    }
}

impl From<ReadRefusal> for OpenRefusal {
    ghost use Rattle.std.specs.Prelude.{◌≡◌};
    ghost use Rattle.ksi_disk.specs.declared.refusal.ReadRefusal.{ReadRefusal};
    ghost use Rattle.ksi_nodestore.specs.Refusals.{as_refusal};

    ghost from_gives = { λ read refusal. refusal ≡ as_refusal read };

    fn from(refusal: ReadRefusal) -> Self {
        match refusal {
            ReadRefusal::Failed => OpenRefusal::Failed,
            ReadRefusal::NoMemory => OpenRefusal::NoMemory,
        }
    }
}
