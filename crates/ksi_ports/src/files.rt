ghost use Rattle.std.specs.Prelude.{◌≡◌, ℕ, ◌≤◌, Bool, IsTrue, List, length, IfOk};
ghost use Rattle.ksi_ports.specs.Stored.{Held};
ghost use Rattle.ksi_ports.specs.Outside.{LoadCalls, LoadCounts, LoadLacks, LoadTakes, LoadTells, SaveCalls, SaveCounts, SaveLeaves, SavesCounted};

use ksi_imprint::{Bytes, NoMemory};
use std::alloc::Global;

/// Why a load gave no bytes.
#[derive(Clone, Copy, Debug, PartialEq, Eq)]
pub enum LoadRefusal {
    /// The file could not be read, and the count of faults rose.
    Failed,
    /// The file has more bytes than were allowed.
    TooLong,
    /// Memory ran out.
    NoMemory,
}

impl From<NoMemory> for LoadRefusal {
    ghost use Rattle.std.specs.Prelude.{◌≡◌};
    ghost use Rattle.ksi_ports.specs.declared.files.LoadRefusal.TheVariants.{NoMemory};

    ghost from_gives = { λ _ refusal. refusal ≡ NoMemory };

    fn from(_: NoMemory) -> Self {
        LoadRefusal::NoMemory
    }
}

/// Why a save did not save.
#[derive(Clone, Copy, Debug, PartialEq, Eq)]
pub enum SaveRefusal {
    /// The file could not be written, and the count of faults rose. What it holds is unknown.
    Failed,
    /// Memory ran out. No file changed.
    NoMemory,
}

impl From<NoMemory> for SaveRefusal {
    ghost use Rattle.std.specs.Prelude.{◌≡◌};
    ghost use Rattle.ksi_ports.specs.declared.files.SaveRefusal.TheVariants.{NoMemory};

    ghost from_gives = { λ _ refusal. refusal ≡ NoMemory };

    fn from(_: NoMemory) -> Self {
        SaveRefusal::NoMemory
    }
}

/// Files by their names.
///
/// The counts of calls, of saves and of faults and the tally of bytes never fall. They stop at 2^64 - 1, where one counts
/// as risen by any number.
pub trait Files {
    /// Whether this kind of files tells what it holds.
    ghost tells: { Bool };

    /// What is held under each name.
    ghost held: { Self → Held };

    /// How often a load or a save was called.
    ghost calls: { Self → ℕ };

    /// How often a save was called. One that lacks memory is left out.
    ghost saves: { Self → ℕ };

    /// How often a call failed.
    ghost faults: { Self → ℕ };

    /// How often a load failed.
    ghost load_faults: { Self → ℕ };

    /// How many bytes were taken from files.
    ghost taken: { Self → ℕ };

    /// How many bytes the last load took.
    ghost last_taken: { Self → ℕ };

    /// The bytes of a file that has at most `most` of them.
    ///
    /// # Errors
    ///
    /// `Failed` if the file could not be read: the counts of faults and of failed loads rise. `TooLong` if it has more
    /// than `most` bytes: `most + 1` were taken. `NoMemory` if memory ran out: the call may be missing from the count of
    /// calls. No load takes more than `most + 1` bytes.
    fn load(&mut self, alloc: Global, name: &str, most: usize) -> Result<Bytes, LoadRefusal>
        ensures later { calls self.old ≤ calls self.new }
        ensures called { LoadCalls (calls self.old) (calls self.new) result }
        ensures counted { LoadCounts (faults self.old) (faults self.new) result }
        ensures failed { LoadCounts (load_faults self.old) (load_faults self.new) result }
        ensures unsaved { saves self.new ≡ saves self.old }
        ensures taken { LoadTakes most (taken self.old) (taken self.new) result }
        ensures last { LoadTakes most 0 (last_taken self.new) result }
        ensures within { IfOk result (λ bytes. length bytes ≤ most) }
        ensures told { IsTrue tells → LoadTells most (held self.old name.now) result }
        ensures lacks { IsTrue tells → LoadLacks most (held self.old name.now) (calls self.old) (calls self.new) result }
        ensures stays { held self.new ≡ held self.old };

    /// Makes these the bytes of the file, which need not have existed.
    ///
    /// # Errors
    ///
    /// `Failed` if the file could not be written: the count of faults rises, and the content of the file is unknown.
    /// `NoMemory` if memory ran out: nothing is written, and the call may be missing from the count of calls.
    fn save(&mut self, alloc: Global, name: &str, bytes: &[u8]) -> Result<(), SaveRefusal>
        ensures later { calls self.old ≤ calls self.new }
        ensures called { SaveCalls (calls self.old) (calls self.new) result }
        ensures saved { SavesCounted (saves self.old) (saves self.new) result }
        ensures counted { SaveCounts (faults self.old) (faults self.new) result }
        ensures unloaded { load_faults self.new ≡ load_faults self.old }
        ensures taken { taken self.new ≡ taken self.old }
        ensures last { last_taken self.new ≡ last_taken self.old }
        ensures leaves { IsTrue tells → SaveLeaves name.now bytes.now (held self.old) (held self.new) result };
}
