ghost use Rattle.std.specs.Prelude.{◌≡◌, ◌≤◌};
ghost use Rattle.ksi_ports.specs.Outside.{LoadCalls, LoadCounts, LoadTakes};
ghost use Rattle.ksi_ports.specs.Memory.{counts_after_load, one_save};

use crate::LoadRefusal;
use ksi_imprint::Bytes;

/// What files count of their calls. Each count stops at 2^64 - 1.
#[derive(Clone, Copy, PartialEq, Eq, Debug)]
pub struct Counts {
    /// How many loads and saves there were.
    pub calls: u64,
    /// How many of them were saves.
    pub saves: u64,
    /// How many of them failed.
    pub faults: u64,
    /// How many loads failed.
    pub load_faults: u64,
    /// How many bytes were taken by loads.
    pub taken: u64,
    /// How many of them by the last load.
    pub last_taken: u64,
}

impl Counts {
    /// No call so far.
    pub(crate) const NONE: Counts = Counts {
        calls: 0,
        saves: 0,
        faults: 0,
        load_faults: 0,
        taken: 0,
        last_taken: 0,
    };

    /// Counts a load that gave this answer, and what it took.
    pub(crate) fn count_load(&mut self, most: usize, answer: &Result<Bytes, LoadRefusal>)
        ensures later { self.old.calls ≤ self.new.calls }
        ensures called { LoadCalls self.old.calls self.new.calls answer.now }
        ensures counted { LoadCounts self.old.faults self.new.faults answer.now }
        ensures failed { LoadCounts self.old.load_faults self.new.load_faults answer.now }
        ensures taken { LoadTakes most self.old.taken self.new.taken answer.now }
        ensures last { LoadTakes most 0 self.new.last_taken answer.now }
        ensures after { self.new ≡ counts_after_load self.old most answer.now }
    {
        let calls = self.calls.saturating_add(1);
        self.last_taken = 0;
        match answer {
            Ok(bytes) => self.last_taken = bytes.as_slice().len() as u64,
            Err(LoadRefusal::Failed) => {
                self.faults = self.faults.saturating_add(1);
                self.load_faults = self.load_faults.saturating_add(1);
            }
            Err(LoadRefusal::TooLong) => self.last_taken = (most as u64).saturating_add(1),
            Err(LoadRefusal::NoMemory) => return,
        }
        self.calls = calls;
        self.taken = self.taken.saturating_add(self.last_taken);
    }

    /// Counts a save.
    pub(crate) fn count_save(&mut self)
        ensures later { self.old.calls ≤ self.new.calls }
        ensures after { self.new ≡ one_save self.old }
    {
        self.calls = self.calls.saturating_add(1);
        self.saves = self.saves.saturating_add(1);
    }
}
