ghost use Rattle.std.specs.Prelude.{◌≡◌, ◌≢◌, ◌≤◌, Some, Err, OnOk, OnErr, true, false};
ghost use Rattle.ksi_ports.specs.Outside.{LoadCalls, LoadTakes, SaveCalls, SavesCounted};
ghost use Rattle.ksi_ports.specs.Memory.{LoadAnswers, up_to};
ghost use Rattle.ksi_ports.specs.Sure.{empty_where_none, no_sure_files, after_sure_load, after_sure_save, with_newest_sure};
ghost use Rattle.ksi_ports.specs.declared.files.LoadRefusal.TheVariants as loads;
ghost use Rattle.ksi_ports.specs.declared.files.SaveRefusal.TheVariants as saves;

use crate::entries::{Entry, bytes_at, copied_up_to, put_first};
use crate::{Counts, Files, LoadRefusal, SaveRefusal};
use ksi_imprint::{Bytes, NoMemory};
use std::alloc::Global;
use std::marker::Model;

/// Files in memory whose calls do not fail. A name that is not held reads as empty.
#[derive(Drop)]
pub struct SureFiles {
    alloc: Global,
    // the newest first: it counts
    entries: Vec<Entry>,
    counts: Counts,
}

impl Model for SureFiles {
    ghost use Rattle.ksi_ports.specs.Sure.{SureStored};

    ghost Value = { SureStored };

    ghost view = { λ files. record { entries = files.entries.items; counts = files.counts } };
}

impl SureFiles {
    /// Holds nothing, so that each name reads as empty.
    pub fn new(alloc: Global) -> Self
        ensures { result ≡ no_sure_files }
    {
        SureFiles {
            alloc,
            entries: Vec::new(alloc),
            counts: Counts::NONE,
        }
    }

    /// What a name reads as.
    pub fn bytes(&self, name: &str) -> &[u8]
        ensures { empty_where_none self.now.entries name.now ≡ Some result.now }
    {
        match bytes_at(&self.entries, name) {
            Some(bytes) => bytes.as_slice(),
            None => &[],
        }
    }

    /// What was counted of the calls, but for those that lacked memory.
    pub fn counts(&self) -> Counts
        ensures { result ≡ self.now.counts }
    {
        self.counts
    }

    /// Makes these the bytes of the file. This is no call that is counted.
    pub fn hold(&mut self, name: &str, bytes: &[u8]) -> Result<(), NoMemory>
        ensures ok { OnOk result (self.new ≡ with_newest_sure self.old name.now bytes.now) }
        ensures no_memory { OnErr result (self.new ≡ self.old) }
    {
        put_first(self.alloc, &mut self.entries, name, bytes)
    }
}

impl Files for SureFiles {
    ghost tells = { true };

    ghost held = { λ files. empty_where_none files.entries };

    ghost calls = { λ files. files.counts.calls };

    ghost saves = { λ files. files.counts.saves };

    ghost faults = { λ _. 0 };

    ghost load_faults = { λ _. 0 };

    ghost taken = { λ files. files.counts.taken };

    ghost last_taken = { λ files. files.counts.last_taken };

    fn load(&mut self, alloc: Global, name: &str, most: usize) -> Result<Bytes, LoadRefusal>
        ensures later { self.old.counts.calls ≤ self.new.counts.calls }
        ensures called { LoadCalls self.old.counts.calls self.new.counts.calls result }
        ensures taken { LoadTakes most self.old.counts.taken self.new.counts.taken result }
        ensures last { LoadTakes most 0 self.new.counts.last_taken result }
        ensures sure { result ≢ Err loads.Failed }
        ensures answers { LoadAnswers (up_to most (empty_where_none self.old.entries name.now)) result }
        ensures after { self.new ≡ after_sure_load self.old most result }
    {
        let answer = copied_up_to(alloc, self.bytes(name), most);
        self.counts.count_load(most, &answer);
        answer
    }

    fn save(&mut self, alloc: Global, name: &str, bytes: &[u8]) -> Result<(), SaveRefusal>
        ensures later { self.old.counts.calls ≤ self.new.counts.calls }
        ensures called { SaveCalls self.old.counts.calls self.new.counts.calls result }
        ensures saved { SavesCounted self.old.counts.saves self.new.counts.saves result }
        ensures sure { result ≢ Err saves.Failed }
        ensures after { self.new ≡ after_sure_save self.old name.now bytes.now result }
    {
        let mut counts = self.counts;
        counts.count_save();
        put_first(alloc, &mut self.entries, name, bytes)?;
        self.counts = counts;
        Ok(())
    }
}
