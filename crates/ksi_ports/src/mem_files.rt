ghost use Rattle.std.specs.Prelude.{◌≡◌, ◌≤◌, OnOk, OnErr, option_copied, ◌∷◌, true};
ghost use Rattle.ksi_ports.specs.Outside.{LoadCalls, LoadCounts, LoadTakes, SaveCalls, SaveCounts, SavesCounted};
ghost use Rattle.ksi_ports.specs.Memory.{held_in, no_files, is_listed, load_answer, LoadAnswers, after_load, SaveAnswers, after_save, with_newest};

use crate::entries::{Entry, bytes_at, copied_up_to, put_first};
use crate::{Counts, Files, LoadRefusal, SaveRefusal};
use ksi_imprint::{Bytes, NoMemory};
use std::alloc::Global;
use std::marker::Model;

/// Files in memory, with a list of the calls that are to fail.
#[derive(Drop)]
pub struct MemFiles {
    alloc: Global,
    // the newest first: it counts
    entries: Vec<Entry>,
    failing: Vec<u64>,
    counts: Counts,
}

impl Model for MemFiles {
    ghost use Rattle.ksi_ports.specs.Memory.{StoredFiles};

    ghost Value = { StoredFiles };

    ghost view = { λ files. record {
      entries = files.entries.items;
      failing = files.failing.items;
      counts = files.counts;
    } };
}

impl MemFiles {
    /// Holds nothing. The calls of these numbers fail, loads and saves being counted together from 0.
    pub fn new(alloc: Global, failing: Vec<u64>) -> Self
        ensures { result ≡ no_files failing.items }
    {
        MemFiles {
            alloc,
            entries: Vec::new(alloc),
            failing,
            counts: Counts::NONE,
        }
    }

    /// What is held under a name.
    pub fn bytes(&self, name: &str) -> Option<&[u8]>
        ensures { option_copied result ≡ held_in self.now.entries name.now }
    {
        match bytes_at(&self.entries, name) {
            Some(bytes) => Some(bytes.as_slice()),
            None => None,
        }
    }

    /// What was counted of the calls, but for those that lacked memory.
    pub fn counts(&self) -> Counts
        ensures { result ≡ self.now.counts }
    {
        self.counts
    }

    /// Makes these the bytes of the file. This is no call that is counted.
    pub fn hold(&mut self, name: &str, bytes: &[u8]) -> Result<(), NoMemory>
        ensures ok { OnOk result (self.new ≡ with_newest self.old name.now bytes.now) }
        ensures no_memory { OnErr result (self.new ≡ self.old) }
    {
        put_first(self.alloc, &mut self.entries, name, bytes)
    }

    // What a load answers.
    fn look_up(&self, alloc: Global, name: &str, most: usize) -> Result<Bytes, LoadRefusal>
        ensures { LoadAnswers (load_answer self.now name.now most) result }
    {
        if self.failing.contains(&self.counts.calls) {
            return Err(LoadRefusal::Failed);
        }
        match bytes_at(&self.entries, name) {
            None => Err(LoadRefusal::Failed),
            Some(bytes) => copied_up_to(alloc, bytes.as_slice(), most),
        }
    }
}

impl Files for MemFiles {
    ghost tells = { true };

    ghost held = { λ files. held_in files.entries };

    ghost calls = { λ files. files.counts.calls };

    ghost saves = { λ files. files.counts.saves };

    ghost faults = { λ files. files.counts.faults };

    ghost load_faults = { λ files. files.counts.load_faults };

    ghost taken = { λ files. files.counts.taken };

    ghost last_taken = { λ files. files.counts.last_taken };

    fn load(&mut self, alloc: Global, name: &str, most: usize) -> Result<Bytes, LoadRefusal>
        ensures later { self.old.counts.calls ≤ self.new.counts.calls }
        ensures called { LoadCalls self.old.counts.calls self.new.counts.calls result }
        ensures counted { LoadCounts self.old.counts.faults self.new.counts.faults result }
        ensures failed { LoadCounts self.old.counts.load_faults self.new.counts.load_faults result }
        ensures taken { LoadTakes most self.old.counts.taken self.new.counts.taken result }
        ensures last { LoadTakes most 0 self.new.counts.last_taken result }
        ensures answers { LoadAnswers (load_answer self.old name.now most) result }
        ensures after { self.new ≡ after_load self.old most result }
    {
        let answer = self.look_up(alloc, name, most);
        self.counts.count_load(most, &answer);
        answer
    }

    fn save(&mut self, alloc: Global, name: &str, bytes: &[u8]) -> Result<(), SaveRefusal>
        ensures later { self.old.counts.calls ≤ self.new.counts.calls }
        ensures called { SaveCalls self.old.counts.calls self.new.counts.calls result }
        ensures saved { SavesCounted self.old.counts.saves self.new.counts.saves result }
        ensures counted { SaveCounts self.old.counts.faults self.new.counts.faults result }
        ensures answers { SaveAnswers (is_listed self.old.failing self.old.counts.calls) result }
        ensures after { self.new ≡ after_save self.old name.now bytes.now result }
    {
        let mut counts = self.counts;
        counts.count_save();
        let fails = self.failing.contains(&self.counts.calls);
        if !fails {
            put_first(alloc, &mut self.entries, name, bytes)?;
        }
        self.counts = counts;
        if fails {
            self.counts.faults = self.counts.faults.saturating_add(1);
            return Err(SaveRefusal::Failed);
        }
        Ok(())
    }
}
