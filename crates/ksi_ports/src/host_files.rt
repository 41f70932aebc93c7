ghost use Rattle.std.specs.Prelude.{◌≡◌, ◌≤◌, false, length, Some, None, IfOk, IfSome, OnErr, if◌then◌else◌, is_ok};
ghost use Rattle.std.specs.Bool.{OnTrue, OnFalse};
ghost use Rattle.ksi_ports.specs.Outside.{count_up, no_calls, LoadCalls, LoadCounts, LoadTells, Raises, SaveCalls, SaveCounts, SavesCounted};
ghost use Rattle.ksi_ports.specs.Host.{ReadTakes, faults_after};

use crate::{Counts, Files, LoadRefusal, SaveRefusal};
use ksi_imprint::Bytes;
use std::alloc::Global;
use std::io::Read;
use std::marker::Model;
use std::{fs, io, rt};

/// The files of a system. Their contents are not known.
#[derive(Drop)]
pub struct HostFiles<'a, R: rt::Files> {
    runtime: &'a R,
    counts: Counts,
}

impl<'a, R: rt::Files> Model for HostFiles<'a, R> {
    ghost use Rattle.ksi_ports.specs.declared.counts.Counts as counted;

    ghost Value = { counted.Counts };

    ghost view = { λ files. files.counts };
}

impl<'a, R: rt::Files> HostFiles<'a, R> {
    /// The files of this runtime. There was no call so far, and no byte was taken.
    pub fn new(runtime: &'a R) -> Self
        ensures { result ≡ no_calls }
    {
        HostFiles {
            runtime,
            counts: Counts::NONE,
        }
    }

    /// What was counted of the calls.
    pub fn counts(&self) -> Counts
        ensures { result ≡ self.now }
    {
        self.counts
    }

    // Counts a call, and its fault where it failed.
    fn count(&mut self, failed: bool)
        ensures calls { self.new.calls ≡ count_up 1 self.old.calls }
        ensures later { self.old.calls ≤ self.new.calls }
        ensures failed { OnTrue failed (Raises self.old.faults self.new.faults) }
        ensures once { OnTrue failed (self.new.faults ≡ count_up 1 self.old.faults) }
        ensures passed { OnFalse failed (self.new.faults ≡ self.old.faults) }
        ensures saves { self.new.saves ≡ self.old.saves }
        ensures loads { self.new.load_faults ≡ self.old.load_faults }
        ensures taken { self.new.taken ≡ self.old.taken }
        ensures last { self.new.last_taken ≡ self.old.last_taken }
    {
        self.counts.calls = self.counts.calls.saturating_add(1);
        if failed {
            self.counts.faults = self.counts.faults.saturating_add(1);
        }
    }
}

impl<R: rt::Files> Files for HostFiles<'_, R> {
    ghost tells = { false };

    ghost held = { λ _ _. None };

    ghost calls = { λ files. files.calls };

    ghost saves = { λ files. files.saves };

    ghost faults = { λ files. files.faults };

    ghost load_faults = { λ files. files.load_faults };

    ghost taken = { λ files. files.taken };

    ghost last_taken = { λ files. files.last_taken };

    fn load(&mut self, alloc: Global, name: &str, most: usize) -> Result<Bytes, LoadRefusal>
        ensures later { self.old.calls ≤ self.new.calls }
        ensures called { LoadCalls self.old.calls self.new.calls result }
        ensures calls { self.new.calls ≡ count_up 1 self.old.calls }
        ensures counted { LoadCounts self.old.faults self.new.faults result }
        ensures failed { LoadCounts self.old.load_faults self.new.load_faults result }
        ensures within { IfOk result (λ bytes. length bytes ≤ most) }
        ensures faults { self.new.faults ≡ faults_after self.old.faults result }
        ensures saves { self.new.saves ≡ self.old.saves }
        ensures takes { ReadTakes most self.old.taken self.new.taken result }
        ensures last { ReadTakes most 0 self.new.last_taken result }
    {
        let opened = fs::open(self.runtime, name);
        let mut taken = 0;
        let result = read_opened(alloc, opened, most, &mut taken);
        let failed = matches!(&result, Err(LoadRefusal::Failed));
        self.count(failed);
        if failed {
            self.counts.load_faults = self.counts.load_faults.saturating_add(1);
        }
        self.counts.taken = self.counts.taken.saturating_add(taken);
        self.counts.last_taken = taken;
        result
    }

    fn save(&mut self, _alloc: Global, name: &str, bytes: &[u8]) -> Result<(), SaveRefusal>
        ensures later { self.old.calls ≤ self.new.calls }
        ensures called { SaveCalls self.old.calls self.new.calls result }
        ensures calls { self.new.calls ≡ count_up 1 self.old.calls }
        ensures counted { SaveCounts self.old.faults self.new.faults result }
        ensures faults { self.new.faults ≡ (if is_ok result then self.old.faults else count_up 1 self.old.faults) }
        ensures unloaded { self.new.load_faults ≡ self.old.load_faults }
        ensures saved { SavesCounted self.old.saves self.new.saves result }
        ensures saves { self.new.saves ≡ count_up 1 self.old.saves }
        ensures taken { self.new.taken ≡ self.old.taken }
        ensures last { self.new.last_taken ≡ self.old.last_taken }
    {
        let failed = fs::write(self.runtime, name, bytes).is_err();
        self.count(failed);
        self.counts.saves = self.counts.saves.saturating_add(1);
        if failed {
            return Err(SaveRefusal::Failed);
        }
        Ok(())
    }
}

// Reads what was opened. Where it could not be opened, nothing is taken.
fn read_opened<S: Read + Drop>(
    alloc: Global,
    opened: io::Result<S>,
    most: usize,
    taken: &mut u64,
) -> Result<Bytes, LoadRefusal>
    ensures taken { ReadTakes most taken.old taken.new result }
    ensures unopened { OnErr opened (taken.new ≡ taken.old) }
    ensures within { IfOk result (λ bytes. length bytes ≤ most) }
{
    match opened {
        Ok(mut source) => read_up_to(alloc, &mut source, most, taken),
        Err(_) => Err(LoadRefusal::Failed),
    }
}

/// Reads to the end, or to the first byte past `most`. Each turn takes at least one byte.
pub(crate) fn read_up_to<S: Read>(
    alloc: Global,
    source: &mut S,
    most: usize,
    taken: &mut u64,
) -> Result<Bytes, LoadRefusal>
    ensures taken { ReadTakes most taken.old taken.new result }
    ensures within { IfOk result (λ bytes. length bytes ≤ most) }
    ensures told { IfSome (S.remaining source.old) (λ bytes. LoadTells most (Some bytes) result) }
{
    let mut bytes = Vec::new(alloc);
    let mut buffer = [0; 4096];
    'reading: while bytes.len() <= most {
        let left = most - bytes.len();
        let room = if left < buffer.len() {
            left + 1
        } else {
            buffer.len()
        };
        let count = match source.read(&mut buffer[..room]) {
            Ok(0) => return Ok(Bytes::from_vec(bytes)),
            Ok(count) => count,
            Err(_) => return Err(LoadRefusal::Failed),
        };
        *taken = taken.saturating_add(count as u64);
        bytes.extend_from_slice(&buffer[..count])?;
    }
    Err(LoadRefusal::TooLong)
}
