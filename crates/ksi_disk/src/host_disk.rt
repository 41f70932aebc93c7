ghost use Rattle.std.specs.Prelude.{◌≡◌, ◌≤◌, ◌<◌, ◌+◌, ◌^◌, ◌==◌, [], None, length, take, drop, IfOk, OnOk, is_err};
ghost use Rattle.std.specs.Bool.{OnTrue};
ghost use Rattle.ksi_ports.specs.Outside.{Raises};
ghost use Rattle.ksi_disk.specs.Images.{Only};
ghost use Rattle.ksi_disk.specs.Costs.{DiskCounts};
ghost use Rattle.ksi_disk.specs.Deeds.{wrote, synced};
ghost use Rattle.ksi_disk.specs.DeedLaws.{content_is_image, counts_now, only_now};
ghost use Rattle.ksi_disk.specs.Host.{HostState, content_of, images_of, images_since, found_disk, after_call, with_deed, after_write, after_sync};

use crate::record::Record;
use crate::{Disk, DiskFailed};
use ksi_imprint::Bytes;
use std::fs;
use std::io::{self, Read};
use std::marker::Model;
use std::os::unix::fs::FileExt;

// The two sorts of notes.
const SYNCED: u64 = 0;

const WROTE: u64 = 1;

// The greatest length of a file.
const MOST: u64 = (1 << 63) - 1;

/// A file of the system, which is locked for this process. It is read once, when it is opened. The bytes are dropped at the
/// first write, and from then on a read fails. After a failed sync each call fails,
/// but for a read before the first write.
#[derive(Drop)]
pub struct HostDisk {
    file: fs::File,
    found: Option<Bytes>,
    len: u64,
    faults: u64,
    is_usable: bool,
    log: Record,
}

impl Model for HostDisk {
    ghost use Rattle.ksi_disk.specs.Host.{HostState, IsHostKept};

    ghost Value = { HostState };

    ghost view = { λ disk. record { deeds = disk.log.events; faults = disk.faults } };

    ghost invariant = { λ disk. IsHostKept disk.log.events disk.len disk.found };
}

impl HostDisk {
    /// The file of this name in a folder. It is made if it is missing, and locked, so no other process has it as a disk.
    /// It and its folder are synced, and then it is read whole. After a failed sync of an earlier process the system's
    /// cache may differ from the disk: whoever starts the process again has it dropped first.
    ///
    /// # Errors
    /// A call of the system failed, another process has the lock, or memory ran out.
    pub fn open(rt: &HostRuntime, folder: &str, name: &str) -> io::Result<HostDisk>
        ensures fresh { IfOk result (λ disk. disk.faults ≡ 0) }
        ensures durable { IfOk result (λ disk. Only (content_of disk) (images_of disk)) }
    {
        let path = format!(in rt.alloc(); "{folder}/{name}")?;
        let mut file = fs::File::options()
            .read(true)
            .write(true)
            .create(true)
            .open(rt, path.as_str())?;
        if file.try_lock().is_err() {
            return Err(io::ErrorKind::ResourceBusy.into());
        }
        file.sync_all()?;
        fs::File::open(rt, folder)?.sync_all()?;
        let mut bytes = Vec::new(rt.alloc());
        file.read_to_end(&mut bytes)?;
        Ok(HostDisk::holding(file, bytes))
    }

    /// The disk of a file that has these bytes, which are synced.
    fn holding(file: fs::File, bytes: Vec<u8>) -> HostDisk
        ensures { result ≡ found_disk bytes.items }
    {
        let mut log = Record::new();
        log.note(&[WROTE, 0, 1], &bytes);
        log.note(&[SYNCED, 0, 1], &[]);
        let len = bytes.len() as u64;
        HostDisk {
            file,
            found: Some(Bytes::from_vec(bytes)),
            len,
            faults: 0,
            is_usable: true,
            log,
        }
    }

    /// Whether the file is empty.
    pub fn is_empty(&self) -> bool
        ensures { result ≡ (length (content_of self.now) == 0) }
    {
        self.len == 0
    }

    /// How many calls failed.
    pub fn faults(&self) -> u64
        ensures { result ≡ self.now.faults }
    {
        self.faults
    }

    fn count(&mut self, failed: bool)
        ensures after { self.new ≡ after_call self.old failed }
        ensures rises { OnTrue failed (Raises self.old.faults self.new.faults) }
    {
        if failed {
            self.faults = self.faults.saturating_add(1);
        }
    }

    fn note_write(&mut self, at: u64, piece: &[u8], succeeded: bool)
        requires at { at ≤ length (content_of self.old) }
        requires within { OnTrue succeeded (at + length piece.now < 2 ^ 64) }
        ensures { self.new ≡ with_deed self.old (wrote at piece.now succeeded) }
    {
        self.found = None;
        if succeeded {
            self.len = self.len.max(at + piece.len() as u64);
        }
        self.log.note(&[WROTE, at, u64::from(succeeded)], piece);
    }

    fn note_sync(&mut self)
        ensures { self.new ≡ with_deed self.old synced }
    {
        self.log.note(&[SYNCED, 0, 1], &[]);
    }

    /// Writes to the file. It is refused after a failed sync, and past the greatest length of a file.
    fn write_on(&mut self, at: u64, bytes: &[u8]) -> bool
        ensures within { OnTrue result (at + length bytes.now < 2 ^ 64) }
        ensures same { self.new ≡ self.old }
    {
        self.is_usable
            && at <= MOST
            && bytes.len() as u64 <= MOST - at
            && self.file.write_all_at(bytes, at).is_ok()
    }

    /// Syncs the file's data. After a failed sync it stays refused.
    fn sync_on(&mut self) -> bool
        ensures same { self.new ≡ self.old }
    {
        if self.is_usable {
            self.is_usable = self.file.sync_data().is_ok();
        }
        self.is_usable
    }
}

impl Disk for HostDisk {
    ghost content = { content_of };

    ghost images = { images_of };

    ghost moment = { λ disk. length disk.deeds };

    ghost images_since = { images_since };

    ghost faults = { λ disk. disk.faults };

    ghost meter = { λ _. None };

    ghost content_is_image = { λ disk. content_is_image [] disk.deeds };

    ghost counts_now = { λ disk since image within left. counts_now [] disk.deeds since image within left };

    ghost only_now = { λ disk image left. only_now [] disk.deeds image left };

    fn len(&mut self) -> Result<u64, DiskFailed>
        ensures told { IfOk result (λ count. count ≡ length (content_of self.old)) }
        ensures counted { DiskCounts self.old.faults self.new.faults result }
        ensures after { self.new ≡ after_call self.old (is_err result) }
    {
        let failed = !self.is_usable;
        self.count(failed);
        if failed {
            return Err(DiskFailed);
        }
        Ok(self.len)
    }

    fn read(&mut self, at: u64, buffer: &mut [u8]) -> Result<(), DiskFailed>
        requires { at + length buffer.old ≤ length (content_of self.old) }
        ensures filled { OnOk result (buffer.new ≡ take (length buffer.old) (drop at (content_of self.old))) }
        ensures counted { DiskCounts self.old.faults self.new.faults result }
        ensures after { self.new ≡ after_call self.old (is_err result) }
    {
        let done = match &self.found {
            Some(found) => {
                let (_, rest) = found.as_slice().split_at(at as usize);
                let (front, _) = rest.split_at(buffer.len());
                buffer.copy_from_slice(front);
                true
            }
            None => false,
        };
        self.count(!done);
        if done { Ok(()) } else { Err(DiskFailed) }
    }

    fn write_at(&mut self, at: u64, bytes: &[u8]) -> Result<(), DiskFailed>
        requires { at ≤ length (content_of self.old) }
        ensures within { OnOk result (at + length bytes.now < 2 ^ 64) }
        ensures counted { DiskCounts self.old.faults self.new.faults result }
        ensures after { self.new ≡ after_write self.old at bytes.now (is_err result) }
    {
        let done = self.write_on(at, bytes);
        self.count(!done);
        self.note_write(at, bytes, done);
        if done { Ok(()) } else { Err(DiskFailed) }
    }

    fn sync(&mut self) -> Result<(), DiskFailed>
        ensures counted { DiskCounts self.old.faults self.new.faults result }
        ensures after { self.new ≡ after_sync self.old (is_err result) }
    {
        let done = self.sync_on();
        self.count(!done);
        if !done {
            return Err(DiskFailed);
        }
        self.note_sync();
        Ok(())
    }
}
