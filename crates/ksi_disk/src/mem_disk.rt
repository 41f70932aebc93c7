ghost use Rattle.std.specs.Prelude.{◌≡◌, ◌≤◌, ◌<◌, ◌+◌, ◌-◌, ◌^◌, length, take, drop, IfOk, OnErr, OnOk, is_err};
ghost use Rattle.std.specs.Bool.{OnTrue};
ghost use Rattle.ksi_ports.specs.Outside.{Raises};
ghost use Rattle.ksi_disk.specs.Costs.{DiskCounts};
ghost use Rattle.ksi_disk.specs.Deeds.{new_disk, with_room, content_of, is_next_listed, after_call, with_deed, wrote, synced, write_fails, after_write, sync_fails, after_sync, deeds_at, image_by, IsImage, IsImageSince, meter_of};
ghost use Rattle.ksi_disk.specs.DeedLaws.{content_is_image, counts_now, only_now};

use crate::marks::{Mark, note_sync, note_write};
use crate::overwrite::overwrite;
use crate::replay::replayed;
use crate::{Disk, DiskFailed, Fate};
use ksi_imprint::{Bytes, NoMemory};
use std::alloc::Global;
use std::marker::Model;

/// A disk in memory that has room for a number of bytes of pieces and for a number of writes and syncs, with a list of
/// the calls that are to fail. A write that finds no room, or a write or a sync that finds no turn, fails too and does
/// nothing.
#[derive(Drop)]
pub struct MemDisk {
    alloc: Global,
    start: Vec<u8>,
    content: Vec<u8>,
    marks: Vec<Mark>,
    pieces: Vec<u8>,
    failing: Vec<u64>,
    calls: u64,
    faults: u64,
    room: usize,
    turns: usize,
}

impl Model for MemDisk {
    ghost use Rattle.std.specs.Prelude.{◌≤◌, ◌+◌, [], vec_len, vec_capacity};
    ghost use Rattle.ksi_disk.specs.Deeds.{StoredDisk, IsKept, deeds_onto};

    ghost Value = { StoredDisk };

    ghost view = { λ disk. record {
      start = disk.start.items;
      deeds = deeds_onto [] disk.marks.items disk.pieces.items;
      failing = disk.failing.items;
      calls = disk.calls;
      faults = disk.faults;
      room = disk.room;
      turns = disk.turns;
    } };

    ghost invariant = { λ disk. IsKept disk.start.items disk.content.items disk.marks.items disk.pieces.items
        × (vec_len disk.content + disk.room ≤ vec_capacity disk.content)
        × (vec_len disk.pieces + disk.room ≤ vec_capacity disk.pieces)
        × (vec_len disk.marks + disk.turns ≤ vec_capacity disk.marks) };
}

impl MemDisk {
    /// A disk with these bytes, all of them synced. Calls are counted from 0, and those of the listed numbers fail.
    pub fn new(
        alloc: Global,
        bytes: &[u8],
        room: usize,
        turns: usize,
        failing: Vec<u64>,
    ) -> Result<Self, NoMemory>
        ensures made { IfOk result (λ disk. disk ≡ new_disk bytes.now room turns failing.items) }
        ensures within { OnOk result (length bytes.now + room < 2 ^ 64) }
    {
        let start = bytes.to_vec(alloc)?;
        let mut content = bytes.to_vec(alloc)?;
        content.reserve(room)?;
        Ok(MemDisk {
            alloc,
            start,
            content,
            marks: Vec::with_capacity(alloc, turns)?,
            pieces: Vec::with_capacity(alloc, room)?,
            failing,
            calls: 0,
            faults: 0,
            room,
            turns,
        })
    }

    /// What a read gives.
    pub fn bytes(&self) -> &[u8]
        ensures { result.now ≡ content_of self.now }
    {
        &self.content
    }

    /// How many calls there were, failed ones too.
    pub fn calls(&self) -> u64
        ensures { result ≡ self.now.calls }
    {
        self.calls
    }

    /// How many calls failed.
    pub fn faults(&self) -> u64
        ensures { result ≡ self.now.faults }
    {
        self.faults
    }

    /// How many bytes, and how many writes and syncs, the disk still takes.
    pub fn left(&self) -> (usize, usize)
        ensures value { result ≡ (self.now.room, self.now.turns) }
        ensures within { length (content_of self.now) + self.now.room < 2 ^ 64 }
    {
        (self.room, self.turns)
    }

    /// From now on the disk takes this many bytes, and this many writes and syncs.
    ///
    /// # Errors
    /// `NoMemory`: nothing has changed.
    pub fn make_room(&mut self, room: usize, turns: usize) -> Result<(), NoMemory>
        ensures made { OnOk result (self.new ≡ with_room self.old room turns) }
        ensures unchanged { OnErr result (self.new ≡ self.old) }
    {
        self.content.reserve(room)?;
        self.pieces.reserve(room)?;
        self.marks.reserve(turns)?;
        self.room = room;
        self.turns = turns;
        Ok(())
    }

    /// How many moments there were since the disk was made: one for each sync that succeeded, and for each write that found
    /// room and a turn.
    pub fn moments(&self) -> usize
        ensures { result ≡ length self.now.deeds }
    {
        self.marks.len()
    }

    /// What a crash leaves at a moment, where all writes since the last sync before it have this fate.
    ///
    /// # Errors
    /// `NoMemory`: no image is made.
    pub fn image(&self, moment: usize, fate: Fate) -> Result<Bytes, NoMemory>
        requires { moment ≤ length self.now.deeds }
        ensures value { IfOk result (λ image. image ≡ image_by fate self.now.start (deeds_at moment self.now.deeds)) }
        ensures lawful { IfOk result (λ image. IsImage self.now.start (deeds_at moment self.now.deeds) image) }
    {
        let (first, _) = self.marks.split_at(moment);
        let image = replayed(self.alloc, fate, &self.start, first, &self.pieces)?;
        Ok(Bytes::from_vec(image))
    }

    // Whether the next call is to fail.
    fn is_listed(&self) -> bool
        ensures { result ≡ is_next_listed self.now }
    {
        self.failing.contains(&self.calls)
    }

    fn count(&mut self, failed: bool)
        ensures after { self.new ≡ after_call self.old failed }
        ensures rises { OnTrue failed (Raises self.old.faults self.new.faults) }
    {
        self.calls = self.calls.saturating_add(1);
        if failed {
            self.faults = self.faults.saturating_add(1);
        }
    }

    fn put(&mut self, at: u64, piece: &[u8], succeeded: bool)
        requires at { at ≤ length (content_of self.old) }
        requires room { length piece.now ≤ self.old.room }
        requires turns { 0 < self.old.turns }
        ensures { self.new ≡ with_deed self.old (wrote at piece.now succeeded) (length piece.now) }
    {
        if succeeded {
            overwrite(&mut self.content, at as usize, piece);
        }
        note_write(&mut self.marks, &mut self.pieces, at, piece, succeeded);
        self.room -= piece.len();
        self.turns -= 1;
    }

    fn settle(&mut self)
        requires { 0 < self.old.turns }
        ensures { self.new ≡ with_deed self.old synced 0 }
    {
        note_sync(&mut self.marks, &self.pieces);
        self.turns -= 1;
    }
}

impl Disk for MemDisk {
    ghost content = { content_of };

    ghost images = { λ disk image. IsImage disk.start disk.deeds image };

    ghost moment = { λ disk. length disk.deeds };

    ghost images_since = { λ disk since image. IsImageSince disk.start disk.deeds since image };

    ghost faults = { λ disk. disk.faults };

    ghost meter = { meter_of };

    ghost content_is_image = { λ disk. content_is_image disk.start disk.deeds };

    ghost counts_now = { λ disk since image within left. counts_now disk.start disk.deeds since image within left };

    ghost only_now = { λ disk image left. only_now disk.start disk.deeds image left };

    fn len(&mut self) -> Result<u64, DiskFailed>
        ensures told { IfOk result (λ count. count ≡ length (content_of self.old)) }
        ensures answers { is_err result ≡ is_next_listed self.old }
        ensures counted { DiskCounts self.old.faults self.new.faults result }
        ensures after { self.new ≡ after_call self.old (is_next_listed self.old) }
    {
        let failed = self.is_listed();
        self.count(failed);
        if failed {
            return Err(DiskFailed);
        }
        Ok(self.content.len() as u64)
    }

    fn read(&mut self, at: u64, buffer: &mut [u8]) -> Result<(), DiskFailed>
        requires { at + length buffer.old ≤ length (content_of self.old) }
        ensures filled { OnOk result (buffer.new ≡ take (length buffer.old) (drop at (content_of self.old))) }
        ensures answers { is_err result ≡ is_next_listed self.old }
        ensures counted { DiskCounts self.old.faults self.new.faults result }
        ensures after { self.new ≡ after_call self.old (is_next_listed self.old) }
    {
        let failed = self.is_listed();
        self.count(failed);
        if failed {
            return Err(DiskFailed);
        }
        let (_, rest) = self.content.split_at(at as usize);
        let (front, _) = rest.split_at(buffer.len());
        buffer.copy_from_slice(front);
        Ok(())
    }

    fn write_at(&mut self, at: u64, bytes: &[u8]) -> Result<(), DiskFailed>
        requires { at ≤ length (content_of self.old) }
        ensures within { OnOk result (at + length bytes.now < 2 ^ 64) }
        ensures answers { is_err result ≡ write_fails self.old bytes.now }
        ensures counted { DiskCounts self.old.faults self.new.faults result }
        ensures after { self.new ≡ after_write self.old at bytes.now }
    {
        let listed = self.is_listed();
        if self.turns == 0 || self.room < bytes.len() {
            self.count(true);
            return Err(DiskFailed);
        }
        self.count(listed);
        self.put(at, bytes, !listed);
        if listed {
            return Err(DiskFailed);
        }
        Ok(())
    }

    fn sync(&mut self) -> Result<(), DiskFailed>
        ensures answers { is_err result ≡ sync_fails self.old }
        ensures counted { DiskCounts self.old.faults self.new.faults result }
        ensures after { self.new ≡ after_sync self.old }
    {
        let failed = self.is_listed() || self.turns == 0;
        self.count(failed);
        if failed {
            return Err(DiskFailed);
        }
        self.settle();
        Ok(())
    }
}
