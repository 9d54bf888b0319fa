//! A disk in memory, with what a crash may leave of it.
ghost use Rattle.std.specs.Prelude.{◌≡◌, ◌≤◌, ◌+◌, ◌⊎◌, ◌↔◌, [], ◌∷◌, Some, is_ok, false, length, take, drop, IfOk, OnOk, OnErr, IsErr};
ghost use Rattle.basics.specs.Calls.{FailsNext};
ghost use Rattle.basics.specs.Faults.{HasCause};
ghost use Rattle.edge_traits.specs.Disk.{IsImage, IsBrokenWrite, IsBrokenCut, after_write, after_cut, after_sync};
ghost use Rattle.edge_traits.specs.MemDisk.{untouched, IsPicked, IsMixed, IsTooFullFor, after_asking, after_using, mixed_length as length_of};

use crate::overlay::{noise, overlay, overwrite};
use crate::span::Span;
use crate::{Disk, Failed, NoMemory};
use basics::{Calls, advance};
use std::alloc::Global;
use std::marker::Model;

/// How many bytes of its room a [`MemDisk`] uses for each write, cut and sync, beside the bytes
/// that are written.
pub const CALL_USE: usize = 32;

/// Which image of a disk a crash leaves: what was written since the last sync as it was before, as
/// it was written, or from a generator with this seed.
#[derive(Clone, Copy, Debug, PartialEq, Eq)]
pub enum Pick {
    Old,
    New,
    Mixed(u64),
}

/// A disk in memory, of a fixed room, which fails where it was told to.
///
/// It counts what it uses of its room: the bytes that it had at first, and then [`CALL_USE`] bytes
/// and what is written for each write, cut and sync that succeeds. Where one finds no room it
/// fails. Whichever call fails, what the disk holds stays as it was.
#[derive(Debug, Drop)]
pub struct MemDisk {
    alloc: Global,
    bytes: Vec<u8>,
    synced: Vec<u8>,
    loose: Vec<Span>,
    least: usize,
    greatest: usize,
    room: usize,
    used: usize,
    calls: Calls,
}

impl Model for MemDisk {
    ghost use Rattle.edge_traits.specs.MemDisk.{MemDiskState};

    ghost Value = { MemDiskState };

    ghost use Rattle.edge_traits.specs.MemDisk.{HasRoom};

    ghost view = { λ d. record {
      contents = record {
        bytes = d.bytes.items;
        synced = d.synced.items;
        loose = d.loose.items;
        least = d.least;
        greatest = d.greatest;
      };
      room = d.room;
      used = d.used;
      calls = d.calls;
    } };

    ghost invariant = { λ d. HasRoom d.bytes d.synced d.loose (record {
      bytes = d.bytes.items;
      synced = d.synced.items;
      loose = d.loose.items;
      least = d.least;
      greatest = d.greatest;
    }) d.room d.used };
}

impl MemDisk {
    /// A disk that holds `bytes`, at most `room` of them, all of them synced. It takes all its
    /// memory now. The calls whose numbers, from 1, stand in `fail` fail. It answers only want of
    /// memory.
    pub fn new(alloc: Global, bytes: &[u8], room: usize, fail: &[u64]) -> Result<MemDisk, NoMemory>
        requires { length bytes.now ≤ room }
        ensures { IfOk result (λ disk. disk ≡ untouched bytes.now room fail.now) }
    {
        let mut held = Vec::with_capacity(alloc, room)?;
        held.extend_from_slice(bytes)?;
        let mut synced = Vec::with_capacity(alloc, room)?;
        synced.extend_from_slice(bytes)?;
        Ok(MemDisk {
            alloc,
            bytes: held,
            synced,
            loose: Vec::with_capacity(alloc, room / CALL_USE)?,
            least: bytes.len(),
            greatest: bytes.len(),
            room,
            used: bytes.len(),
            calls: Calls::new(fail.to_vec(alloc)?),
        })
    }

    /// A disk that holds what a crash may leave of this one now, with the same room and no failing
    /// calls. With [`Pick::Mixed`] the generator gives a length between the least and the greatest,
    /// and each byte that was written since the last sync or lies past the old end. It answers only
    /// want of memory.
    pub fn image(&self, pick: Pick) -> Result<MemDisk, NoMemory>
        ensures possible { IfOk result
            (λ image. IsImage self.now.contents image.contents.bytes) }
        ensures picked { IfOk result
            (λ image. IsPicked pick self.now.contents image.contents.bytes) }
        ensures fresh { IfOk result
            (λ image. image ≡ untouched image.contents.bytes self.now.room []) }
    {
        match pick {
            Pick::Old => MemDisk::new(self.alloc, &self.synced, self.room, &[]),
            Pick::New => MemDisk::new(self.alloc, &self.bytes, self.room, &[]),
            Pick::Mixed(seed) => {
                let mixed = self.mixed(seed)?;
                MemDisk::new(self.alloc, &mixed, self.room, &[])
            }
        }
    }

    fn mixed(&self, seed: u64) -> Result<Vec<u8>, NoMemory>
        ensures mixed { IfOk result (λ mixed. IsMixed seed self.now.contents mixed.items) }
        ensures possible { IfOk result (λ mixed. IsImage self.now.contents mixed.items) }
        ensures short { IfOk result (λ mixed. length mixed.items ≤ self.now.room) }
    {
        let noise = noise(self.alloc, self.mixed_length(seed), advance(seed))?;
        let mut mixed = Vec::with_capacity(self.alloc, self.room)?;
        mixed.extend_from_slice(&self.synced)?;
        overlay(&mut mixed, &noise, &self.loose);
        Ok(mixed)
    }

    /// The length of a mixed image.
    fn mixed_length(&self, seed: u64) -> usize
        ensures length { result ≡ length_of seed self.now.contents }
        ensures short { result ≤ self.now.room }
    {
        let spare = self.greatest - self.least + 1;
        self.least + (advance(seed) >> 33) as usize % spare
    }

    /// Counts a call that writes so many bytes. It fails where there is no room for it, and where
    /// it was told to.
    fn begin(&mut self, count: usize) -> Result<(), Failed>
        ensures fails { IsErr result ↔ (IsTooFullFor self.old count ⊎ FailsNext self.old.calls) }
        ensures left { self.new ≡ after_asking (is_ok result) self.old }
        ensures cause { HasCause self.old.calls.faults self.new.calls.faults result }
    {
        if count > self.room - self.used || CALL_USE > self.room - self.used - count {
            return Err(self.calls.fail());
        }
        self.calls.next()
    }
}

impl Disk for MemDisk {
    ghost use Rattle.edge_traits.specs.MemDisk.{disk_state};

    ghost state = { disk_state };

    /// Fails exactly where it was told to.
    fn length(&mut self) -> Result<u64, Failed>
        ensures count { IfOk result (λ count. count ≡ length self.old.contents.bytes) }
        ensures kept { Some self.new.contents ≡ Some self.old.contents }
        ensures cause { HasCause self.old.calls.faults self.new.calls.faults result }

        ensures fails { IsErr result ↔ FailsNext self.old.calls }
        ensures left { self.new ≡ after_asking (is_ok result) self.old }
    {
        self.calls.next()?;
        Ok(self.bytes.len() as u64)
    }

    /// Fails exactly where it was told to, and then leaves the buffer as it was.
    fn read(&mut self, at: u64, buf: &mut [u8]) -> Result<(), Failed>
        requires { at + length buf.old ≤ length self.old.contents.bytes }
        ensures given { OnOk result
            (buf.new ≡ take (length buf.old) (drop at self.old.contents.bytes)) }
        ensures kept { Some self.new.contents ≡ Some self.old.contents }
        ensures cause { HasCause self.old.calls.faults self.new.calls.faults result }

        ensures fails { IsErr result ↔ FailsNext self.old.calls }
        ensures left { self.new ≡ after_asking (is_ok result) self.old }
        ensures unfilled { OnErr result (buf.new ≡ buf.old) }
    {
        self.calls.next()?;
        let at = at as usize;
        buf.copy_from_slice(&self.bytes[at..at + buf.len()]);
        Ok(())
    }

    /// Fails exactly where there is no room for it, or where it was told to, and then changes only
    /// its counts.
    fn write_at(&mut self, at: u64, bytes: &[u8]) -> Result<(), Failed>
        requires { at ≤ length self.old.contents.bytes }
        ensures written { OnOk result
            (Some self.new.contents ≡ Some (after_write at bytes.now self.old.contents)) }
        ensures broken { OnErr result
            (IsBrokenWrite at (length bytes.now) self.old.contents self.new.contents) }
        ensures cause { HasCause self.old.calls.faults self.new.calls.faults result }

        ensures fails { IsErr result
            ↔ (IsTooFullFor self.old (length bytes.now) ⊎ FailsNext self.old.calls) }
        ensures left { OnOk result (self.new ≡ after_using (length bytes.now)
            (after_write at bytes.now self.old.contents) self.old) }
        ensures unchanged { OnErr result (self.new ≡ after_asking false self.old) }
    {
        self.begin(bytes.len())?;
        let at = at as usize;
        overwrite(&mut self.bytes, at, bytes);
        let span = Span {
            first: at,
            count: bytes.len(),
        };
        self.loose.push(span).unwrap();
        self.greatest = self.greatest.max(at + bytes.len());
        self.used += CALL_USE + bytes.len();
        Ok(())
    }

    /// Fails exactly where there is no room for it, or where it was told to, and then changes only
    /// its counts.
    fn cut(&mut self, len: u64) -> Result<(), Failed>
        requires { len ≤ length self.old.contents.bytes }
        ensures cut { OnOk result
            (Some self.new.contents ≡ Some (after_cut len self.old.contents)) }
        ensures broken { OnErr result (IsBrokenCut len self.old.contents self.new.contents) }
        ensures cause { HasCause self.old.calls.faults self.new.calls.faults result }

        ensures fails { IsErr result ↔ (IsTooFullFor self.old 0 ⊎ FailsNext self.old.calls) }
        ensures left { OnOk result
            (self.new ≡ after_using 0 (after_cut len self.old.contents) self.old) }
        ensures unchanged { OnErr result (self.new ≡ after_asking false self.old) }
    {
        self.begin(0)?;
        let len = len as usize;
        self.bytes.truncate(len);
        self.least = self.least.min(len);
        self.used += CALL_USE;
        Ok(())
    }

    /// Fails exactly where there is no room for it, or where it was told to, and then changes only
    /// its counts.
    fn sync(&mut self) -> Result<(), Failed>
        ensures synced { OnOk result
            (Some self.new.contents ≡ Some (after_sync self.old.contents)) }
        ensures possible { OnOk result (IsImage self.old.contents self.old.contents.bytes) }
        ensures kept { OnErr result (Some self.new.contents ≡ Some self.old.contents) }
        ensures cause { HasCause self.old.calls.faults self.new.calls.faults result }

        ensures fails { IsErr result ↔ (IsTooFullFor self.old 0 ⊎ FailsNext self.old.calls) }
        ensures left { OnOk result
            (self.new ≡ after_using 0 (after_sync self.old.contents) self.old) }
        ensures unchanged { OnErr result (self.new ≡ after_asking false self.old) }
    {
        self.begin(0)?;
        overlay(&mut self.synced, &self.bytes, &self.loose);
        self.loose.clear();
        self.least = self.bytes.len();
        self.greatest = self.bytes.len();
        self.used += CALL_USE;
        Ok(())
    }

    fn faults(&self) -> u64 {
        self.calls.faults()
    }
}
