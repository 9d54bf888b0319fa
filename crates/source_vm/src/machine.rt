//! The machine. Its log says what it is; its disks and the facts beside the log are kept so that no
//! call walks it.
ghost use Rattle.std.specs.Prelude.{◌≡◌, true, ◌+◌, ◌<◌, ◌≤◌, length, slice_get, slice_range, IfOk, OnOk, OnErr};
ghost use Rattle.std.specs.Option.{option_copied};
ghost use Rattle.std.specs.List.{list_all};
ghost use Rattle.basics.specs.Refusal.{IsRefusedBy};
ghost use Rattle.log_model.specs.Entry.{contents};
ghost use Rattle.log_model.specs.Legal.{Legal, all_of, capacity_of};
ghost use Rattle.log_model.specs.Link.{facts_of, IsLeastOwned};
ghost use Rattle.source_vm.specs.Machine.{may_have_disks, is_capacity};

mod acts;
mod guest_write;
mod snapshots;

use crate::disks::new_disks;
use crate::machine_log::MachineLog;
use basics::{MAX_DISK_SECTORS, MAX_DISKS};
use log_model::{Entry, Facts, LinkRefused, Owner};
use sector_model::{NoMemory, Sector};
use source_disk::SourceDisk;
use std::alloc::Global;
use std::marker::Model;

/// Whether a machine may have disks of these capacities, in sectors: there are 1 to
/// [`MAX_DISKS`](basics::MAX_DISKS) of 1 to [`MAX_DISK_SECTORS`](basics::MAX_DISK_SECTORS) sectors
/// each.
pub fn may_have_disks(capacities: &[u64]) -> bool
    ensures { result ≡ may_have_disks capacities.now }
{
    1 <= capacities.len() && capacities.len() <= MAX_DISKS && are_capacities(capacities)
}

/// Whether a disk may have each of these capacities.
fn are_capacities(capacities: &[u64]) -> bool
    ensures { result ≡ list_all is_capacity capacities.now }
{
    capacities
        .iter()
        .all(|capacity| 1 <= *capacity && *capacity <= MAX_DISK_SECTORS)
}

/// A machine with its disks and its log. Contracts see its number, the capacities of its disks and
/// the log.
///
/// It begins on, with disks that were never written. Its log is always legal. A call that is
/// accepted adds one entry or none; one that is refused changes nothing.
#[derive(Debug, Drop)]
pub struct Machine {
    alloc: Global,
    number: u32,
    disks: Vec<SourceDisk>,
    log: MachineLog,
}

impl Model for Machine {
    ghost use Rattle.source_vm.specs.Machine.{MachineState};
    ghost use Rattle.source_vm.specs.Disks.{IsSound};

    ghost Value = { MachineState };

    ghost view = { λ a.
        record { number = a.number; capacities = a.log.capacities; log = a.log.entries } };

    ghost invariant = { λ a.
        IsSound a.number a.log.capacities a.log.entries a.disks.items };
}

impl Machine {
    ghost use Rattle.log_model.specs.Entry.{writes_before};
    ghost use Rattle.source_vm.specs.Machine.{fresh};
    ghost use Rattle.source_vm.specs.Refusals.{read_now_refusal};

    /// A machine with disks of these capacities, in sectors: 1 to
    /// [`MAX_DISKS`](basics::MAX_DISKS) disks of 1 to
    /// [`MAX_DISK_SECTORS`](basics::MAX_DISK_SECTORS) sectors each, as [`may_have_disks`] tests. It
    /// keeps the allocator for its
    /// log and its disks. It answers only want of memory.
    pub fn new(alloc: Global, number: u32, capacities: &[u64]) -> Result<Machine, NoMemory>
        requires { may_have_disks capacities.now ≡ true }
        ensures { IfOk result (λ machine. machine ≡ fresh number capacities.now) }
    {
        Ok(Machine {
            alloc,
            number,
            disks: new_disks(alloc, number, capacities)?,
            log: MachineLog::new(alloc, capacities)?,
        })
    }

    /// The machine's number. It takes no memory.
    pub fn number(&self) -> u32
        ensures { result ≡ self.now.number }
    {
        self.number
    }

    /// How many disks it has. It takes no memory.
    pub fn disks(&self) -> u32
        ensures count { result ≡ length self.now.capacities }
        ensures sizes { may_have_disks self.now.capacities ≡ true }
    {
        self.log.capacities().len() as u32
    }

    /// The capacity of one of its disks, in sectors. It takes no memory.
    pub fn capacity(&self, disk: u32) -> u64
        requires { disk < length self.now.capacities }
        ensures { result ≡ capacity_of self.now.capacities disk }
    {
        self.log.capacities()[disk as usize]
    }

    /// What the machine is like. It takes no memory and walks no log.
    pub fn look(&self) -> Facts
        ensures facts { result ≡ facts_of self.now.log }
        ensures legal { Legal (all_of self.now.capacities) self.now.log }
    {
        self.log.facts()
    }

    /// The entry at a place of the log, from 0 on, or None behind the last. It takes no memory.
    pub fn entry(&self, place: u64) -> Option<&Entry>
        ensures { option_copied result ≡ slice_get self.now.log place }
    {
        self.log.entries().get(place as usize)
    }

    /// The log: its entries, in order. It takes no memory.
    pub fn log(&self) -> &[Entry]
        ensures { result.now ≡ self.now.log }
    {
        self.log.entries()
    }

    /// How many writes stand before a place of the log or its end. It walks the log up to there.
    pub fn writes_before(&self, place: u64) -> u64
        requires { place ≤ length self.now.log }
        ensures { result ≡ writes_before place self.now.log }
    {
        let before = &self.log.entries()[..place as usize];
        before.iter().filter(|entry| entry.act.is_write()).count() as u64
    }

    /// Reads what a disk holds now, from sector `first` on. [`LinkRefused::Range`] where the buffer
    /// is empty, the disk is unknown, or the range passes its capacity. It takes no memory.
    pub fn read_now(&self, disk: u32, first: u64, buf: &mut [Sector]) -> Result<(), LinkRefused>
        ensures refused { IsRefusedBy
            (read_now_refusal self.now.capacities disk first (length buf.old)) result }
        ensures sectors { OnOk result (buf.new ≡ slice_range
            (contents (capacity_of self.now.capacities disk) disk self.now.log)
            first (first + length buf.old)) }
        ensures kept { OnErr result (buf.new ≡ buf.old) }
    {
        match self.disks.get(disk as usize) {
            Some(found) if found.read(None, first, buf).is_ok() => Ok(()),
            _ => Err(LinkRefused::Range),
        }
    }

    /// The least live snapshot of an owner with a number of at least `from`, or None where there is
    /// none. It walks the live snapshots from there on.
    pub(crate) fn owned_from(&self, owner: Owner, from: u32) -> Option<u32>
        ensures least { IsLeastOwned owner from self.now.log result }
        ensures legal { Legal (all_of self.now.capacities) self.now.log }
    {
        self.log.least_owned(owner, from)
    }
}
