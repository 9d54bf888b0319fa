//! Why a call of a machine is refused, decided from what is kept beside its log.
ghost use Rattle.std.specs.Prelude.{◌≡◌};
ghost use Rattle.log_model.specs.Refusals.{is_known, spent_refusal, snap_refusal, remove_refusal, power_off_refusal, power_on_refusal, reset_refusal, enable_refusal, write_refusal};

use super::MachineLog;
use crate::live::owner_in;
use basics::{MAX_LOGGED_SECTORS, MAX_WRITE_SECTORS};
use log_model::{LinkRefused, MAX_LOG_ENTRIES, Owner, WriteRefused, is_on_disk, may_remove};

impl MachineLog {
    /// Of any call that adds an entry.
    fn spent_refusal(&self) -> Option<LinkRefused>
        ensures { result ≡ spent_refusal self.now.entries }
    {
        if self.entries.len() >= MAX_LOG_ENTRIES {
            Some(LinkRefused::Spent)
        } else {
            None
        }
    }

    /// Of taking a snapshot.
    pub fn snap_refusal(&self, must_be_off: bool) -> Option<LinkRefused>
        ensures { result ≡ snap_refusal must_be_off self.now.entries }
    {
        if must_be_off && self.facts.on {
            Some(LinkRefused::Running)
        } else {
            self.spent_refusal()
        }
    }

    /// Of removing a snapshot in an owner's name.
    pub fn remove_refusal(&self, who: u32, owner: Owner, id: u32) -> Option<LinkRefused>
        ensures { result ≡ remove_refusal who owner id self.now.entries }
    {
        match owner_in(self.live.as_slice(), id) {
            None => Some(LinkRefused::UnknownSnap),
            Some(has) if may_remove(who, owner, has) => self.spent_refusal(),
            Some(_) => Some(LinkRefused::Owned),
        }
    }

    /// Of powering off.
    pub fn power_off_refusal(&self) -> Option<LinkRefused>
        ensures { result ≡ power_off_refusal self.now.entries }
    {
        if self.facts.on {
            self.spent_refusal()
        } else {
            Some(LinkRefused::AlreadyOff)
        }
    }

    /// Of powering on.
    pub fn power_on_refusal(&self) -> Option<LinkRefused>
        ensures { result ≡ power_on_refusal self.now.entries }
    {
        if self.facts.on {
            Some(LinkRefused::AlreadyOn)
        } else {
            self.spent_refusal()
        }
    }

    /// Of resetting the tracking of a disk.
    pub fn reset_refusal(&self, disk: u32) -> Option<LinkRefused>
        ensures { result ≡ reset_refusal self.now.capacities disk self.now.entries }
    {
        if self.is_known(disk) {
            self.spent_refusal()
        } else {
            Some(LinkRefused::Range)
        }
    }

    /// Of enabling change tracking.
    pub fn enable_refusal(&self) -> Option<LinkRefused>
        ensures { result ≡ enable_refusal self.now.entries }
    {
        if self.facts.is_enabled() {
            Some(LinkRefused::AlreadyEnabled)
        } else {
            self.spent_refusal()
        }
    }

    /// Of a guest's write of `count` sectors.
    pub fn write_refusal(&self, disk: u32, first: u64, count: u64) -> Option<WriteRefused>
        ensures { result
            ≡ write_refusal self.now.capacities disk first count self.now.entries }
    {
        if !self.facts.on {
            return Some(WriteRefused::Off);
        }
        if !is_on_disk(self.capacities.as_slice(), disk, first, count)
            || count > MAX_WRITE_SECTORS
        {
            return Some(WriteRefused::Range);
        }
        let is_full = self.facts.written + count > MAX_LOGGED_SECTORS;
        if is_full || self.entries.len() >= MAX_LOG_ENTRIES {
            return Some(WriteRefused::LogFull);
        }
        None
    }

    /// Whether the machine has the disk.
    pub fn is_known(&self, disk: u32) -> bool
        ensures { result ≡ is_known self.now.capacities disk }
    {
        (disk as usize) < self.capacities.len()
    }
}
