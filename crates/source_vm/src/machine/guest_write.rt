//! A guest's write: one entry of the log and one write of a disk, or neither.
ghost use Rattle.std.specs.Prelude.{length};
ghost use Rattle.basics.specs.Refusal.{IsRefusedOr};
ghost use Rattle.log_model.specs.declared.entry.Act.{Act};
ghost use Rattle.log_model.specs.Legal.{Legal, all_of};
ghost use Rattle.log_model.specs.Refusals.{write_refusal};
ghost use Rattle.source_vm.specs.Machine.{Adds};

use super::Machine;
use log_model::{Act, WriteRefused};
use sector_model::{Sector, SectorList};
use source_disk::room_is_no_part;

impl Machine {
    /// Writes sectors of a disk from sector `first` on, under the number `who`.
    /// [`WriteRefused::Off`] where the machine is off, [`WriteRefused::Range`] where the disk is
    /// unknown, the sectors aren't 1 to [`MAX_WRITE_SECTORS`](basics::MAX_WRITE_SECTORS), or they
    /// pass its capacity, [`WriteRefused::LogFull`] where the sectors of all writes would pass
    /// [`MAX_LOGGED_SECTORS`](basics::MAX_LOGGED_SECTORS) or the log holds
    /// [`MAX_LOG_ENTRIES`](log_model::MAX_LOG_ENTRIES) entries,
    /// [`WriteRefused::NoMemory`]. A refused write changes nothing.
    pub fn guest_write(
        &mut self,
        who: u32,
        disk: u32,
        first: u64,
        sectors: &[Sector],
    ) -> Result<(), WriteRefused>
        ensures adds { Adds result who (Act.Write disk first sectors.now) self.old self.new }
        ensures legal { Legal (all_of self.new.capacities) self.new.log }
        ensures refused { IsRefusedOr
            (write_refusal self.old.capacities disk first (length sectors.now) self.old.log)
            WriteRefused.NoMemory result }
    {
        if let Some(refused) = self.log.write_refusal(disk, first, sectors.len() as u64) {
            return Err(refused);
        }
        let Ok(logged) = SectorList::of(self.alloc, sectors) else {
            return Err(WriteRefused::NoMemory);
        };
        if self.log.reserve().is_err() {
            return Err(WriteRefused::NoMemory);
        }
        room_is_no_part();
        let written = &mut self.disks[disk as usize];
        if written.write(first, sectors).is_err() {
            return Err(WriteRefused::NoMemory);
        }
        let act = Act::Write {
            disk,
            first,
            sectors: logged,
        };
        self.log.push(who, act);
        Ok(())
    }
}
