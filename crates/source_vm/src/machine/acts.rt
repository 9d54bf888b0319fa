//! Power, resets and the start of change tracking.
ghost use Rattle.std.specs.Prelude.{◌≡◌, length, IfOk};
ghost use Rattle.basics.specs.Refusal.{IsRefusedOr};
ghost use Rattle.log_model.specs.declared.entry.Act.{Act};
ghost use Rattle.log_model.specs.Legal.{Legal, all_of};
ghost use Rattle.log_model.specs.Refusals.{power_off_refusal, power_on_refusal, reset_refusal, enable_refusal};
ghost use Rattle.source_vm.specs.Machine.{Adds};

use super::Machine;
use crate::disks::enable_all;
use log_model::{Act, LinkRefused};

impl Machine {
    /// Powers the machine off, under the number `who`, and tells the place of the entry.
    pub(crate) fn power_off(&mut self, who: u32) -> Result<u64, LinkRefused>
        ensures adds { Adds result who Act.Off self.old self.new }
        ensures refused { IsRefusedOr
            (power_off_refusal self.old.log) LinkRefused.NoMemory result }
        ensures place { IfOk result (λ place. place ≡ length self.old.log) }
        ensures legal { Legal (all_of self.new.capacities) self.new.log }
    {
        if let Some(refused) = self.log.power_off_refusal() {
            return Err(refused);
        }
        if self.log.reserve().is_err() {
            return Err(LinkRefused::NoMemory);
        }
        let place = self.log.entries().len() as u64;
        self.log.push(who, Act::Off);
        Ok(place)
    }

    /// Powers the machine on, under the number `who`, and tells the place of the entry.
    pub(crate) fn power_on(&mut self, who: u32) -> Result<u64, LinkRefused>
        ensures adds { Adds result who Act.On self.old self.new }
        ensures refused { IsRefusedOr
            (power_on_refusal self.old.log) LinkRefused.NoMemory result }
        ensures place { IfOk result (λ place. place ≡ length self.old.log) }
        ensures legal { Legal (all_of self.new.capacities) self.new.log }
    {
        if let Some(refused) = self.log.power_on_refusal() {
            return Err(refused);
        }
        if self.log.reserve().is_err() {
            return Err(LinkRefused::NoMemory);
        }
        let place = self.log.entries().len() as u64;
        self.log.push(who, Act::On);
        Ok(place)
    }

    /// Resets the tracking of a disk, under the number `who`.
    pub(crate) fn reset(&mut self, who: u32, disk: u32) -> Result<(), LinkRefused>
        ensures adds { Adds result who (Act.Reset disk) self.old self.new }
        ensures refused { IsRefusedOr
            (reset_refusal self.old.capacities disk self.old.log) LinkRefused.NoMemory result }
        ensures legal { Legal (all_of self.new.capacities) self.new.log }
    {
        if let Some(refused) = self.log.reset_refusal(disk) {
            return Err(refused);
        }
        if self.log.reserve().is_err() {
            return Err(LinkRefused::NoMemory);
        }
        let tracked = &mut self.disks[disk as usize];
        tracked.reset();
        self.log.push(who, Act::Reset { disk });
        Ok(())
    }

    /// Enables change tracking, under the number `who`.
    pub(crate) fn enable(&mut self, who: u32) -> Result<(), LinkRefused>
        ensures adds { Adds result who Act.Enable self.old self.new }
        ensures refused { IsRefusedOr (enable_refusal self.old.log) LinkRefused.NoMemory result }
        ensures legal { Legal (all_of self.new.capacities) self.new.log }
    {
        if let Some(refused) = self.log.enable_refusal() {
            return Err(refused);
        }
        if self.log.reserve().is_err() {
            return Err(LinkRefused::NoMemory);
        }
        enable_all(&mut self.disks);
        self.log.push(who, Act::Enable);
        Ok(())
    }
}
