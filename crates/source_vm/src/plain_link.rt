//! A machine as its one caller reaches it.
ghost use Rattle.std.specs.Prelude.{◌≡◌};
ghost use Rattle.log_model.specs.Legal.{Legal, all_of};

use crate::Machine;
use change_id::{ChangeId, Since};
use log_model::{Facts, Link, LinkRefused, MIGRATION_CALLER, Owner, Snapped};
use sector_model::{Page, Sector};
use std::marker::Model;

/// A machine that one caller alone reaches.
#[derive(Debug, Drop)]
pub struct PlainLink {
    machine: Machine,
    caller: u32,
}

impl Model for PlainLink {
    ghost use Rattle.log_model.specs.Link.{LinkState};
    ghost use Rattle.source_vm.specs.Machine.{link_of};

    ghost Value = { LinkState };

    ghost view = { λ a. link_of a.caller a.machine };
}

impl PlainLink {
    ghost use Rattle.log_model.specs.declared.entry.TheConstants.{MIGRATION_CALLER};
    ghost use Rattle.source_vm.specs.Machine.{link_of};

    /// The machine for the caller that carries migrations out,
    /// [`MIGRATION_CALLER`](log_model::MIGRATION_CALLER).
    pub fn of(machine: Machine) -> PlainLink
        ensures { result ≡ link_of MIGRATION_CALLER machine }
    {
        PlainLink::numbered(machine, MIGRATION_CALLER)
    }

    /// The machine for a caller of this number.
    pub fn numbered(machine: Machine, who: u32) -> PlainLink
        ensures { result ≡ link_of who machine }
    {
        PlainLink {
            machine,
            caller: who,
        }
    }

    /// The machine, with the log as the caller has seen it.
    pub fn into_machine(self) -> Machine
        ensures machine { result
            ≡ record { number = self.machine; capacities = self.capacities; log = self.seen } }
        ensures link { self ≡ link_of self.caller result }
        ensures legal { Legal (all_of self.capacities) self.seen }
    {
        self.machine
    }
}

impl Link for PlainLink {
    ghost state = { λ link. link };

    fn snap(&mut self, owner: Owner, must_be_off: bool) -> Result<Snapped, LinkRefused> {
        self.machine.snap(self.caller, owner, must_be_off)
    }

    fn remove(&mut self, owner: Owner, id: u32) -> Result<(), LinkRefused> {
        self.machine.remove(self.caller, owner, id)
    }

    fn change_id(&mut self, id: u32, disk: u32) -> Result<Option<ChangeId>, LinkRefused> {
        self.machine.change_id(id, disk)
    }

    fn query(
        &mut self,
        id: u32,
        disk: u32,
        since: Since,
        start: u64,
        page: &mut Page,
    ) -> Result<(), LinkRefused> {
        self.machine.query(id, disk, since, start, page)
    }

    fn read_snap(
        &mut self,
        id: u32,
        disk: u32,
        first: u64,
        buf: &mut [Sector],
    ) -> Result<(), LinkRefused> {
        self.machine.read_snap(id, disk, first, buf)
    }

    fn power_off(&mut self) -> Result<u64, LinkRefused> {
        self.machine.power_off(self.caller)
    }

    fn power_on(&mut self) -> Result<u64, LinkRefused> {
        self.machine.power_on(self.caller)
    }

    fn reset(&mut self, disk: u32) -> Result<(), LinkRefused> {
        self.machine.reset(self.caller, disk)
    }

    fn enable(&mut self) -> Result<(), LinkRefused> {
        self.machine.enable(self.caller)
    }

    fn facts(&mut self) -> Facts {
        self.machine.look()
    }

    fn owned_from(&mut self, owner: Owner, from: u32) -> Option<u32> {
        self.machine.owned_from(owner, from)
    }
}
