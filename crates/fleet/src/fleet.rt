//! A fleet: its hosts and its machines, how they are added and found, and how a machine is taken
//! out to be changed and put back.
ghost use Rattle.std.specs.Prelude.{◌≡◌, ℕ, ◌+◌, ◌≤◌, List, length, option_copied, option_map, slice_get, IfOk, OnErr, OnOk};
ghost use Rattle.basics.specs.Refusal.{IsRefusedOr};
ghost use Rattle.basics.specs.Spelled.{IsName};
ghost use Rattle.basics.specs.declared.limits.TheConstants.{MAX_HOST_LIMIT};
ghost use Rattle.fleet.specs.Fleet.{HostState, empty_fleet, vm_number, machine_of, with_host, with_vm_under};
ghost use Rattle.fleet.specs.Sound.{IsFleet};
ghost use Rattle.fleet.specs.Refusals.{add_host_refusal, add_vm_refusal};
ghost use Rattle.fleet.specs.Lending.{lifted, after_lift, MayGoBack, after_lower};

use crate::name_map::NameMap;
use crate::vm::{Host, Vm};
use crate::{FleetRefused, MAX_HOSTS, MAX_VMS};
use source_vm::{Machine, PlainLink, may_have_disks};
use std::alloc::Global;
use std::fmt;
use std::marker::Model;

/// Hosts and machines by their names, in the order in which they were added. Hosts have places
/// from 0 on, machines have numbers from 1 on. A host and a machine may have one name. What is true
/// of every fleet, the calls that find a name tell as `sound`.
#[derive(Drop)]
pub struct Fleet {
    alloc: Global,
    hosts: NameMap<Host>,
    vms: NameMap<Vm>,
}

impl Model for Fleet {
    ghost use Rattle.fleet.specs.Fleet.{FleetState};

    ghost Value = { FleetState };

    ghost use Rattle.fleet.specs.Fields.{fleet_state, IsKept};

    ghost view = { λ a. fleet_state a.hosts a.vms };

    ghost invariant = { λ a. IsKept a.hosts a.vms };
}

impl Fleet {
    /// A fleet with no host and no machine. It keeps the allocator.
    pub fn empty(alloc: Global) -> Fleet
        ensures { result ≡ empty_fleet }
    {
        Fleet {
            alloc,
            hosts: NameMap::new(alloc),
            vms: NameMap::new(alloc),
        }
    }

    /// Adds a host. `name` is a name of 1 to 32 bytes of `a` to `z`, `0` to `9` and `-`, and
    /// `limit` is how many disks that are copied from the host may be in flight, 1 to
    /// [`MAX_HOST_LIMIT`](basics::MAX_HOST_LIMIT). [`FleetRefused::NameTaken`] where a host has
    /// that name, then [`FleetRefused::TooMany`] where there are [`MAX_HOSTS`] hosts, and
    /// [`FleetRefused::NoMemory`]. A refused call changes nothing.
    pub fn add_host(&mut self, name: &str, limit: u32) -> Result<(), FleetRefused>
        requires named { IsName name.now }
        requires at_least { 1 ≤ limit }
        requires at_most { limit ≤ MAX_HOST_LIMIT }
        ensures ok { OnOk result (self.new ≡ with_host name.now limit self.old) }
        ensures err { OnErr result (self.new ≡ self.old) }
        ensures refused { IsRefusedOr (add_host_refusal name.now self.old)
            FleetRefused.NoMemory result }
    {
        if self.hosts.place_of(name).is_some() {
            return Err(FleetRefused::NameTaken);
        }
        if self.hosts.len() >= MAX_HOSTS {
            return Err(FleetRefused::TooMany);
        }
        self.hosts.push(name, Host { limit })?;
        Ok(())
    }

    /// Adds a machine, on and with nothing written, to the host of a name, and gives its number: 1
    /// for the first one, then 2 and so on. `name` is a name as for [`Fleet::add_host`], and
    /// `capacities` are the sizes of its disks in sectors. [`FleetRefused::NameTaken`] where a
    /// machine has that name; [`FleetRefused::UnknownHost`] where no host has that one;
    /// [`FleetRefused::BadSize`] where there aren't 1 to [`MAX_DISKS`](basics::MAX_DISKS)
    /// capacities of 1 to [`MAX_DISK_SECTORS`](basics::MAX_DISK_SECTORS);
    /// [`FleetRefused::TooMany`] where there are [`MAX_VMS`] machines; and
    /// [`FleetRefused::NoMemory`]. A refused call changes nothing.
    pub fn add_vm(
        &mut self,
        name: &str,
        host: &str,
        capacities: &[u64],
    ) -> Result<u32, FleetRefused>
        requires { IsName name.now }
        ensures number { IfOk result (λ number. number ≡ length self.old.vms + 1) }
        ensures ok { OnOk result
            (self.new ≡ with_vm_under name.now host.now capacities.now self.old) }
        ensures err { OnErr result (self.new ≡ self.old) }
        ensures refused { IsRefusedOr
            (add_vm_refusal name.now host.now capacities.now self.old)
            FleetRefused.NoMemory result }
    {
        if self.vms.place_of(name).is_some() {
            return Err(FleetRefused::NameTaken);
        }
        let Some(place) = self.hosts.place_of(host) else {
            return Err(FleetRefused::UnknownHost);
        };
        if !may_have_disks(capacities) {
            return Err(FleetRefused::BadSize);
        }
        if self.vms.len() >= MAX_VMS {
            return Err(FleetRefused::TooMany);
        }
        let number = self.vms.len() as u32 + 1;
        let machine = Machine::new(self.alloc, number, capacities)?;
        let vm = Vm::of(place as u32, machine);
        self.vms.push(name, vm)?;
        Ok(number)
    }

    /// The number of the machine of a name, if there is one.
    pub fn number_of(&self, name: &str) -> Option<u32>
        ensures number { result ≡ vm_number name.now self.now }
        ensures sound { IsFleet self.now }
    {
        let place = self.vms.place_of(name)?;
        Some(place as u32 + 1)
    }

    /// The machine of a number. None where there is no such machine, and where it is out.
    pub fn machine(&self, number: u32) -> Option<&Machine>
        ensures { option_copied result ≡ machine_of number self.now }
    {
        let place = number.checked_sub(1)?;
        let vm = self.vms.at(place as usize)?;
        vm.machine.as_ref()
    }

    /// The name and the limit of a host, if there is one at this place, from 0 on.
    pub fn host_at(&self, place: u32) -> Option<(&str, u32)>
        ensures host { option_map {U = HostState}
            (λ p. record { name = p.0.now; limit = p.1 }) result
            ≡ slice_get self.now.hosts place }
        ensures sound { IsFleet self.now }
    {
        let name = self.hosts.name_at(place as usize)?;
        let host = self.hosts.at(place as usize)?;
        Some((name, host.limit))
    }

    /// The name of a machine and the place of its host, if there is one at this place, from 0 on:
    /// that of the number 1 is at place 0.
    pub fn vm_at(&self, place: u32) -> Option<(&str, u32)>
        ensures vm { option_map {U = List ℕ × ℕ} (λ p. (p.0.now, p.1)) result
            ≡ option_map (λ vm. (vm.name, vm.host)) (slice_get self.now.vms place) }
        ensures sound { IsFleet self.now }
    {
        let name = self.vms.name_at(place as usize)?;
        let vm = self.vms.at(place as usize)?;
        Some((name, vm.host))
    }

    /// Takes the machine of a number out, to be changed, as a link that nobody shares. None where
    /// there is no such machine, and where it is out; then nothing changes. It takes no memory.
    pub fn lift(&mut self, number: u32) -> Option<PlainLink>
        ensures link { result ≡ lifted number self.old }
        ensures after { self.new ≡ after_lift number self.old }
    {
        let place = number.checked_sub(1)? as usize;
        let vm = self.vms.at(place)?;
        let out = vm.without(vm.machine.as_ref()?);
        let Vm { machine, .. } = self.vms.replace(place, out);
        machine.map(PlainLink::of)
    }

    /// Puts the machine of a link back in its place, with all that happened to it. The link has to
    /// be over a machine that [`Fleet::lift`] took out of this fleet. It takes no memory.
    pub fn lower(&mut self, link: PlainLink)
        requires { MayGoBack link self.old }
        ensures { self.new ≡ after_lower link self.old }
    {
        let machine = link.into_machine();
        let place = machine.number() as usize - 1;
        let host = self.vms.at(place).unwrap().host;
        let vm = Vm::of(host, machine);
        let _ = self.vms.replace(place, vm);
    }
}

impl fmt::Debug for Fleet {
    fn fmt<W: fmt::Write>(&self, f: &mut fmt::Formatter<W>) -> fmt::Result {
        write!(
            f,
            "Fleet {{ hosts: {}, vms: {} }}",
            self.hosts.len(),
            self.vms.len()
        )
    }
}
