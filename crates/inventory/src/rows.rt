//! The rows of a listing, each a copy of what the fleet has.
ghost use Rattle.std.specs.Prelude.{◌≡◌, ◌<◌, length, slice_get, IfOk};
ghost use Rattle.fleet.specs.Sound.{AllAreIn};
ghost use Rattle.inventory.specs.Rows.{host_rows, vm_rows};

use basics::{NoMemory, Sequence, Text};
use fleet::Fleet;
use source_vm::Machine;
use std::alloc::Global;

/// A host.
#[derive(Debug, Drop)]
pub struct HostRow {
    /// Its name.
    pub name: Text,
    /// How many disks that are copied from it may be in flight.
    pub limit: u32,
}

/// A machine.
#[derive(Debug, Drop)]
pub struct VmRow {
    /// Its name.
    pub name: Text,
    /// Its number, from 1 on.
    pub number: u32,
    /// The name of its host.
    pub host: Text,
    /// The capacities of its disks, in sectors.
    pub capacities: Sequence<u64>,
    /// Whether it is on.
    pub on: bool,
    /// Whether its changes are tracked by now.
    pub tracking: bool,
}

/// A row a host, in the order in which they were added. It answers only want of memory.
pub fn hosts(alloc: Global, fleet: &Fleet) -> Result<Sequence<HostRow>, NoMemory>
    ensures { IfOk result (λ rows. rows ≡ host_rows fleet.now) }
{
    let mut rows = Vec::new(alloc);
    let mut place = 0;
    while let Some((name, limit)) = fleet.host_at(place) {
        let name = Text::of(alloc, name)?;
        rows.push(HostRow { name, limit })?;
        place += 1;
    }
    Ok(Sequence::from_vec(rows))
}

/// A row a machine, in the order in which they were added, none of which may be out. It answers
/// only want of memory.
pub fn machines(alloc: Global, fleet: &Fleet) -> Result<Sequence<VmRow>, NoMemory>
    requires { AllAreIn fleet.now }
    ensures { IfOk result (λ rows. rows ≡ vm_rows fleet.now) }
{
    let mut rows = Vec::new(alloc);
    let mut place = 0;
    while fleet.vm_at(place).is_some() {
        let row = row_of(alloc, fleet, place)?;
        rows.push(row)?;
        place += 1;
    }
    Ok(Sequence::from_vec(rows))
}

/// The row of the machine at a place, from 0 on.
fn row_of(alloc: Global, fleet: &Fleet, place: u32) -> Result<VmRow, NoMemory>
    requires place { place < length fleet.now.vms }
    requires all_in { AllAreIn fleet.now }
    ensures { IfOk result (λ row. slice_get (vm_rows fleet.now) place ≡ Some row) }
{
    let (name, host) = fleet.vm_at(place).unwrap();
    let (host, _) = fleet.host_at(host).unwrap();
    let machine = fleet.machine(place + 1).unwrap();
    let facts = machine.look();
    Ok(VmRow {
        name: Text::of(alloc, name)?,
        number: place + 1,
        host: Text::of(alloc, host)?,
        capacities: capacities_of(alloc, machine)?,
        on: facts.on,
        tracking: facts.tracking,
    })
}

/// The capacities of a machine's disks, in sectors.
fn capacities_of(alloc: Global, machine: &Machine) -> Result<Sequence<u64>, NoMemory>
    ensures { IfOk result (λ capacities. capacities ≡ machine.now.capacities) }
{
    let mut capacities = Vec::new(alloc);
    for disk in 0..machine.disks() {
        capacities.push(machine.capacity(disk))?;
    }
    Ok(Sequence::from_vec(capacities))
}
