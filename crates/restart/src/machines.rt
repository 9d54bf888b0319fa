//! What records find of the machines of a fleet. None of it walks a log or takes memory.
ghost use Rattle.std.specs.Prelude.{◌≡◌};
ghost use Rattle.std.specs.List.{list_all};
ghost use Rattle.restart.specs.Machines.{is_tracked, is_tracked_with};

use fleet::Fleet;

/// Whether each of these machines is there, with tracking active on it.
pub(crate) fn are_tracked(fleet: &Fleet, vms: &[u32]) -> bool
    ensures { result ≡ list_all (is_tracked fleet.now) vms.now }
{
    vms.iter().all(|vm| is_tracked(fleet, *vm))
}

/// Whether the machine is there, with tracking active on it.
fn is_tracked(fleet: &Fleet, vm: u32) -> bool
    ensures { result ≡ is_tracked fleet.now vm }
{
    match fleet.machine(vm) {
        None => false,
        Some(machine) => machine.look().tracking,
    }
}

/// Whether the machine is there, with tracking active on it and so many disks.
pub(crate) fn is_tracked_with(fleet: &Fleet, vm: u32, disks: u32) -> bool
    ensures { result ≡ is_tracked_with fleet.now vm disks }
{
    match fleet.machine(vm) {
        None => false,
        Some(machine) => machine.look().tracking && machine.disks() == disks,
    }
}
