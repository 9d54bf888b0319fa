//! What plans ask of the machines of a fleet.
ghost use Rattle.std.specs.Prelude.{◌≡◌, ◌<◌, Some, IfOk, length, slice_get};
ghost use Rattle.fleet.specs.Sound.{AllAreIn};
ghost use Rattle.plan_commands.specs.Machines.{known_of, disks_of, name_of, log_of};

use basics::{Name, NoMemory};
use ctl_state::CtlState;
use fleet::Fleet;
use log_model::Entry;
use plan_model::VmFact;
use std::alloc::Global;

/// What is known of each machine of a fleet, none of which may be out, in order of their numbers.
pub(crate) fn known_of(
    alloc: Global,
    fleet: &Fleet,
    state: &CtlState,
) -> Result<Vec<VmFact>, NoMemory>
    requires { AllAreIn fleet.now }
    ensures { IfOk result (λ known. known.items ≡ known_of fleet.now state.now) }
{
    let mut known = Vec::new(alloc);
    let mut place = 0;
    while fleet.vm_at(place).is_some() {
        let fact = fact_at(alloc, fleet, state, place)?;
        known.push(fact)?;
        place += 1;
    }
    Ok(known)
}

/// What is known of the machine at a place, from 0 on.
fn fact_at(alloc: Global, fleet: &Fleet, state: &CtlState, place: u32) -> Result<VmFact, NoMemory>
    requires place { place < length fleet.now.vms }
    requires all_in { AllAreIn fleet.now }
    ensures { IfOk result (λ fact. slice_get (known_of fleet.now state.now) place ≡ Some fact) }
{
    let (name, _) = fleet.vm_at(place).unwrap();
    let number = place + 1;
    let machine = fleet.machine(number).unwrap();
    Ok(VmFact {
        name: Name::of(alloc, name)?,
        number,
        in_plan: state.is_at_work(number),
        tracking: machine.look().tracking,
    })
}

/// How many disks the machine of a number has. 0 where there is no such machine, and where it is
/// out.
pub(crate) fn disks_of(fleet: &Fleet, vm: u32) -> u32
    ensures { result ≡ disks_of vm fleet.now }
{
    match fleet.machine(vm) {
        None => 0,
        Some(machine) => machine.disks(),
    }
}

/// The name of the machine of a number. The empty text where there is no such machine.
pub(crate) fn name_of(fleet: &Fleet, vm: u32) -> &str
    ensures { result.now ≡ name_of vm fleet.now }
{
    let Some(place) = vm.checked_sub(1) else {
        return "";
    };
    match fleet.vm_at(place) {
        None => "",
        Some((name, _)) => name,
    }
}

/// The log of the machine of a number. No entry where there is no such machine.
pub(crate) fn log_of(fleet: &Fleet, vm: u32) -> &[Entry]
    requires { AllAreIn fleet.now }
    ensures { result.now ≡ log_of vm fleet.now }
{
    match fleet.machine(vm) {
        None => &[],
        Some(machine) => machine.log(),
    }
}
