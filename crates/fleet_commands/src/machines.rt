//! The machine that a command names, taken out of the fleet for as long as the command lasts.
ghost use Rattle.std.specs.Prelude.{◌≡◌, IfSome, true};
ghost use Rattle.std.specs.Option.{option_map_or};
ghost use Rattle.source_vm.specs.Machine.{may_have_disks};
ghost use Rattle.fleet.specs.Lending.{after_lift};
ghost use Rattle.fleet_commands.specs.Machines.{machine_named};

use basics::Name;
use fleet::Fleet;
use source_vm::Machine;

/// Takes the machine of a name out of the fleet, to which it has to come back. None where there is
/// no such machine, and where it is out; then nothing changes. It takes no memory.
pub(crate) fn take_out(fleet: &mut Fleet, vm: &Name) -> Option<Machine>
    ensures machine { result ≡ machine_named vm.now fleet.old }
    ensures after { fleet.new
        ≡ option_map_or (λ m. after_lift m.number fleet.old) result fleet.old }
    ensures disks { IfSome result (λ m. may_have_disks m.capacities ≡ true) }
{
    let number = fleet.number_of(vm.as_str())?;
    let link = fleet.lift(number)?;
    Some(link.into_machine())
}
