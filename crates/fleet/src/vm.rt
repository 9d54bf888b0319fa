//! A host and a machine as a fleet keeps them. A machine may be out.
ghost use Rattle.std.specs.Prelude.{◌≡◌, None};
ghost use Rattle.fleet.specs.Vm.{machine_under};

use source_vm::Machine;
use std::snapshot::Snapshot;

/// A host of a fleet.
#[derive(Drop)]
pub(crate) struct Host {
    /// How many disks that are copied from it may be in flight.
    pub limit: u32,
}

/// A machine of a fleet.
#[derive(Drop)]
pub(crate) struct Vm {
    /// The place of its host.
    pub host: u32,
    /// The machine, if it isn't out.
    pub machine: Option<Machine>,
    /// While it is out, what it was when it was taken out, for contracts alone.
    pub remembered: Snapshot<Machine>,
}

impl Vm {
    /// A machine on the host at this place.
    pub fn of(host: u32, machine: Machine) -> Vm
        ensures host { result.host ≡ host }
        ensures machine { result.machine ≡ Some machine }
    {
        let remembered = Snapshot::of(&machine);
        Vm {
            host,
            machine: Some(machine),
            remembered,
        }
    }

    /// The same one while `machine`, which it has, is out.
    pub fn without(&self, machine: &Machine) -> Vm
        ensures host { result.host ≡ self.now.host }
        ensures machine { result.machine ≡ None }
        ensures remembered { machine_under result ≡ machine.now }
    {
        Vm {
            host: self.host,
            machine: None,
            remembered: Snapshot::of(machine),
        }
    }
}
