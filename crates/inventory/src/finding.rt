//! Finding a machine by its name.
ghost use Rattle.std.specs.Prelude.{◌≡◌};
ghost use Rattle.fleet.specs.Fleet.{vm_number};

use fleet::Fleet;

/// The number of the machine of a name, if there is one. It doesn't walk.
pub fn find(fleet: &Fleet, name: &str) -> Option<u32>
    ensures { result ≡ vm_number name.now fleet.now }
{
    fleet.number_of(name)
}
