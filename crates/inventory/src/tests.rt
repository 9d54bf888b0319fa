//! Each call once, on a fleet of two machines.
ghost use Rattle.std.specs.Prelude.{IfOk};
ghost use Rattle.fleet.specs.Sound.{AllAreIn};

use crate::{find, hosts, machines};
use fleet::{Fleet, FleetRefused, machines_stay_in};
use std::alloc::Global;
use std::test::Fail;

/// Two hosts, and on the second one a machine of two disks.
fn small_fleet(alloc: Global) -> Result<Fleet, FleetRefused>
    ensures { IfOk result (λ fleet. AllAreIn fleet) }
{
    machines_stay_in();
    let mut fleet = Fleet::empty(alloc);
    fleet.add_host("g", 20)?;
    fleet.add_host("h", 3)?;
    fleet.add_vm("a", "h", &[256, 1])?;
    Ok(fleet)
}

#[test]
fn rows_of_hosts(rt: HostRuntime) -> Result<(), Fail> {
    let fleet = small_fleet(rt.alloc())?;
    let rows = hosts(rt.alloc(), &fleet)?;
    let rows = rows.as_slice();
    assert_eq!(rt; rows.len(), 2);
    assert_eq!(rt; rows[0].name.as_str(), "g");
    assert_eq!(rt; rows[0].limit, 20);
    assert_eq!(rt; rows[1].name.as_str(), "h");
    assert_eq!(rt; rows[1].limit, 3);
    Ok(())
}

#[test]
fn rows_of_machines(rt: HostRuntime) -> Result<(), Fail> {
    let fleet = small_fleet(rt.alloc())?;
    let rows = machines(rt.alloc(), &fleet)?;
    let rows = rows.as_slice();
    assert_eq!(rt; rows.len(), 1);
    let row = &rows[0];
    assert_eq!(rt; row.name.as_str(), "a");
    assert_eq!(rt; row.number, 1);
    assert_eq!(rt; row.host.as_str(), "h");
    assert_eq!(rt; row.capacities.as_slice(), [256, 1].as_slice());
    assert!(rt; row.on && !row.tracking);
    Ok(())
}

#[test]
fn finding(rt: HostRuntime) -> Result<(), Fail> {
    let fleet = small_fleet(rt.alloc())?;
    assert_eq!(rt; find(&fleet, "a"), Some(1));
    assert_eq!(rt; find(&fleet, "h"), None);
    Ok(())
}
