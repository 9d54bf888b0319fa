//! The limits, the order of refusals, and each public call once.
use crate::{Fleet, FleetRefused, MAX_HOSTS, MAX_VMS};
use basics::is_name;
use std::alloc::Global;
use std::test::Fail;

/// Adds a host with the limit 20, under a text that is a name.
fn add_host(fleet: &mut Fleet, name: &str) -> Result<(), FleetRefused> {
    if is_name(name.as_bytes()) {
        fleet.add_host(name, 20)
    } else {
        Err(FleetRefused::UnknownHost)
    }
}

/// Adds a machine to the host `h`, under a text that is a name.
fn add_vm(fleet: &mut Fleet, name: &str, capacities: &[u64]) -> Result<u32, FleetRefused> {
    add_vm_to(fleet, name, "h", capacities)
}

fn add_vm_to(
    fleet: &mut Fleet,
    name: &str,
    host: &str,
    capacities: &[u64],
) -> Result<u32, FleetRefused> {
    if is_name(name.as_bytes()) {
        fleet.add_vm(name, host, capacities)
    } else {
        Err(FleetRefused::UnknownHost)
    }
}

fn with_host(alloc: Global) -> Result<Fleet, FleetRefused> {
    let mut fleet = Fleet::empty(alloc);
    add_host(&mut fleet, "h")?;
    Ok(fleet)
}

#[test]
fn sixty_four_hosts(rt: HostRuntime) -> Result<(), Fail> {
    let mut fleet = Fleet::empty(rt.alloc());
    for place in 0..MAX_HOSTS {
        let name = format!(in rt.alloc(); "host-{place}")?;
        add_host(&mut fleet, name.as_str())?;
    }
    assert_eq!(rt; add_host(&mut fleet, "host-64"), Err(FleetRefused::TooMany));
    assert_eq!(rt;
        add_host(&mut fleet, "host-63"),
        Err(FleetRefused::NameTaken)
    );
    assert_eq!(rt; fleet.host_at(63), Some(("host-63", 20)));
    assert_eq!(rt; fleet.host_at(64), None);
    Ok(())
}

#[test]
fn sixty_four_machines(rt: HostRuntime) -> Result<(), Fail> {
    let mut fleet = with_host(rt.alloc())?;
    for place in 0..MAX_VMS {
        let name = format!(in rt.alloc(); "vm-{place}")?;
        assert_eq!(rt; add_vm(&mut fleet, name.as_str(), &[1])?, place as u32 + 1);
    }
    assert_eq!(rt;
        add_vm(&mut fleet, "vm-64", &[1]),
        Err(FleetRefused::TooMany)
    );
    assert_eq!(rt;
        add_vm(&mut fleet, "vm-64", &[]),
        Err(FleetRefused::BadSize)
    );
    assert_eq!(rt;
        add_vm(&mut fleet, "vm-63", &[1]),
        Err(FleetRefused::NameTaken)
    );
    assert_eq!(rt; fleet.number_of("vm-63"), Some(64));
    assert_eq!(rt; fleet.number_of("vm-64"), None);
    assert_eq!(rt; fleet.vm_at(63), Some(("vm-63", 0)));
    assert_eq!(rt; fleet.vm_at(64), None);
    Ok(())
}

#[test]
fn disks_of_a_machine(rt: HostRuntime) -> Result<(), Fail> {
    let mut fleet = with_host(rt.alloc())?;
    assert_eq!(rt; add_vm(&mut fleet, "a", &[]), Err(FleetRefused::BadSize));
    assert_eq!(rt;
        add_vm(&mut fleet, "a", &[1; 17]),
        Err(FleetRefused::BadSize)
    );
    assert_eq!(rt;
        add_vm(&mut fleet, "a", &[1, 0]),
        Err(FleetRefused::BadSize)
    );
    assert_eq!(rt;
        add_vm(&mut fleet, "a", &[(1 << 29) + 1]),
        Err(FleetRefused::BadSize)
    );
    assert_eq!(rt; add_vm(&mut fleet, "a", &[1; 16])?, 1);
    assert_eq!(rt; add_vm(&mut fleet, "b", &[1 << 29])?, 2);
    Ok(())
}

#[test]
fn names_of_hosts_and_machines(rt: HostRuntime) -> Result<(), Fail> {
    let mut fleet = with_host(rt.alloc())?;
    assert_eq!(rt;
        add_vm_to(&mut fleet, "a", "g", &[]),
        Err(FleetRefused::UnknownHost)
    );
    assert_eq!(rt; add_vm(&mut fleet, "h", &[1])?, 1);
    assert_eq!(rt;
        add_vm_to(&mut fleet, "h", "g", &[]),
        Err(FleetRefused::NameTaken)
    );
    add_host(&mut fleet, "g")?;
    assert_eq!(rt; add_vm_to(&mut fleet, "a", "g", &[1])?, 2);
    assert_eq!(rt; fleet.vm_at(1), Some(("a", 1)));
    assert_eq!(rt;
        format!(in rt.alloc(); "{fleet:?}")?.as_str(),
        "Fleet { hosts: 2, vms: 2 }"
    );
    Ok(())
}

/// Takes a machine out and puts it back at once, if it is there and in.
fn lift_and_lower(fleet: &mut Fleet, number: u32) -> bool {
    match fleet.lift(number) {
        Some(link) => {
            fleet.lower(link);
            true
        }
        None => false,
    }
}

#[test]
fn a_machine_is_out_until_it_is_put_back(rt: HostRuntime) -> Result<(), Fail> {
    let mut fleet = with_host(rt.alloc())?;
    add_vm(&mut fleet, "a", &[1])?;
    assert!(rt; !lift_and_lower(&mut fleet, 0));
    assert!(rt; !lift_and_lower(&mut fleet, 2));
    assert!(rt; lift_and_lower(&mut fleet, 1));
    assert_eq!(rt; fleet.machine(1).map(|machine| machine.number()), Some(1));
    assert!(rt; fleet.lift(1).is_some());
    assert!(rt; fleet.lift(1).is_none());
    assert!(rt; fleet.machine(1).is_none());
    assert_eq!(rt; fleet.number_of("a"), Some(1));
    Ok(())
}

#[test]
fn refusals_have_numbers_and_texts(rt: HostRuntime) -> Result<(), Fail> {
    let rows = [
        (FleetRefused::NameTaken, Some(1), "the name is taken"),
        (FleetRefused::UnknownHost, Some(2), "no such host"),
        (FleetRefused::TooMany, Some(3), "the fleet is full"),
        (
            FleetRefused::BadSize,
            Some(4),
            "no such number or size of disks",
        ),
        (FleetRefused::NoMemory, None, "out of memory"),
    ];
    for (refused, number, text) in rows {
        assert_eq!(rt; refused.number(), number);
        assert_eq!(rt; format!(in rt.alloc(); "{refused}")?.as_str(), text);
    }
    Ok(())
}
