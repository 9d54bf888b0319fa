//! A disk without a journal, and journals of one record that is strange.
ghost use Rattle.std.specs.Prelude.{◌≤◌, length};

use crate::{ReopenRefused, reopen};
use basics::is_name;
use edge_traits::MemDisk;
use fleet::Fleet;
use std::alloc::Global;
use std::test::Fail;
use target_volume::MemVolumes;

/// The journal of a plan of the machine 1.
const PLAN: [u8; 33] = [
    87, 65, 82, 77, 74, 78, 76, 49, 1, 0, 0, 0, 19, 1, 0, 0, 0, 1, 1, 112, 0, 0, 0, 60, 0, 0, 0, 1,
    0, 0, 0, 1, 0,
];

/// The journal of a pause of the migration 2, which was never begun.
const PAUSE: [u8; 27] = [
    87, 65, 82, 77, 74, 78, 76, 49, 1, 0, 0, 0, 13, 10, 0, 0, 0, 2, 0, 0, 0, 0, 102, 50, 18, 160, 0,
];

/// How many plans the controller has whose journal is this file, or why it isn't reopened.
fn plans_of(alloc: Global, file: &[u8], fleet: Fleet) -> Result<Result<usize, ReopenRefused>, Fail>
    requires { length file.now ≤ 1000 }
{
    let disk = MemDisk::new(alloc, file, 1000, &[])?;
    let store = MemVolumes::new(alloc, 0, &[])?;
    let mut fleet = fleet;
    match reopen(alloc, disk, store, &mut fleet) {
        Ok(controller) => Ok(Ok(controller.state.plans().len())),
        Err((_, _, why)) => Ok(Err(why)),
    }
}

#[test]
fn a_disk_without_a_journal_is_reopened(rt: HostRuntime) -> Result<(), Fail> {
    let plans = plans_of(rt.alloc(), &[], Fleet::empty(rt.alloc()))?;
    assert_eq!(rt; plans, Ok(0));
    Ok(())
}

#[test]
fn a_record_of_no_migration_is_strange(rt: HostRuntime) -> Result<(), Fail> {
    let plans = plans_of(rt.alloc(), &PAUSE, Fleet::empty(rt.alloc()))?;
    assert_eq!(rt; plans, Err(ReopenRefused::Strange(1)));
    Ok(())
}

/// A fleet of one machine, which isn't tracked.
fn untracked(alloc: Global) -> Result<Fleet, Fail> {
    let mut fleet = Fleet::empty(alloc);
    let name = "h";
    if is_name(name.as_bytes()) {
        fleet.add_host(name, 20)?;
        fleet.add_vm(name, name, &[256])?;
    }
    Ok(fleet)
}

#[test]
fn a_plan_of_a_machine_without_tracking_is_strange(rt: HostRuntime) -> Result<(), Fail> {
    let none = plans_of(rt.alloc(), &PLAN, Fleet::empty(rt.alloc()))?;
    assert_eq!(rt; none, Err(ReopenRefused::Strange(1)));
    let untracked = plans_of(rt.alloc(), &PLAN, untracked(rt.alloc())?)?;
    assert_eq!(rt; untracked, Err(ReopenRefused::Strange(1)));
    Ok(())
}
