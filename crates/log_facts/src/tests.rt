//! A first copy and a further one of a machine with one disk of two blocks, record by record, and
//! records that say something else.
use crate::LogFacts;
use ctl_state::CtlState;
use log_model::{Link, Owner};
use record_codec::{Record, decode};
use sector_model::Sector;
use source_vm::{Machine, PlainLink, may_have_disks};
use std::alloc::Global;
use std::process::Abort;
use std::test::Fail;

/// The bodies of the records, in their order.
const BODIES: [&[u8]; 18] = [
    b"\x01\0\0\0\x01\x01p\0\0\0\x3c\0\0\0\x01\0\0\0\x01",
    b"\x02\0\0\0\x01\0\0\0\x01\0\0\0\x01\0\0\0\x01",
    b"\x03\0\0\0\x01\0\0\0\0\0f\x32\x12\xa0",
    b"\x04\0\0\0\x01\0\0\0\x01\0\0\0\0\0\0\0\x01",
    b"\x05\0\0\0\x01\0\0\0\x01\0\0\0\x01\0\0\0\0\0\0\0\0\0\0\0\0\0\0\0\0\0\0\0\x01",
    b"\x06\0\0\0\x01",
    b"\x07\0\0\0\x01\0\0\0\0\0\0\0\x01\0",
    b"\x08\0\0\0\x01\0\0\0\0",
    b"\x09\0\0\0\x01\0\0\0\0\0\0\0\0\0\0\x01\0",
    b"\x0a\0\0\0\x01\0\0\0\0f\x32\x12\xa0",
    b"\x03\0\0\0\x01\x01\0\0\0\0f\x32\x20\xb0",
    b"\x0b\0\0\0\x01\0\0\0\x01",
    b"\x04\0\0\0\x01\0\0\0\x02\0\0\0\0\0\0\0\x04",
    b"\x05\0\0\0\x01\0\0\0\x01\0\0\0\x01\0\0\0\0\0\0\0\0\0\0\0\0\0\0\0\0\0\0\0\x02",
    b"\x07\0\0\0\x01\0\0\0\x01\0\0\0\x02\0",
    b"\x08\0\0\0\x01\0\0\0\0",
    b"\x09\0\0\0\x01\0\0\0\0\0\0\0\0\0\0\0\x80",
    b"\x0a\0\0\0\x01\0\0\0\0f\x32\x20\xb0",
];

/// Tracking is enabled, migration 1 takes snapshot 1, the second block is written, and the
/// migration removes its snapshot and takes the next one.
fn machine(rt: &impl Abort, alloc: Global) -> Result<Machine, Fail> {
    let owner = Owner::Migration(1);
    assert!(rt; may_have_disks(&[256]));
    let mut link = PlainLink::of(Machine::new(alloc, 1, &[256])?);
    link.enable()?;
    link.snap(owner, false)?;
    let mut machine = link.into_machine();
    machine.guest_write(3, 0, 128, &[Sector::filled(1)])?;
    let mut link = PlainLink::of(machine);
    link.remove(owner, 1)?;
    link.snap(owner, false)?;
    Ok(link.into_machine())
}

#[test]
fn a_further_copy_is_borne_out(rt: HostRuntime) -> Result<(), Fail> {
    let alloc = rt.alloc();
    let machine = machine(&rt, alloc)?;
    let facts = LogFacts::of(alloc, &machine)?;
    assert!(rt; facts.is_active());
    let mut state = CtlState::empty(alloc);
    for body in &BODIES {
        let record = decode(alloc, body)?;
        if let Some(migration) = state.status(1) {
            assert!(rt; facts.bears_out(&machine, migration, &record)?);
        }
        state.apply(&record)?;
    }
    let migration = state.status(1).ok_or("no migration")?;
    assert!(rt; facts.has_its_snapshot(migration));
    Ok(())
}

#[test]
fn what_the_log_does_not_say_is_not_borne_out(rt: HostRuntime) -> Result<(), Fail> {
    let alloc = rt.alloc();
    let machine = machine(&rt, alloc)?;
    let facts = LogFacts::of(alloc, &machine)?;
    let mut state = CtlState::empty(alloc);
    for body in &BODIES {
        state.apply(&decode(alloc, body)?)?;
    }
    let migration = state.status(1).ok_or("no migration")?;
    let strange = [
        Record::SnapTaken {
            mig: 2,
            snap: 2,
            mark: 4,
        },
        Record::SnapTaken {
            mig: 1,
            snap: 2,
            mark: 3,
        },
        Record::StageDone {
            mig: 1,
            disk: 0,
            written: 256,
        },
    ];
    for record in &strange {
        assert!(rt; !facts.bears_out(&machine, migration, record)?);
    }
    Ok(())
}
