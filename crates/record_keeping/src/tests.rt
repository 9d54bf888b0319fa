//! A plan that is kept, over a disk with room, and over one that fails in the append.
ghost use Rattle.std.specs.Prelude.{◌≡◌, None, IfOk};
ghost use Rattle.ctl_state.specs.Value.{no_records};
ghost use Rattle.record_codec.specs.Record.{KeepsRule};

use crate::{NotKept, keep_records, one_may_be_kept};
use basics::{Name, NoMemory, NumberList};
use ctl_state::{Controller, CtlState};
use edge_traits::MemDisk;
use journal::Journal;
use record_codec::Record;
use std::alloc::Global;
use std::process::Abort;
use std::test::Fail;
use target_volume::MemVolumes;

/// The plan `p` of the machine 1.
fn plan(alloc: Global) -> Result<Record, NoMemory>
    ensures { IfOk result (λ made. KeepsRule made) }
{
    Ok(Record::PlanMade {
        plan: 1,
        name: Name::of(alloc, "p")?,
        interval: 60,
        vms: NumberList::of(alloc, &[1])?,
    })
}

/// A controller of a disk without a journal, whose call of each of these numbers fails.
fn fresh(alloc: Global, failing: &[u64]) -> Result<Controller<MemDisk, MemVolumes>, Fail>
    ensures { IfOk result (λ c. (c.state ≡ no_records) × (c.journal.failure ≡ None)) }
{
    let Ok(journal) = Journal::open(alloc, MemDisk::new(alloc, &[], 1000, failing)?) else {
        return Err("not opened")?;
    };
    Ok(Controller {
        state: CtlState::empty(alloc),
        journal,
        store: MemVolumes::new(alloc, 0, &[])?,
    })
}

/// What the keeping of the plan answers over such a disk, and how many records the journal has.
fn keep_plan(
    rt: &impl Abort,
    alloc: Global,
    failing: &[u64],
) -> Result<(Result<(), NotKept>, usize), Fail> {
    let mut controller = fresh(alloc, failing)?;
    let records = [plan(alloc)?];
    assert!(rt; controller.journal.records().is_empty());
    assert!(rt; controller.state.stands(&records[0]));
    one_may_be_kept();
    let kept = keep_records(&mut controller, &records);
    Ok((kept, controller.journal.records().len()))
}

#[test]
fn a_record_is_kept(rt: HostRuntime) -> Result<(), Fail> {
    assert_eq!(rt; keep_plan(&rt, rt.alloc(), &[])?, (Ok(()), 1));
    Ok(())
}

/// The opening has seven calls that may fail, and the append begins with a write.
#[test]
fn a_fault_of_the_disk_is_told(rt: HostRuntime) -> Result<(), Fail> {
    assert_eq!(rt; keep_plan(&rt, rt.alloc(), &[7])?, (Err(NotKept::Fault), 0));
    Ok(())
}
