//! Each command once, by the line of its answer.
ghost use Rattle.std.specs.Prelude.{IfOk, OnOk};
ghost use Rattle.fleet.specs.Sound.{AllAreIn};
ghost use Rattle.record_codec.specs.Record.{KeepsRule};
ghost use Rattle.record_keeping.specs.Keeping.{keeping, IsReady};

use crate::{ask_start, carry_out_cutover, carry_out_plan, has_numbers_for, status_of};
use answers::line_for;
use basics::{Name, NoMemory, NumberList};
use ctl_state::{Controller, CtlState};
use edge_traits::MemDisk;
use fleet::{Fleet, FleetRefused, machines_stay_in};
use journal::Journal;
use record_codec::Record;
use record_keeping::{keep_records, one_may_be_kept};
use std::alloc::Global;
use std::process::Abort;
use std::test::Fail;
use target_volume::MemVolumes;

/// The machine `a` on the host `h`.
fn small_fleet(alloc: Global) -> Result<Fleet, FleetRefused>
    ensures { IfOk result (λ fleet. AllAreIn fleet) }
{
    machines_stay_in();
    let mut fleet = Fleet::empty(alloc);
    fleet.add_host("h", 20)?;
    fleet.add_vm("a", "h", &[256])?;
    Ok(fleet)
}

/// The plan `p` of the machine 1.
fn plan_made(alloc: Global) -> Result<Record, NoMemory>
    ensures { IfOk result (λ made. KeepsRule made) }
{
    Ok(Record::PlanMade {
        plan: 1,
        name: Name::of(alloc, "p")?,
        interval: 60,
        vms: NumberList::of(alloc, &[1])?,
    })
}

/// The migration 1 of that machine begins.
fn started() -> Record
    ensures { KeepsRule result }
{
    Record::MigrationStarted {
        mig: 1,
        plan: 1,
        vm: 1,
        disks: 1,
    }
}

/// A controller that has no record.
fn fresh(alloc: Global) -> Result<Controller<MemDisk, MemVolumes>, Fail>
    ensures { IfOk result (λ c. IsReady (keeping c.state c.journal)) }
{
    let Ok(journal) = Journal::open(alloc, MemDisk::new(alloc, &[], 1000, &[])?) else {
        return Err("not opened")?;
    };
    if !journal.records().is_empty() {
        return Err("a record")?;
    }
    Ok(Controller {
        state: CtlState::empty(alloc),
        journal,
        store: MemVolumes::new(alloc, 0, &[])?,
    })
}

/// Keeps a record.
fn keep(
    rt: &impl Abort,
    controller: &mut Controller<MemDisk, MemVolumes>,
    made: Record,
) -> Result<(), Fail>
    requires ready { IsReady (keeping controller.old.state controller.old.journal) }
    requires rule { KeepsRule made }
    ensures { OnOk result (IsReady (keeping controller.new.state controller.new.journal)) }
{
    one_may_be_kept();
    assert!(rt; controller.state.stands(&made));
    keep_records(controller, &[made])?;
    Ok(())
}

#[test]
fn a_plan_of_an_unknown_machine_is_refused(rt: HostRuntime) -> Result<(), Fail> {
    let alloc = rt.alloc();
    let mut controller = fresh(alloc)?;
    let fleet = small_fleet(alloc)?;
    let name = Name::of(alloc, "p")?;
    let vms = [Name::of(alloc, "b")?];
    let answer = carry_out_plan(alloc, &mut controller, &fleet, &name, &vms, None)?;
    let line = line_for(alloc, answer)?;
    let refused = b"{\"error\":\"unknown-vm\",\"ok\":false,\"vm\":\"b\"}\n".as_slice();
    assert_eq!(rt; line.as_slice(), refused);
    assert_eq!(rt; controller.journal.records().len(), 0);
    Ok(())
}

#[test]
fn a_start_tells_the_numbers(rt: HostRuntime) -> Result<(), Fail> {
    let alloc = rt.alloc();
    let mut state = CtlState::empty(alloc);
    state.apply(&plan_made(alloc)?)?;
    let name = Name::of(alloc, "p")?;
    assert!(rt; has_numbers_for(&state, &name));
    let asked = ask_start(alloc, &small_fleet(alloc)?, &state, &name)?;
    let line = line_for(alloc, asked.map(|asked| asked.reply))?;
    assert_eq!(rt;
        line.as_slice(),
        b"{\"migrations\":[1],\"ok\":true}\n".as_slice()
    );
    Ok(())
}

#[test]
fn a_cutover_is_kept(rt: HostRuntime) -> Result<(), Fail> {
    let alloc = rt.alloc();
    let mut controller = fresh(alloc)?;
    keep(&rt, &mut controller, plan_made(alloc)?)?;
    keep(&rt, &mut controller, started())?;
    let name = Name::of(alloc, "p")?;
    let answer = carry_out_cutover(alloc, &mut controller, &name, None)?;
    let line = line_for(alloc, answer)?;
    assert_eq!(rt; line.as_slice(), b"{\"ok\":true}\n".as_slice());
    assert_eq!(rt; controller.journal.records().len(), 3);
    Ok(())
}

/// The line of a migration that was just started.
const READY: &str = concat!(
    "{\"migrations\":[{\"cause\":null,\"checkpoints\":[],\"dv\":\"Pending\",\"marks\":[],",
    "\"mig\":1,",
    "\"phase\":\"Started\",\"place\":null,\"plan\":\"p\",\"state\":\"ready\",\"vm\":\"a\",",
    "\"writes\":null,\"written\":[]}],\"ok\":true}\n"
);

#[test]
fn a_migration_that_was_started_is_ready(rt: HostRuntime) -> Result<(), Fail> {
    let alloc = rt.alloc();
    let mut state = CtlState::empty(alloc);
    state.apply(&plan_made(alloc)?)?;
    state.apply(&started())?;
    let line = line_for(alloc, Ok(status_of(alloc, &small_fleet(alloc)?, &state)?))?;
    assert_eq!(rt; line.as_slice(), READY.as_bytes());
    Ok(())
}
