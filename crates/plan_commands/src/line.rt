//! The line of a migration, as `status` shows it.
ghost use Rattle.std.specs.Prelude.{◌≡◌, IfOk, map, option_map};
ghost use Rattle.log_model.specs.Entry.{writes_before};
ghost use Rattle.fleet.specs.Sound.{AllAreIn};
ghost use Rattle.ctl_state.specs.StatusLine.{cause_of, state_of_end, state_in, state_of, dv_name, told_place, plan_name, checkpoint_line};
ghost use Rattle.plan_commands.specs.commands.Status.{check_line, migration_line};

use crate::machines::{log_of, name_of};
use basics::{NoMemory, Sequence, Text};
use checkpoints::{Checkpoint, DvPhase};
use ctl_state::{CtlState, How, Migration};
use fleet::Fleet;
use log_model::Entry;
use phase_table::Phase;
use reply_json::{CheckLine, MigLine};
use std::alloc::Global;

/// The line of a migration.
pub(crate) fn migration_line(
    alloc: Global,
    fleet: &Fleet,
    state: &CtlState,
    migration: &Migration,
) -> Result<MigLine, NoMemory>
    requires { AllAreIn fleet.now }
    ensures { IfOk result (λ line. line ≡ migration_line fleet.now state.now migration.now) }
{
    let place = told_place(migration);
    Ok(MigLine {
        cause: cause_of(alloc, migration.how)?,
        checkpoints: check_lines(alloc, migration.dv.checkpoints())?,
        dv: Text::of(alloc, dv_name(migration.dv.phase()))?,
        marks: numbers_of(alloc, migration.marks.as_slice())?,
        mig: migration.number,
        phase: Text::of(alloc, migration.phase.name())?,
        place,
        plan: Text::of(alloc, plan_name(state, migration))?,
        state: Text::of(alloc, state_of(migration))?,
        vm: Text::of(alloc, name_of(fleet, migration.vm))?,
        writes: writes_told(place, log_of(fleet, migration.vm)),
        written: numbers_of(alloc, migration.written.as_slice())?,
    })
}

/// Why a migration failed, where it did.
fn cause_of(alloc: Global, how: Option<How>) -> Result<Option<Text>, NoMemory>
    ensures { IfOk result (λ cause. cause ≡ cause_of how) }
{
    let cause = match how {
        Some(How::FailedVolume) => Text::of(alloc, "volume")?,
        Some(How::FailedSpent) => Text::of(alloc, "spent")?,
        Some(How::Completed) | Some(How::Cancelled) | None => return Ok(None),
    };
    Ok(Some(cause))
}

/// The checkpoints, as lines show them.
fn check_lines(alloc: Global, checkpoints: &[Checkpoint]) -> Result<Sequence<CheckLine>, NoMemory>
    ensures { IfOk result
        (λ lines. lines ≡ map check_line (map checkpoint_line checkpoints.now)) }
{
    Ok(Sequence::from_vec(shown(alloc, checkpoints)?))
}

fn shown(alloc: Global, checkpoints: &[Checkpoint]) -> Result<Vec<CheckLine>, NoMemory>
    ensures { IfOk result (λ lines. lines.items
        ≡ map (λ checkpoint. check_line (checkpoint_line checkpoint)) checkpoints.now) }
{
    let lines = checkpoints.iter().map(|checkpoint| CheckLine {
        previous: checkpoint.previous,
        current: checkpoint.current,
    });
    Ok(lines.collect(alloc)?)
}

/// A copy of numbers.
fn numbers_of(alloc: Global, numbers: &[u64]) -> Result<Sequence<u64>, NoMemory>
    ensures { IfOk result (λ copy. copy ≡ numbers.now) }
{
    Ok(Sequence::from_vec(Vec::from_slice(alloc, numbers)?))
}

/// The name of the phase of a data volume.
fn dv_name(phase: DvPhase) -> &'static str
    ensures { result.now ≡ dv_name phase }
{
    match phase {
        DvPhase::Pending => "Pending",
        DvPhase::InProgress => "InProgress",
        DvPhase::Paused => "Paused",
        DvPhase::Succeeded => "Succeeded",
    }
}

/// The place of the power-off before the final snapshot, of a migration that is complete.
fn told_place(migration: &Migration) -> Option<u64>
    ensures { result ≡ told_place migration.now }
{
    match migration.how {
        Some(How::Completed) => migration.place,
        _ => None,
    }
}

/// The name of the plan of a migration.
fn plan_name<'a>(state: &'a CtlState, migration: &Migration) -> &'a str
    ensures { result.now ≡ plan_name state.now migration.now }
{
    match state.plan(migration.plan) {
        None => "",
        Some(plan) => plan.name.as_str(),
    }
}

/// How a migration stands: an end goes before a cancel, and a cancel before the phase.
fn state_of(migration: &Migration) -> &'static str
    ensures { result.now ≡ state_of migration.now.how migration.now.cancel migration.now.phase }
{
    match migration.how {
        Some(how) => state_of_end(how),
        None if migration.cancel => "cancelling",
        None => state_in(migration.phase),
    }
}

fn state_of_end(how: How) -> &'static str
    ensures { result.now ≡ state_of_end how }
{
    match how {
        How::Completed => "complete",
        How::Cancelled => "cancelled",
        How::FailedVolume | How::FailedSpent => "failed",
    }
}

fn state_in(phase: Phase) -> &'static str
    ensures { result.now ≡ state_in phase }
{
    match phase {
        Phase::Started => "ready",
        Phase::CopyingPaused => "paused",
        _ => "running",
    }
}

/// How many writes stand before a place that is told, or in all of the log where it ends before.
fn writes_told(place: Option<u64>, log: &[Entry]) -> Option<u64>
    ensures { result ≡ option_map (λ place. writes_before place log.now) place }
{
    let place = place?;
    let before = log.get(..place as usize).unwrap_or(log);
    Some(before.iter().filter(|entry| entry.act.is_write()).count() as u64)
}
