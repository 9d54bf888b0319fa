//! Whether a fleet bears a record out, and what one more record leaves of the state.
ghost use Rattle.std.specs.Prelude.{◌≡◌, ◌↔◌, IfOk, IsTrue, MatchBool};
ghost use Rattle.std.specs.Option.{ForSome};
ghost use Rattle.ctl_state.specs.Fold.{after_record};
ghost use Rattle.restart.specs.BorneOut.{names_machines, migration_before, IsInLog, IsBorneOut};
ghost use Rattle.restart.specs.ReadLogs.{AreOf};
ghost use Rattle.restart.specs.Standing.{IsRejected, Accepts};

use crate::machines::{are_tracked, is_tracked_with};
use crate::read_logs::ReadLogs;
use basics::NoMemory;
use ctl_state::{CtlState, StateRefused};
use fleet::Fleet;
use record_codec::Record;

/// Whether the machines that the record names are there and tracked, and that of a migration that
/// it begins has as many disks.
fn names_machines(fleet: &Fleet, r: &Record) -> bool
    ensures { result ≡ names_machines fleet.now r.now }
{
    match r {
        Record::PlanMade { vms, .. } => are_tracked(fleet, vms.as_slice()),
        Record::MigrationStarted { vm, disks, .. } => is_tracked_with(fleet, *vm, *disks),
        Record::Chosen { .. }
        | Record::SnapTaken { .. }
        | Record::IdsStored { .. }
        | Record::VolumesMade { .. }
        | Record::CheckpointAdded { .. }
        | Record::StageBegun { .. }
        | Record::StageDone { .. }
        | Record::Paused { .. }
        | Record::SnapRemoved { .. }
        | Record::CutoverSet { .. }
        | Record::PowerStored { .. }
        | Record::PoweredOff { .. }
        | Record::OffSeen { .. }
        | Record::FinalSnapTaken { .. }
        | Record::CancelAsked { .. }
        | Record::Ended { .. } => true,
    }
}

/// Whether what the record says stands in the log of its migration's machine.
fn is_in_log(
    logs: &mut ReadLogs,
    fleet: &Fleet,
    state: &CtlState,
    r: &Record,
) -> Result<bool, NoMemory>
    requires { AreOf fleet.now logs.old.facts }
    ensures of { AreOf fleet.now logs.new.facts }
    ensures said { IfOk result (λ said. IsTrue said
        ↔ ForSome (migration_before state.now r.now) (λ m. IsInLog fleet.now m r.now)) }
{
    match r.migration().and_then(|mig| state.status(mig)) {
        None => Ok(true),
        Some(m) => logs.bear_out(fleet, m, r),
    }
}

/// Whether the fleet bears the record out behind those that came to the state.
fn is_borne_out(
    logs: &mut ReadLogs,
    fleet: &Fleet,
    state: &CtlState,
    r: &Record,
) -> Result<bool, NoMemory>
    requires { AreOf fleet.now logs.old.facts }
    ensures of { AreOf fleet.now logs.new.facts }
    ensures said { IfOk result (λ said. IsTrue said
        ↔ IsBorneOut fleet.now state.now r.now) }
{
    if !names_machines(fleet, r) {
        return Ok(false);
    }
    is_in_log(logs, fleet, state, r)
}

/// Takes one more record where it is accepted, and then the state is the one behind it. It answers
/// want of memory too.
pub(crate) fn accept(
    logs: &mut ReadLogs,
    fleet: &Fleet,
    state: &mut CtlState,
    r: &Record,
) -> Result<bool, NoMemory>
    requires { AreOf fleet.now logs.old.facts }
    ensures of { AreOf fleet.now logs.new.facts }
    ensures said { IfOk result (λ said. MatchBool said
        (Accepts fleet.now r.now state.old state.new) (IsRejected fleet.now state.old r.now)) }
{
    if !is_borne_out(logs, fleet, state, r)? {
        return Ok(false);
    }
    match state.apply(r) {
        Ok(()) => Ok(true),
        Err(StateRefused::Strange) => Ok(false),
        Err(StateRefused::NoMemory) => Err(NoMemory),
    }
}
