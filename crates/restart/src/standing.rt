//! The records of a journal, folded over a fleet: each of them has to be borne out, and behind the
//! last one each live migration has to have its current snapshot.
ghost use Rattle.std.specs.Prelude.{IfOk, MatchBool};
ghost use Rattle.restart.specs.ReadLogs.{AreOf};
ghost use Rattle.restart.specs.Standing.{HaveSnapshots, LackASnapshot, IsFolded};

use crate::ReopenRefused;
use crate::borne_out::accept;
use crate::read_logs::ReadLogs;
use basics::NoMemory;
use ctl_state::CtlState;
use fleet::Fleet;
use record_codec::Record;
use std::alloc::Global;

/// What the records come to over a fleet. [`ReopenRefused::Strange`] exactly where they are strange
/// to it, at that record. It answers want of memory too.
pub(crate) fn fold_records(
    alloc: Global,
    fleet: &Fleet,
    records: &[Record],
) -> Result<CtlState, ReopenRefused>
    ensures { IsFolded fleet.now records.now result }
{
    let mut state = CtlState::empty(alloc);
    let mut logs = ReadLogs::none(alloc);
    for (place, r) in records.iter().enumerate() {
        if !accept(&mut logs, fleet, &mut state, r)? {
            return Err(ReopenRefused::Strange(place as u64 + 1));
        }
    }
    if !have_snapshots(&mut logs, fleet, &state)? {
        return Err(ReopenRefused::Strange(records.len() as u64));
    }
    Ok(state)
}

/// Whether each migration that is live has its current snapshot.
fn have_snapshots(logs: &mut ReadLogs, fleet: &Fleet, state: &CtlState) -> Result<bool, NoMemory>
    requires { AreOf fleet.now logs.old.facts }
    ensures { IfOk result (λ said.
        MatchBool said (HaveSnapshots fleet.now state.now) (LackASnapshot fleet.now state.now)) }
{
    for m in state.migrations() {
        if !logs.have_its_snapshot(fleet, m)? {
            return Ok(false);
        }
    }
    Ok(true)
}
