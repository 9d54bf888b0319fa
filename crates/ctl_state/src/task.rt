//! What a job is told, what it did, and the controller that a run is given.
ghost use Rattle.std.specs.Prelude.{◌≡◌, option_map};
ghost use Rattle.ctl_state.specs.Value.{migration_in};
ghost use Rattle.ctl_state.specs.Task.{way_of, good_end, task_of};

use crate::{CtlState, How, Migration};
use edge_traits::Disk;
use journal::Journal;
use phase_table::Phase;
use plan_model::{Moment, Way};
use record_codec::Record;
use target_volume::VolumeStore;

/// What a phase or a clean-up is told of its migration. A snapshot or a place that there isn't
/// is 0.
#[derive(Clone, Copy, Debug, PartialEq, Eq)]
pub struct PhaseTask {
    /// The number of the migration.
    pub mig: u32,
    /// The phase that it is in.
    pub phase: Phase,
    /// Its current snapshot.
    pub snap: u32,
    /// The snapshot of its last checkpoint.
    pub previous: u32,
    /// Whether the checkpoint that the phase adds is the final one.
    pub last: bool,
    /// The number of its machine's disks.
    pub disks: u32,
    /// What is due at a pause. Nothing in every other phase.
    pub way: Way,
    /// The moment of the run.
    pub now: Moment,
    /// Whether the machine was on before its cutover, so that a clean-up powers it on again.
    pub restore: bool,
    /// How the migration ends with this job: cancelled where that was asked for, else completed.
    /// Whoever cleans up a failure puts that in its place.
    pub how: How,
    /// The place of the power-off before its final snapshot.
    pub place: u64,
}

impl CtlState {
    /// What a job of the migration at `now` is told. None exactly where there is no such migration.
    pub fn task(&self, mig: u32, now: Moment) -> Option<PhaseTask>
        ensures { result ≡ option_map (task_of self.now now) (migration_in self.now mig) }
    {
        let migration = self.status(mig)?;
        Some(self.task_of(now, migration))
    }

    fn task_of(&self, now: Moment, m: &Migration) -> PhaseTask
        ensures { result ≡ task_of self.now now m.now }
    {
        PhaseTask {
            mig: m.number,
            phase: m.phase,
            snap: m.snap.unwrap_or(0),
            previous: m.reached(),
            last: m.is_at(Phase::AddFinalCheckpoint),
            disks: m.disks,
            way: self.way_of(now, m),
            now,
            restore: m.stored_power().unwrap_or(false),
            how: m.good_end(),
            place: m.place.unwrap_or(0),
        }
    }

    fn way_of(&self, now: Moment, m: &Migration) -> Way
        ensures { result ≡ way_of self.now now m.now }
    {
        if m.is_at(Phase::CopyingPaused) {
            self.way_due(now, m)
        } else {
            Way::Nothing
        }
    }
}

impl Migration {
    fn good_end(&self) -> How
        ensures { result ≡ good_end self.now }
    {
        if self.cancel {
            How::Cancelled
        } else {
            How::Completed
        }
    }
}

/// What a phase or a clean-up did.
#[derive(Debug, Drop)]
pub enum Did {
    /// What this record says.
    Record(Record),
    /// Nothing yet: its volumes are to be made or opened.
    MakeVolumes,
    /// It met a full log.
    Spent,
}

/// A controller at rest: its state, the journal that the state comes from, and the store of its
/// volumes.
#[derive(Drop)]
pub struct Controller<D: Disk, T: VolumeStore> {
    /// The state.
    pub state: CtlState,
    /// The journal.
    pub journal: Journal<D>,
    /// The store.
    pub store: T,
}
