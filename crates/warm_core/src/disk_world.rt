//! The world of one disk, in memory: all that decides whether an event may happen, and all that
//! an event changes.
ghost use Rattle.std.specs.Prelude.{◌≡◌, [], length, true, false, None, IfOk};
ghost use Rattle.warm_core.specs.DiskWorld.{world_of, StandsSound};
ghost use Rattle.warm_core.specs.World.{IsStart};

use crate::StageState;
use change_id::ChangeId;
use log_model::{EntryList, Snapped};
use sector_model::{NoMemory, Runs, SectorList};
use std::alloc::Global;

/// The last stage that was finished.
#[derive(Clone, Copy, Debug, PartialEq, Eq)]
pub struct Base {
    /// How many entries of the log stand before its snapshot.
    pub mark: u64,
    /// The identifier of the disk at its snapshot.
    pub id: ChangeId,
}

/// One disk that is migrated: what happened to its machine, what its volume holds, and how far its
/// stages have come.
#[derive(Debug, Drop)]
pub struct DiskWorld {
    /// The number of the machine.
    pub machine: u32,
    /// The disk, from 0 on.
    pub disk: u32,
    /// How many sectors the disk and its volume have.
    pub capacity: u64,
    /// What happened to the machine.
    pub log: EntryList,
    /// What the volume holds.
    pub volume: SectorList,
    /// The sectors of the volume that were written since its last flush.
    pub loose: Runs,
    /// The last stage that was finished.
    pub base: Option<Base>,
    /// The snapshot that is copied, or was copied last.
    pub snap: Option<Snapped>,
    /// Whether that snapshot is the last one.
    pub last: bool,
    /// The stage that runs.
    pub stage: Option<StageState>,
    /// Whether the process that copies runs, and wasn't stopped.
    pub running: bool,
    /// Whether the migration was cancelled.
    pub cancelled: bool,
    /// Where it is complete: up to which place of the log.
    pub complete: Option<u64>,
}

impl DiskWorld {
    /// A world in which nothing was done yet, of a machine to which nothing happened. The volume
    /// holds anything, and has as many sectors as the disk. It answers only want of memory.
    pub fn new(
        alloc: Global,
        machine: u32,
        disk: u32,
        volume: SectorList,
    ) -> Result<DiskWorld, NoMemory>
        ensures start { IfOk result (λ world. IsStart (world_of world)) }
        ensures sound { IfOk result StandsSound }
        ensures made { IfOk result (λ world. world ≡ record {
          machine = machine;
          disk = disk;
          capacity = length volume;
          log = [];
          volume = volume;
          loose = [];
          base = None;
          snap = None;
          last = false;
          stage = None;
          running = true;
          cancelled = false;
          complete = None;
        }) }
    {
        Ok(DiskWorld {
            machine,
            disk,
            capacity: volume.as_slice().len() as u64,
            log: EntryList::of(alloc, &[])?,
            volume,
            loose: Runs::new(alloc),
            base: None,
            snap: None,
            last: false,
            stage: None,
            running: true,
            cancelled: false,
            complete: None,
        })
    }
}
