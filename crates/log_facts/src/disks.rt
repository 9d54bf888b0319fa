//! What a log says of the tracking of each disk.
ghost use Rattle.std.specs.Prelude.{◌≡◌, ◌+◌, ◌<◌, ◌≤◌, ◌^◌, length, unwrap_or, IfOk};
ghost use Rattle.log_facts.specs.Disks.{count_after, id_in_force, reaches, IsDisk, AreDisks};

use basics::NoMemory;
use change_id::{ChangeId, counted_id, pack};
use log_model::{Entry, MAX_LOG_ENTRIES};
use std::alloc::Global;

/// What a log says of the tracking of a disk.
#[derive(Debug, Drop)]
pub(crate) struct DiskFacts {
    /// How far the numbers of its identifiers had come at each snapshot, with it, in the order in
    /// which they were taken.
    pub counts: Vec<IdCount>,
    /// The place of its last reset.
    pub last_reset: Option<u64>,
}

impl DiskFacts {
    /// Whether the disk was reset from the place on.
    pub fn was_reset_from(&self, place: u64) -> bool
        ensures { result ≡ reaches place self.now.last_reset }
    {
        match self.last_reset {
            Some(last) => place <= last,
            None => false,
        }
    }
}

/// How far the numbers of a disk's identifiers have come.
#[derive(Clone, Copy, Debug)]
pub(crate) struct IdCount {
    /// How often the disk was reset.
    pub resets: u32,
    /// How many snapshots were taken since tracking was enabled and last reset. None before it was
    /// enabled.
    pub counted: Option<u32>,
}

impl IdCount {
    /// Before the first entry.
    const START: IdCount = IdCount {
        resets: 0,
        counted: None,
    };

    /// Behind one entry more.
    fn after(self, entry: &Entry, disk: u32) -> IdCount
        requires resets { self.resets + 1 < 2 ^ 32 }
        requires counted { unwrap_or self.counted 0 + 1 < 2 ^ 32 }
        ensures { result ≡ count_after disk self entry.now }
    {
        let resets = entry.act.resets(disk);
        IdCount {
            resets: if resets { self.resets + 1 } else { self.resets },
            counted: match self.counted {
                None if entry.act.is_enable() => Some(0),
                None => None,
                Some(_) if resets => Some(0),
                Some(n) if entry.act.is_snap() => Some(n + 1),
                Some(n) => Some(n),
            },
        }
    }

    /// The identifier that is in force.
    pub fn id(self, machine: u32, disk: u32) -> Option<ChangeId>
        ensures { result ≡ id_in_force machine disk self }
    {
        let uuid = pack(machine, disk, u64::from(self.resets));
        counted_id(uuid, u64::from(self.counted.unwrap_or(0)))
    }
}

/// Those of the first so many disks of a machine. It answers only want of memory.
pub(crate) fn disks_of(alloc: Global, disks: u32, log: &[Entry]) -> Result<Vec<DiskFacts>, NoMemory>
    requires { length log.now ≤ MAX_LOG_ENTRIES }
    ensures { IfOk result (λ facts. AreDisks disks log.now facts.items) }
{
    let mut facts = Vec::new(alloc);
    for disk in 0..disks {
        facts.push(disk_of(alloc, disk, log)?)?;
    }
    Ok(facts)
}

/// Those of one disk. It answers only want of memory.
fn disk_of(alloc: Global, disk: u32, log: &[Entry]) -> Result<DiskFacts, NoMemory>
    requires { length log.now ≤ MAX_LOG_ENTRIES }
    ensures { IfOk result (λ facts. IsDisk disk log.now facts) }
{
    let mut counts = Vec::new(alloc);
    let mut last_reset = None;
    let mut count = IdCount::START;
    for (place, entry) in log.iter().enumerate() {
        count = count.after(entry, disk);
        if entry.act.is_snap() {
            counts.push(count)?;
        }
        if entry.act.resets(disk) {
            last_reset = Some(place as u64);
        }
    }
    Ok(DiskFacts { counts, last_reset })
}
