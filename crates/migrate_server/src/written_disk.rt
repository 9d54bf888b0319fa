//! The disk of a move: a source disk to which the writes are applied, and which is frozen then.
ghost use Rattle.std.specs.Prelude.{◌≡◌, ◌+◌, ◌<◌, ◌≤◌, ◌∷◌, ◌++◌, [], ℕ, List, length, All, IfOk, OnOk, slice_range};
ghost use Rattle.sector_model.specs.Run.{touched_blocks, areas_of};
ghost use Rattle.source_disk.specs.SourceDisk.{capacity_of};
ghost use Rattle.cmd_json.specs.declared.command.MoveWrite.{MoveWrite};
ghost use Rattle.migrate_server.specs.WrittenDisk.{disk_writes, written_disk, AreWithin, IsWritten, IsFrozenAfter, frozen_sectors, IsFrozen};

use cmd_json::MoveWrite;
use sector_model::{NoMemory, Runs, Sector};
use source_disk::SourceDisk;
use std::alloc::Global;

/// The number of the snapshot that is copied.
pub(crate) const SNAPSHOT: u32 = 1;

/// A source disk that was written and then frozen, and the runs of it that were allocated by then.
/// Outside these its snapshot is zero.
#[derive(Debug, Drop)]
pub(crate) struct WrittenDisk {
    source: SourceDisk,
    pub(crate) allocated: Runs,
}

impl WrittenDisk {
    /// Applies the writes to a disk of so many sectors that was never written, and freezes it. It
    /// answers only want of memory.
    pub(crate) fn new(
        alloc: Global,
        capacity: u64,
        writes: &[MoveWrite],
    ) -> Result<WrittenDisk, NoMemory>
        requires { AreWithin capacity writes.now }
        ensures sectors { IfOk result (λ disk. frozen_sectors disk
            ≡ written_disk capacity writes.now) }
        ensures long { IfOk result (λ disk. length (frozen_sectors disk) ≡ capacity) }
        ensures areas { IfOk result (λ disk. disk.allocated
            ≡ areas_of capacity (touched_blocks capacity (disk_writes writes.now))) }
        ensures frozen { IfOk result (λ disk. IsFrozen disk) }
    {
        let source = written_source(alloc, capacity, writes)?;
        match source.allocated(SNAPSHOT) {
            Ok(allocated) => Ok(WrittenDisk { source, allocated }),
            Err(_) => Err(NoMemory),
        }
    }

    /// Reads sectors of the snapshot from sector `first` on. They are some, and lie within it.
    pub(crate) fn read(&self, first: u64, buffer: &mut [Sector])
        requires frozen { IsFrozen self.now }
        requires some { 0 < length buffer.old }
        requires within { first + length buffer.old ≤ length (frozen_sectors self.now) }
        ensures { buffer.new
            ≡ slice_range (frozen_sectors self.now) first (first + length buffer.old) }
    {
        self.source.read(Some(SNAPSHOT), first, buffer).unwrap();
    }
}

/// A disk of so many sectors that was never written, after the writes, frozen once.
fn written_source(
    alloc: Global,
    capacity: u64,
    writes: &[MoveWrite],
) -> Result<SourceDisk, NoMemory>
    requires { AreWithin capacity writes.now }
    ensures { IfOk result (λ disk. IsFrozenAfter capacity writes.now disk) }
{
    let mut disk = SourceDisk::new(alloc, 0, 0, capacity)?;
    let mut buffer = vec![in alloc; Sector::filled(0); longest(writes) as usize]?;
    for write in writes {
        apply(write, &mut buffer, &mut disk)?;
    }
    disk.freeze(SNAPSHOT)?;
    Ok(disk)
}

/// The most sectors that one of the writes has.
fn longest(writes: &[MoveWrite]) -> u64
    ensures { All (λ w. w.count ≤ result) writes.now }
{
    let mut most: u64 = 0;
    for write in writes {
        most = most.max(write.count);
    }
    most
}

/// Applies a write by a buffer that its sectors fit into. A write without sectors changes nothing.
fn apply(write: &MoveWrite, buffer: &mut [Sector], disk: &mut SourceDisk) -> Result<(), NoMemory>
    requires room { write.now.count ≤ length buffer.old }
    requires within { write.now.first + write.now.count ≤ capacity_of disk.old }
    ensures { OnOk result ((c : ℕ) (writes : List MoveWrite) → IsWritten c writes disk.old
        → IsWritten c (writes ++ write.now ∷ []) disk.new) }
{
    if write.count == 0 {
        return Ok(());
    }
    let sectors = &mut buffer[..write.count as usize];
    sectors.fill(Sector::filled(write.fill));
    match disk.write(write.first, sectors) {
        Ok(()) => Ok(()),
        Err(_) => Err(NoMemory),
    }
}
