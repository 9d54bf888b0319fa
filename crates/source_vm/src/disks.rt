//! What a machine does to all of its disks. It makes room in each of them before it changes one, so
//! that none refuses after another has changed.
ghost use Rattle.std.specs.Prelude.{◌≡◌, ◌≤◌, [], length, All, true, IfOk, OnOk};
ghost use Rattle.log_model.specs.declared.entry.Act.{Act};
ghost use Rattle.log_model.specs.declared.entry.Owner.{Owner};
ghost use Rattle.source_disk.specs.SourceDisk.{has_freeze_room, HasMergeRoom};
ghost use Rattle.source_vm.specs.Disks.{AreDisks, StillDisks, DisksTake, CanFreeze, HasSnap};

use basics::MAX_DISKS;
use sector_model::NoMemory;
use source_disk::{SourceDisk, room_is_no_part};
use std::alloc::Global;

/// The disks of a machine, none of which was written. It answers only want of memory.
pub(crate) fn new_disks(
    alloc: Global,
    machine: u32,
    capacities: &[u64],
) -> Result<Vec<SourceDisk>, NoMemory>
    requires { length capacities.now ≤ MAX_DISKS }
    ensures { IfOk result (λ disks. AreDisks machine capacities.now [] disks.items) }
{
    let mut disks = Vec::with_capacity(alloc, capacities.len())?;
    for (disk, capacity) in capacities.iter().enumerate() {
        disks.push(SourceDisk::new(alloc, machine, disk as u32, *capacity)?)?;
    }
    Ok(disks)
}

/// Enables tracking on each disk.
pub(crate) fn enable_all(disks: &mut [SourceDisk])
    ensures { DisksTake Act.Enable disks.old disks.new }
{
    for disk in disks.iter_mut() {
        disk.enable();
    }
}

/// Makes room in each disk for the next snapshot. It answers only want of memory.
pub(crate) fn reserve_freezes(disks: &mut [SourceDisk]) -> Result<(), NoMemory>
    ensures still { StillDisks disks.old disks.new }
    ensures room { OnOk result (All (λ d. has_freeze_room d ≡ true) disks.new) }
{
    room_is_no_part();
    for disk in disks.iter_mut() {
        disk.reserve_freeze()?;
    }
    Ok(())
}

/// Takes a snapshot of each disk.
pub(crate) fn freeze_all(disks: &mut [SourceDisk], id: u32)
    requires { All (CanFreeze id) disks.old }
    ensures { (owner : Owner) → DisksTake (Act.Snap id owner) disks.old disks.new }
{
    for disk in disks.iter_mut() {
        disk.freeze(id).unwrap();
    }
}

/// Makes room in each disk for giving up a live snapshot. It answers only want of memory.
pub(crate) fn reserve_merges(disks: &mut [SourceDisk], id: u32) -> Result<(), NoMemory>
    requires { All (HasSnap id) disks.old }
    ensures still { StillDisks disks.old disks.new }
    ensures room { OnOk result (All (HasMergeRoom id) disks.new) }
{
    room_is_no_part();
    for disk in disks.iter_mut() {
        if disk.reserve_merge(id).is_err() {
            return Err(NoMemory);
        }
    }
    Ok(())
}

/// Gives up the snapshot on each disk.
pub(crate) fn merge_all(disks: &mut [SourceDisk], id: u32)
    requires { All (HasMergeRoom id) disks.old }
    ensures { DisksTake (Act.Remove id) disks.old disks.new }
{
    for disk in disks.iter_mut() {
        disk.merge(id).unwrap();
    }
}
