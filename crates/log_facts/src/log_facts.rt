//! The log of a machine, read once, and whether it bears out what a migration's records say.
ghost use Rattle.std.specs.Prelude.{◌≡◌, ◌↔◌, IfOk, IfSome, IsTrue, Some};
ghost use Rattle.std.specs.List.{list_any};
ghost use Rattle.log_model.specs.declared.entry.Owner.{Owner};
ghost use Rattle.log_model.specs.declared.entry.Act.{Act};
ghost use Rattle.log_model.specs.Entry.{resets};
ghost use Rattle.log_model.specs.Legal.{capacity_of};
ghost use Rattle.log_model.specs.Link.{is_active, Owns};
ghost use Rattle.log_model.specs.Marks.{tracking, through, id_at};
ghost use Rattle.log_model.specs.Frozen.{off_place};
ghost use Rattle.ctl_state.specs.Migration.{same_phase};
ghost use Rattle.ctl_state.specs.Asks.{IsItsSnapshot, AreIdsAt, HasStageWritten, WasResetFrom, RecordAsks, SnapshotAsks, is_removed, is_removing, meets_volumes, may_lack};
ghost use Rattle.log_facts.specs.Disks.{id_count_of};

use crate::disks::{DiskFacts, IdCount, disks_of};
use crate::places::{PlaceFacts, places_of};
use crate::snapshots::{SnapshotFacts, snapshots_of};
use crate::stages::changed_sectors;
use basics::NoMemory;
use change_id::ChangeId;
use ctl_state::Migration;
use log_model::{Act, Entry, Owner, between, in_force, through};
use phase_table::Phase;
use record_codec::Record;
use source_vm::Machine;
use std::alloc::Global;
use std::marker::Model;
use std::snapshot::Snapshot;

/// What the log of a machine tells, read once. Contracts see the machine's number, the capacities
/// of its disks and the log.
#[derive(Drop)]
pub struct LogFacts {
    alloc: Global,
    /// The machine whose log it is, for contracts alone.
    machine: Snapshot<Machine>,
    active: bool,
    places: Vec<PlaceFacts>,
    snapshots: Vec<SnapshotFacts>,
    disks: Vec<DiskFacts>,
}

impl Model for LogFacts {
    ghost use Rattle.log_model.specs.Machine.{MachineState};
    ghost use Rattle.log_facts.specs.LogFacts.{AreRead};

    ghost Value = { MachineState };

    ghost view = { λ a. a.machine.value };

    ghost invariant = { λ a. AreRead a.machine.value
        a.active a.places.items a.snapshots.items a.disks.items };
}

impl LogFacts {
    /// Reads the log of a machine, in three passes and one for each of its disks. It answers only
    /// want of memory.
    pub fn of(alloc: Global, machine: &Machine) -> Result<LogFacts, NoMemory>
        ensures { IfOk result (λ facts. facts ≡ machine.now) }
    {
        let log = machine.log();
        Ok(LogFacts {
            alloc,
            machine: Snapshot::of(machine),
            active: machine.look().tracking,
            places: places_of(alloc, log)?,
            snapshots: snapshots_of(alloc, log)?,
            disks: disks_of(alloc, machine.disks(), log)?,
        })
    }

    /// Whether tracking is active at the end of the log.
    pub fn is_active(&self) -> bool
        ensures { result ≡ is_active (tracking self.now.log) }
    {
        self.active
    }

    /// Whether the log of the machine, which was read, bears out what a record says of a migration
    /// that was so before it. It answers only want of memory.
    pub fn bears_out(&self, machine: &Machine, m: &Migration, r: &Record) -> Result<bool, NoMemory>
        requires { self.now ≡ machine.now }
        ensures { IfOk result (λ said. IsTrue said ↔ RecordAsks self.now m.now r.now) }
    {
        match r {
            Record::SnapTaken { mig, snap, mark } => {
                Ok(self.is_its_snapshot(machine, *mig, *snap, *mark))
            }
            Record::FinalSnapTaken {
                mig,
                snap,
                mark,
                place,
            } => Ok(self.is_its_final(machine, *mig, *snap, *mark, *place)),
            Record::IdsStored { ids, .. } => {
                let snap = m.snap.unwrap_or(0);
                Ok(self.are_ids_at(machine, m.disks, snap, ids.as_slice()))
            }
            Record::StageDone { disk, written, .. } => {
                let base = m.marks.as_slice().last().copied();
                self.has_stage_written(machine, *disk, base, m.mark(), *written)
            }
            Record::PlanMade { .. }
            | Record::MigrationStarted { .. }
            | Record::Chosen { .. }
            | Record::VolumesMade { .. }
            | Record::CheckpointAdded { .. }
            | Record::StageBegun { .. }
            | Record::Paused { .. }
            | Record::SnapRemoved { .. }
            | Record::CutoverSet { .. }
            | Record::PowerStored { .. }
            | Record::PoweredOff { .. }
            | Record::OffSeen { .. }
            | Record::CancelAsked { .. }
            | Record::Ended { .. } => Ok(true),
        }
    }

    /// Whether the current snapshot of a live migration is there, or may be gone.
    pub fn has_its_snapshot(&self, m: &Migration) -> bool
        ensures { IsTrue result ↔ SnapshotAsks m.now.number self.now.log m.now }
    {
        match m.snap {
            Some(snap) if m.is_live() => self.may_lack(snap, m) || self.is_owned(m.number, snap),
            _ => true,
        }
    }

    /// Whether the snapshot may be gone.
    fn may_lack(&self, snap: u32, m: &Migration) -> bool
        ensures { result ≡ may_lack snap self.now.log m.now }
    {
        is_removing(m) || m.cancel || (meets_volumes(m) && self.was_removed(snap))
    }

    /// Whether a removal of the snapshot stands in the log.
    fn was_removed(&self, snap: u32) -> bool
        ensures { result ≡ is_removed snap self.now.log }
    {
        match self.snapshots.get(snap as usize) {
            Some(fact) => fact.removed,
            None => false,
        }
    }

    /// Whether the snapshot is live, and of the migration.
    fn is_owned(&self, mig: u32, snap: u32) -> bool
        ensures { IsTrue result ↔ Owns (Owner.Migration mig) snap self.now.log }
    {
        match self.snapshots.get(snap as usize) {
            Some(fact) => fact.owner == Some(Owner::Migration(mig)),
            None => false,
        }
    }

    /// Whether the snapshot was taken at that mark for the migration, with tracking enabled before.
    fn is_its_snapshot(&self, machine: &Machine, mig: u32, snap: u32, mark: u64) -> bool
        requires { self.now ≡ machine.now }
        ensures { IsTrue result ↔ IsItsSnapshot mig snap mark self.now.log }
    {
        match (machine.entry(mark), self.places.get(mark as usize)) {
            (Some(entry), Some(before)) => takes_for(entry, mig, snap) && before.enabled,
            _ => false,
        }
    }

    /// Whether it was taken so, after the machine was powered off at that place.
    fn is_its_final(&self, machine: &Machine, mig: u32, snap: u32, mark: u64, place: u64) -> bool
        requires { self.now ≡ machine.now }
        ensures { IsTrue result
            ↔ (IsItsSnapshot mig snap mark self.now.log
            × (off_place snap self.now.log ≡ Some place)) }
    {
        self.is_its_snapshot(machine, mig, snap, mark)
            && match self.places.get(mark as usize) {
                Some(before) => before.last_off == Some(place),
                None => false,
            }
    }

    /// Whether these are the identifiers of so many disks at the snapshot.
    fn are_ids_at(&self, machine: &Machine, disks: u32, snap: u32, ids: &[ChangeId]) -> bool
        requires { self.now ≡ machine.now }
        ensures { IsTrue result
            ↔ AreIdsAt self.now.number disks snap ids.now self.now.log }
    {
        if ids.len() != disks as usize {
            return false;
        }
        for disk in 0..disks {
            if self.id_at(machine, disk, snap) != Some(ids[disk as usize]) {
                return false;
            }
        }
        true
    }

    /// The identifier of a disk at a snapshot. That of a snapshot that wasn't taken, or of a disk
    /// that there isn't, is looked for in the log.
    fn id_at(&self, machine: &Machine, disk: u32, snap: u32) -> Option<ChangeId>
        requires { self.now ≡ machine.now }
        ensures { result ≡ id_at self.now.number disk snap self.now.log }
    {
        match self.count_at(disk, snap) {
            Some(count) => count.id(machine.number(), disk),
            None => in_force(machine.number(), through(machine.log(), snap), disk),
        }
    }

    /// How far the numbers of the disk's identifiers had come at a snapshot, if there are both.
    fn count_at(&self, disk: u32, snap: u32) -> Option<IdCount>
        ensures { IfSome result (λ count. count ≡ id_count_of disk (through snap self.now.log)) }
    {
        let index = (snap as usize).checked_sub(1)?;
        let facts = self.disks.get(disk as usize)?;
        let count = facts.counts.get(index)?;
        Some(*count)
    }

    /// Whether a stage of the disk that is done, on the snapshot of this mark, has written so many
    /// sectors as the log asks for.
    fn has_stage_written(
        &self,
        machine: &Machine,
        disk: u32,
        base: Option<u64>,
        mark: u64,
        written: u64,
    ) -> Result<bool, NoMemory>
        requires { self.now ≡ machine.now }
        ensures { IfOk result (λ said. IsTrue said ↔ HasStageWritten
            (capacity_of self.now.capacities disk) disk base mark written self.now.log) }
    {
        let capacity = capacity_of(machine, disk);
        let Some(from) = base else {
            return Ok(written == capacity);
        };
        let changed = changed_sectors(self.alloc, machine.log(), disk, capacity, from, mark)?;
        if written == changed {
            return Ok(true);
        }
        Ok(
            self.was_reset_from(machine, disk, from)
                && capacity <= written
                && written - capacity <= changed,
        )
    }

    /// Whether the disk was reset from the place on. Resets of a disk that there isn't are looked
    /// for in the log.
    fn was_reset_from(&self, machine: &Machine, disk: u32, place: u64) -> bool
        requires { self.now ≡ machine.now }
        ensures { IsTrue result ↔ WasResetFrom place disk self.now.log }
    {
        match self.disks.get(disk as usize) {
            Some(facts) => facts.was_reset_from(place),
            None => {
                let log = machine.log();
                has_reset(between(log, place as usize, log.len()), disk)
            }
        }
    }
}

/// Whether one of the entries resets the disk.
fn has_reset(entries: &[Entry], disk: u32) -> bool
    ensures { result ≡ list_any (λ e. resets disk e.act) entries.now }
{
    entries.iter().any(|entry| entry.act.resets(disk))
}

/// Whether the entry takes the snapshot for the migration.
fn takes_for(entry: &Entry, mig: u32, snap: u32) -> bool
    ensures { IsTrue result ↔ (entry.now.act ≡ Act.Snap snap (Owner.Migration mig)) }
{
    match &entry.act {
        Act::Snap {
            id,
            owner: Owner::Migration(number),
        } => *id == snap && *number == mig,
        _ => false,
    }
}

/// The capacity of a disk, 0 where there is none of that number.
fn capacity_of(machine: &Machine, disk: u32) -> u64
    ensures { result ≡ capacity_of machine.now.capacities disk }
{
    if disk < machine.disks() {
        machine.capacity(disk)
    } else {
        0
    }
}

/// Whether the migration is in a phase that removes its snapshot.
fn is_removing(m: &Migration) -> bool
    ensures { result ≡ is_removing m.now }
{
    is_in(m, Phase::RemovePreviousSnapshot)
        || is_in(m, Phase::RemovePenultimateSnapshot)
        || is_in(m, Phase::RemoveFinalSnapshot)
}

/// Whether it is in a phase in which a volume may have failed.
fn meets_volumes(m: &Migration) -> bool
    ensures { result ≡ meets_volumes m.now }
{
    is_in(m, Phase::CreateVolumes) || is_in(m, Phase::CopyDisks) || is_in(m, Phase::CopyFinal)
}

/// Whether it is in that phase.
#[tactic(auto, unfolding(ctl_state::specs::Migration::same_phase))]
fn is_in(m: &Migration, phase: Phase) -> bool
    ensures { result ≡ same_phase m.now.phase phase }
{
    m.phase == phase
}
