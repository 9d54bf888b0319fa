//! One migration as its records left it, and what is read from that.
ghost use Rattle.std.specs.Prelude.{◌≡◌, ◌≤◌, IfOk, OnOk, OnErr, length, option_map};
ghost use Rattle.ctl_state.specs.Migration.{is_live, is_left, copy_of, since_base};
ghost use Rattle.ctl_state.specs.Steps.{new_migration, how_number, how_of, end_by, after_step};
ghost use Rattle.basics.specs.Refusal.{IsRefusedOr};
ghost use Rattle.ctl_state.specs.Refusal.{strange_unless};
ghost use Rattle.ctl_state.specs.Value.{change_numbered};
ghost use Rattle.ctl_state.specs.MayStand.{may_step_at};

use crate::copies::CopyList;
use crate::{CopyBase, DiskCopy, MarkList, StateRefused};
use basics::{MAX_DISKS, NoMemory};
use change_id::Since;
use checkpoints::DataVolume;
use phase_table::Phase;
use plan_model::Moment;
use record_codec::Record;
use std::alloc::Global;

/// How a migration ended.
#[derive(Clone, Copy, Debug, PartialEq, Eq)]
pub enum How {
    /// Its volumes hold what the machine had when it was powered off.
    Completed,
    /// It was cancelled.
    Cancelled,
    /// A volume failed.
    FailedVolume,
    /// The machine's log was full.
    FailedSpent,
}

impl How {
    /// The number under which records keep it: 0, 1, 2, 3.
    pub fn number(self) -> u8
        ensures { result ≡ how_number self }
    {
        match self {
            How::Completed => 0,
            How::Cancelled => 1,
            How::FailedVolume => 2,
            How::FailedSpent => 3,
        }
    }

    /// The end of a number, 0 to 3. None for every other number.
    pub fn of(number: u8) -> Option<How>
        ensures { result ≡ how_of number }
    {
        match number {
            0 => Some(How::Completed),
            1 => Some(How::Cancelled),
            2 => Some(How::FailedVolume),
            3 => Some(How::FailedSpent),
            _ => None,
        }
    }
}

/// One migration of a machine.
#[derive(Debug, Drop)]
pub struct Migration {
    /// Its number, from 1 over all plans.
    pub number: u32,
    /// The number of its plan.
    pub plan: u32,
    /// The number of its machine.
    pub vm: u32,
    /// How many disks the machine has.
    pub disks: u32,
    /// The phase that it is in.
    pub phase: Phase,
    /// Whether its cancel was asked for.
    pub cancel: bool,
    /// The snapshot that it works on.
    pub snap: Option<u32>,
    /// The marks of the snapshots of its finished checkpoints, in order.
    pub marks: MarkList,
    /// For each finished checkpoint the sectors that its stages wrote, all disks together.
    pub written: MarkList,
    /// Its checkpoints.
    pub dv: DataVolume,
    /// When it was paused last.
    pub last: Option<Moment>,
    /// How it ended. None while it is live.
    pub how: Option<How>,
    /// The place of the power-off before its final snapshot, from that snapshot on, however it
    /// ends.
    pub place: Option<u64>,
    pub(crate) mark: u64,
    pub(crate) volumes: bool,
    pub(crate) power: Option<bool>,
    pub(crate) copies: CopyList,
}

impl Migration {
    pub(crate) fn new(
        alloc: Global,
        number: u32,
        plan: u32,
        vm: u32,
        disks: u32,
    ) -> Result<Migration, NoMemory>
        requires { disks ≤ MAX_DISKS }
        ensures { IfOk result (λ m. m ≡ new_migration number plan vm disks) }
    {
        Ok(Migration {
            number,
            plan,
            vm,
            disks,
            phase: Phase::Started,
            cancel: false,
            snap: None,
            marks: MarkList::new(alloc),
            written: MarkList::new(alloc),
            dv: DataVolume::new(alloc),
            last: None,
            how: None,
            place: None,
            mark: 0,
            volumes: false,
            power: None,
            copies: CopyList::new(alloc, disks)?,
        })
    }

    /// Whether it hasn't ended.
    pub fn is_live(&self) -> bool
        ensures { result ≡ is_live self.now }
    {
        self.how.is_none()
    }

    /// The mark of its current snapshot. 0 where there is none.
    pub fn mark(&self) -> u64
        ensures { result ≡ self.now.mark }
    {
        self.mark
    }

    /// Whether its volumes were made.
    pub fn has_volumes(&self) -> bool
        ensures { result ≡ self.now.volumes }
    {
        self.volumes
    }

    /// Whether the machine was on before the cutover. None before that was stored.
    pub fn stored_power(&self) -> Option<bool>
        ensures { result ≡ self.now.power }
    {
        self.power
    }

    /// How far the copy of each disk is, in order.
    pub fn copies(&self) -> &[DiskCopy]
        ensures list { result.now ≡ self.now.copies }
        ensures few { length self.now.copies ≤ MAX_DISKS }
    {
        self.copies.as_slice()
    }

    /// Whether no stage of the disk is done in the last checkpoint. False for a disk that there
    /// isn't.
    pub fn is_left(&self, disk: u32) -> bool
        ensures { result ≡ is_left self.now disk }
    {
        match self.copies.as_slice().get(disk as usize) {
            None => false,
            Some(copy) => !copy.done,
        }
    }

    /// What the next stage of the disk asks for: all of it before its first stage is done, else
    /// what changed since the snapshot of its last one. None for a disk that there isn't.
    pub fn since(&self, disk: u32) -> Option<Since>
        ensures { result ≡ option_map (λ copy. since_base copy.base) (copy_of self.now disk) }
    {
        let copy = self.copies.as_slice().get(disk as usize)?;
        Some(since_base(copy.base))
    }
}

fn since_base(base: Option<CopyBase>) -> Since
    ensures { result ≡ since_base base }
{
    match base {
        Some(CopyBase { id: Some(id), .. }) => Since::From(id),
        Some(CopyBase { id: None, .. }) | None => Since::All,
    }
}

/// One record of a migration: strange where there is no such migration, or the record may not stand
/// for it.
pub(crate) fn step_one(
    migrations: &mut Vec<Migration>,
    mig: u32,
    r: &Record,
) -> Result<(), StateRefused>
    ensures refused { IsRefusedOr (strange_unless (may_step_at migrations.old.items mig r.now))
        StateRefused.NoMemory result }
    ensures applied { OnOk result (migrations.new.items
        ≡ change_numbered migrations.old.items mig (λ m. after_step m r.now)) }
    ensures kept { OnErr result (migrations.new.items ≡ migrations.old.items) }
{
    if mig == 0 || migrations.len() <= mig as usize - 1 {
        return Err(StateRefused::Strange);
    }
    let migration = &mut migrations[mig as usize - 1];
    if !migration.may_step(r) {
        return Err(StateRefused::Strange);
    }
    migration.take_step(r)?;
    Ok(())
}

/// The migration ends.
pub(crate) fn end_one(migrations: &mut Vec<Migration>, mig: u32, how: u8)
    ensures { migrations.new.items ≡ change_numbered migrations.old.items mig (end_by how) }
{
    if mig != 0 && (mig as usize - 1) < migrations.len() {
        migrations[mig as usize - 1].end_by(how);
    }
}
