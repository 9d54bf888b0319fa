//! A journal's file between its reading and its repair.
ghost use Rattle.std.specs.Prelude.{◌≡◌, ◌≤◌, ◌⊎◌, ℕ, length, None, option_map, IfSome, IfOk, IfErr, OnOk, OnErr};
ghost use Rattle.std.specs.Option.{ForSome};
ghost use Rattle.basics.specs.Faults.{HasCause};
ghost use Rattle.edge_traits.specs.Disk.{WhereTold, settled};
ghost use Rattle.journal.specs.Format.{Holds, StandsFor};
ghost use Rattle.journal.specs.Journal.{IsKept, LeavesOneOf, outcomes};
ghost use Rattle.journal.specs.Opening.{Opens, Refuses, IsOnlySynced, IsSyncedOrNot, IsWhole, KeepsStanding, reopened};
ghost use Rattle.journal.specs.Unrepaired.{Reads, IsLoaded};
ghost use Rattle.journal.specs.Devices.{IsSettled};

use crate::cells::{Found, read_file};
use crate::device::{FaultAt, create, cut_to, read_disk};
use crate::format::EMPTY_BYTES;
use crate::{Journal, JournalRefused};
use edge_traits::Disk;
use record_codec::Record;
use std::alloc::Global;
use std::marker::Model;
use std::snapshot::Snapshot;

/// A journal's file that was read and has records, and its disk, of which nothing was written yet.
/// It stands for the records in order, and the states of its disk before the reading and now.
///
/// Whoever takes the records goes on with [`Unrepaired::repair`]; whoever doesn't leaves the file
/// as it is by [`Unrepaired::leave`].
#[derive(Drop)]
pub struct Unrepaired<D: Disk> {
    alloc: Global,
    found: Found,
    len: usize,
    before: Snapshot<D>,
    disk: D,
}

impl<D: Disk> Model for Unrepaired<D> {
    ghost use Rattle.journal.specs.Unrepaired.{UnrepairedState, IsFoundIn};

    ghost Value = { UnrepairedState };

    ghost view = { λ f. record {
      records = f.found.records.items;
      before = D.state f.before.value;
      disk = D.state f.disk;
    } };

    ghost invariant = { λ f. IsFoundIn f.len f.found (D.state f.before.value) (D.state f.disk) };
}

impl<D: Disk> Unrepaired<D> {
    /// Syncs a disk and reads all of its file, and writes nothing. A file of at most
    /// [`EMPTY_BYTES`] bytes has no records. The disk comes back with each refusal:
    /// [`JournalRefused::DiskFault`] comes only where it failed, [`JournalRefused::NotAJournal`]
    /// and [`JournalRefused::BadRecord`] exactly where the file is such, [`JournalRefused::Full`]
    /// never.
    pub fn read(alloc: Global, disk: D) -> Result<Unrepaired<D>, (D, JournalRefused)>
        ensures before { IfOk result (λ file. file.before ≡ D.state disk) }
        ensures reads { IfOk result (λ file. Reads file.before file.records file.disk) }
        ensures refused { IfErr result
            (λ refused. Refuses refused.1 (D.state disk) (D.state refused.0)) }
        ensures unwritten { IfErr result
            (λ refused. IsSyncedOrNot (D.state disk) (D.state refused.0)) }
    {
        let before = Snapshot::of(&disk);
        let mut disk = disk;
        match load(alloc, &mut disk) {
            Ok((found, len)) => Ok(Unrepaired {
                alloc,
                found,
                len,
                before,
                disk,
            }),
            Err(why) => Err((disk, why)),
        }
    }

    /// The records, in order.
    pub fn records(&self) -> &[Record]
        ensures records { result.now ≡ self.now.records }
        ensures reads { Reads self.now.before self.now.records self.now.disk }
    {
        &self.found.records
    }

    /// Gives the disk back as it is: just synced.
    pub fn leave(self) -> D
        ensures disk { D.state result ≡ self.disk }
        ensures synced { IsOnlySynced self.before (D.state result) }
        ensures images { WhereTold KeepsStanding self.before.contents (D.state result).contents }
    {
        let Unrepaired { disk, .. } = self;
        disk
    }

    /// Makes it a journal that can be appended to: an empty one of a file of at most
    /// [`EMPTY_BYTES`] bytes, any other cut right behind its first closed gate. It is refused only
    /// by [`JournalRefused::DiskFault`], only where the disk failed; whatever a crash leaves of the
    /// disk then has the records that it had.
    pub fn repair(self) -> Result<Journal<D>, (D, JournalRefused)>
        ensures records { IfOk result (λ journal. journal.records ≡ self.records) }
        ensures opened { IfOk result
            (λ journal. Opens self.before journal.records journal.disk) }
        ensures unfailed { IfOk result (λ journal. journal.failure ≡ None) }
        ensures licence { IfOk result (λ journal. journal.opened ≡ self.before.faults) }
        ensures kept { IfOk result IsKept }
        ensures leaves { IfOk result (λ journal. LeavesOneOf (outcomes journal) journal.disk) }
        ensures fault { IfErr result
            (λ refused. (at : ℕ) × (refused.1 ≡ JournalRefused.DiskFault at)) }
        ensures refused { IfErr result
            (λ refused. Refuses refused.1 self.before (D.state refused.0)) }
    {
        let Unrepaired {
            alloc,
            found,
            len,
            disk,
            ..
        } = self;
        let mut disk = disk;
        match repair(&mut disk, len, &found) {
            Ok(()) => Ok(Journal::of(alloc, found, disk)),
            Err(FaultAt(at)) => Err((disk, JournalRefused::DiskFault { at })),
        }
    }
}

/// Syncs the disk and reads the records of its file, and how many bytes that has.
fn load<D: Disk>(alloc: Global, disk: &mut D) -> Result<(Found, usize), JournalRefused>
    ensures { IsLoaded (D.state disk.old) (D.state disk.new) result }
{
    let bytes = read_disk(alloc, disk)?;
    let found = read_file(alloc, &bytes)?;
    Ok((found, bytes.len()))
}

/// Leaves a disk of `len` bytes, in which these records were found, as their journal.
fn repair<D: Disk>(disk: &mut D, len: usize, found: &Found) -> Result<(), FaultAt>
    requires settled { ForSome (D.state disk.old).contents IsSettled }
    requires long { ForSome (D.state disk.old).contents (λ c. len ≡ length c.bytes) }
    requires whole { IsWhole found.now }
    requires fresh { len ≤ EMPTY_BYTES → found.now.end ≡ EMPTY_BYTES }
    requires found { ForSome (D.state disk.old).contents
        (λ c. StandsFor c.bytes (Holds found.now.records.items)) }
    ensures repaired { OnOk result ((D.state disk.new).contents
        ≡ option_map (λ c. settled (reopened found.now.records.items c.bytes))
        (D.state disk.old).contents) }
    ensures kept { OnErr result (WhereTold KeepsStanding
        (D.state disk.old).contents (D.state disk.new).contents) }
    ensures cause { HasCause (D.state disk.old).faults (D.state disk.new).faults result }
    ensures offset { IfErr result (λ fault. (fault.0 ≡ 0) ⊎ (fault.0 ≡ found.now.end)) }
{
    if len <= EMPTY_BYTES {
        create(disk)
    } else {
        cut_to(disk, found.end as u64)
    }
}
