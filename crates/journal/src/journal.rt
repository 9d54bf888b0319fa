//! The journal: records that are on the disk before an append is Ok. They are in memory too, so
//! that the file is read at its opening alone.
ghost use Rattle.std.specs.Prelude.{◌≡◌, None, Err, MatchOption, IfOk, IfErr};
ghost use Rattle.record_codec.specs.Record.{KeepsRule};
ghost use Rattle.journal.specs.Journal.{append_refusal, Appends, IsKept, LeavesOneOf, outcomes};
ghost use Rattle.journal.specs.Opening.{Opens, Refuses};
ghost use Rattle.journal.specs.Unrepaired.{just_opened};

use crate::cells::{Found, cell_of};
use crate::device::{FaultAt, append_cell};
use crate::failure::Failure;
use crate::format::{CELL_BYTES, MAX_BYTES};
use crate::{JournalRefused, Unrepaired};
use edge_traits::Disk;
use record_codec::{Record, spelled_len};
use std::alloc::Global;
use std::marker::Model;
use std::snapshot::Snapshot;

/// The records of a file on a disk, and the disk. It stands for its records in order, the length of
/// its file, the failure of an append if there was one, and the state of its disk.
///
/// Whatever a crash leaves of the disk has these records, or after a failure perhaps one more: the
/// one whose append failed.
#[derive(Drop)]
pub struct Journal<D: Disk> {
    alloc: Global,
    records: Vec<Record>,
    len: usize,
    failure: Option<Failure>,
    opened: u64,
    disk: D,
}

impl<D: Disk> Model for Journal<D> {
    ghost use Rattle.std.specs.Prelude.{option_map};
    ghost use Rattle.journal.specs.Journal.{JournalState, IsKept};

    ghost Value = { JournalState };

    ghost use Rattle.journal.specs.Fields.{failure_of};

    ghost view = { λ j. record {
      records = j.records.items;
      len = j.len;
      failure = option_map failure_of j.failure;
      opened = j.opened;
      disk = D.state j.disk;
    } };

    ghost invariant = { λ j. IsKept (record {
      records = j.records.items;
      len = j.len;
      failure = option_map failure_of j.failure;
      opened = j.opened;
      disk = D.state j.disk;
    }) };
}

impl<D: Disk> Journal<D> {
    /// Opens the journal on a disk: syncs it, reads it, makes an empty journal of a file of at most
    /// [`EMPTY_BYTES`] bytes, and cuts any other right behind its first closed gate. Nothing is
    /// written before all of the file was read and holds records. The disk comes back with each
    /// refusal, and whatever a crash leaves of it then has the records that it had.
    /// [`JournalRefused::DiskFault`] comes only where the disk failed,
    /// [`JournalRefused::NotAJournal`] and [`JournalRefused::BadRecord`] exactly where the file is
    /// such, [`JournalRefused::Full`] never.
    pub fn open(alloc: Global, disk: D) -> Result<Journal<D>, (D, JournalRefused)>
        ensures opened { IfOk result
            (λ journal. Opens (D.state disk) journal.records journal.disk) }
        ensures unfailed { IfOk result (λ journal. journal.failure ≡ None) }
        ensures licence { IfOk result (λ journal. journal.opened ≡ (D.state disk).faults) }
        ensures kept { IfOk result IsKept }
        ensures leaves { IfOk result (λ journal. LeavesOneOf (outcomes journal) journal.disk) }
        ensures refused { IfErr result
            (λ refused. Refuses refused.1 (D.state disk) (D.state refused.0)) }
    {
        match Unrepaired::read(alloc, disk) {
            Ok(file) => file.repair(),
            Err(refused) => Err(refused),
        }
    }

    /// The journal of what was found on a disk, which holds just that.
    pub(crate) fn of(alloc: Global, found: Found, disk: D) -> Journal<D>
        requires { IsKept (just_opened found (D.state disk)) }
        ensures { result ≡ just_opened found (D.state disk) }
    {
        Journal {
            alloc,
            records: found.records,
            len: found.end,
            failure: None,
            opened: disk.faults(),
            disk,
        }
    }

    /// Adds a record that keeps its rule. When it is Ok, the record is on the disk, whatever
    /// happens. After [`JournalRefused::DiskFault`], which comes only where the disk failed, it may
    /// be there or not, and each later call answers the same: the disk is to be opened again.
    /// [`JournalRefused::Full`] comes exactly where the file would be longer than [`MAX_BYTES`].
    /// All other refusals change nothing.
    pub fn append(&mut self, record: &Record) -> Result<(), JournalRefused>
        requires { KeepsRule record.now }
        ensures { MatchOption (append_refusal record.now self.old)
            (Appends record.now self.old self.new result)
            (λ why. (result ≡ Err why) × (self.new ≡ self.old)) }
    {
        if let Some(failure) = &self.failure {
            return Err(JournalRefused::DiskFault { at: failure.at });
        }
        let size = spelled_len(record).saturating_add(CELL_BYTES);
        if size > MAX_BYTES - self.len {
            return Err(JournalRefused::Full {
                length: self.len as u64,
            });
        }
        let cell = cell_of(self.alloc, record)?;
        let copy = copy_of(record)?;
        self.records.reserve(1)?;
        match append_cell(&mut self.disk, self.len as u64, &cell) {
            Ok(()) => {
                self.records.push(copy)?;
                self.len += cell.len();
                Ok(())
            }
            Err(FaultAt(at)) => {
                let refused = Snapshot::of(record);
                self.failure = Some(Failure { at, refused });
                Err(JournalRefused::DiskFault { at })
            }
        }
    }

    /// The records, in order.
    pub fn records(&self) -> &[Record]
        ensures records { result.now ≡ self.now.records }
        ensures kept { IsKept self.now }
        ensures leaves { LeavesOneOf (outcomes self.now) self.now.disk }
    {
        &self.records
    }

    /// Gives the disk back, as it is.
    pub fn close(self) -> D
        ensures disk { D.state result ≡ self.disk }
        ensures kept { IsKept self }
        ensures leaves { LeavesOneOf (outcomes self) (D.state result) }
    {
        let Journal { disk, .. } = self;
        disk
    }
}

/// A copy of a record. It answers only want of memory.
fn copy_of(record: &Record) -> Result<Record, JournalRefused>
    ensures copy { IfOk result (λ copy. copy ≡ record.now) }
    ensures memory { IfErr result (λ refusal. refusal ≡ JournalRefused.NoMemory) }
{
    Ok(record.clone()?)
}
