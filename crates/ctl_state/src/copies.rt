//! How far the copy of each disk of a migration is, and what its next stage stands on.
ghost use Rattle.std.specs.Prelude.{◌≡◌, ◌<◌, ◌≤◌, ◌^◌, length, map, replicate, IfOk, IsTrue};
ghost use Rattle.std.specs.List.{sum_by, AllByRecursion};
ghost use Rattle.change_id.specs.declared.ChangeId.{ChangeId};
ghost use Rattle.basics.specs.declared.limits.TheConstants.{MAX_DISKS};
ghost use Rattle.ctl_state.specs.Migration.{new_copy, fresh_copy, begun_copy, done_copy, unnamed_copy, named_copies, change_at, all_done, sectors_written};

use basics::{MAX_DISK_SECTORS, MAX_DISKS, NoMemory};
use change_id::ChangeId;
use std::alloc::{AllocError, Global};
use std::marker::Model;

/// The most sectors that a stage writes: a disk of the greatest size twice.
pub const MAX_STAGE_SECTORS: u64 = 2 * MAX_DISK_SECTORS;

/// What the volume of a disk holds: the disk at the snapshot of this mark.
#[derive(Clone, Copy, Debug, PartialEq, Eq)]
pub struct CopyBase {
    /// The mark of the snapshot on which the last stage that is done stands.
    pub mark: u64,
    /// The disk's identifier there. None where none was stored, as at a final snapshot.
    pub id: Option<ChangeId>,
}

/// How far the copy of a disk is.
#[derive(Clone, Copy, Debug, PartialEq, Eq)]
pub struct DiskCopy {
    /// Whether a stage of it began in the last checkpoint.
    pub begun: bool,
    /// Whether one is done there.
    pub done: bool,
    /// The sectors that it wrote. 0 where none is done.
    pub written: u64,
    /// The disk's identifier at the snapshot that was taken last, once it is stored.
    pub id: Option<ChangeId>,
    /// What its next stage goes on from. None before its first one is done.
    pub base: Option<CopyBase>,
}

/// The copies of a migration's disks, one a disk, in order.
#[derive(Debug, Drop)]
pub struct CopyList {
    copies: Vec<DiskCopy>,
}

impl Model for CopyList {
    ghost use Rattle.std.specs.Prelude.{List, length, ◌≤◌};
    ghost use Rattle.std.specs.List.{AllByRecursion};
    ghost use Rattle.basics.specs.declared.limits.TheConstants.{MAX_DISKS};
    ghost use Rattle.ctl_state.specs.declared.copies.DiskCopy.{DiskCopy};
    ghost use Rattle.ctl_state.specs.declared.copies.TheConstants.{MAX_STAGE_SECTORS};

    ghost Value = { List DiskCopy };

    ghost view = { λ list. list.copies.items };

    ghost invariant = { λ list. (length list.copies.items ≤ MAX_DISKS)
        × AllByRecursion (λ copy. copy.written ≤ MAX_STAGE_SECTORS) list.copies.items };
}

impl Clone for CopyList {
    ghost use Rattle.std.specs.Prelude.{◌≡◌};

    ghost is_clone = { λ list copy. copy ≡ list };

    fn clone(&self) -> Result<CopyList, AllocError> {
        let copies = self.copies.clone()?;
        Ok(CopyList { copies })
    }
}

impl CopyList {
    /// The copies of so many disks, of which nothing is copied yet.
    pub(crate) fn new(alloc: Global, disks: u32) -> Result<CopyList, NoMemory>
        requires { disks ≤ MAX_DISKS }
        ensures { IfOk result (λ list. list ≡ replicate disks new_copy) }
    {
        let copies = vec![in alloc; DiskCopy::NEW; disks as usize]?;
        Ok(CopyList { copies })
    }

    /// The copies, one a disk, in order.
    pub fn as_slice(&self) -> &[DiskCopy]
        ensures list { result.now ≡ self.now }
        ensures few { length self.now ≤ MAX_DISKS }
    {
        self.copies.as_slice()
    }

    /// Whether each is done.
    pub(crate) fn all_done(&self) -> bool
        ensures { result ≡ all_done self.now }
    {
        self.copies.iter().all(|copy| copy.done)
    }

    /// The sectors that were written in the last checkpoint.
    pub(crate) fn written(&self) -> u64
        ensures { result ≡ sectors_written self.now }
    {
        written_sum(&self.copies)
    }

    /// A new checkpoint finds none done.
    pub(crate) fn renew(&mut self)
        ensures { self.new ≡ map fresh_copy self.old }
    {
        renew_each(&mut self.copies);
    }

    /// A new snapshot has no identifiers stored.
    pub(crate) fn forget_ids(&mut self)
        ensures { self.new ≡ map unnamed_copy self.old }
    {
        forget_each(&mut self.copies);
    }

    /// Each disk has its identifier.
    pub(crate) fn store_ids(&mut self, ids: &[ChangeId])
        ensures { self.new ≡ named_copies self.old ids.now }
    {
        name_each(&mut self.copies, ids);
    }

    /// A stage of the disk begins.
    pub(crate) fn begin(&mut self, disk: u32)
        ensures { self.new ≡ change_at self.old disk begun_copy }
    {
        if (disk as usize) < self.copies.len() {
            self.copies[disk as usize].begun = true;
        }
    }

    /// A stage of the disk is done, on the snapshot of this mark.
    pub(crate) fn finish(&mut self, disk: u32, mark: u64, written: u64)
        requires { written ≤ MAX_STAGE_SECTORS }
        ensures { self.new ≡ change_at self.old disk (done_copy mark written) }
    {
        if (disk as usize) < self.copies.len() {
            let copy = self.copies[disk as usize];
            self.copies[disk as usize] = copy.done_on(mark, written);
        }
    }
}

impl DiskCopy {
    /// The copy of a disk of which nothing is copied yet.
    pub(crate) const NEW: DiskCopy = DiskCopy {
        begun: false,
        done: false,
        written: 0,
        id: None,
        base: None,
    };

    fn done_on(self, mark: u64, written: u64) -> DiskCopy
        ensures { result ≡ done_copy mark written self }
    {
        DiskCopy {
            begun: self.begun,
            done: true,
            written,
            id: self.id,
            base: Some(CopyBase { mark, id: self.id }),
        }
    }
}

fn written_sum(copies: &[DiskCopy]) -> u64
    requires { sectors_written copies.now < 2 ^ 64 }
    ensures { result ≡ sectors_written copies.now }
{
    copies.iter().map(|copy| copy.written).sum()
}

fn renew_each(copies: &mut [DiskCopy])
    ensures { copies.new ≡ map fresh_copy copies.old }
{
    for copy in copies.iter_mut() {
        let old = *copy;
        *copy = DiskCopy {
            begun: false,
            done: false,
            written: 0,
            id: old.id,
            base: old.base,
        };
    }
}

fn forget_each(copies: &mut [DiskCopy])
    ensures { copies.new ≡ map unnamed_copy copies.old }
{
    for copy in copies.iter_mut() {
        let old = *copy;
        *copy = DiskCopy {
            begun: old.begun,
            done: old.done,
            written: old.written,
            id: None,
            base: old.base,
        };
    }
}

fn name_each(copies: &mut [DiskCopy], ids: &[ChangeId])
    ensures { copies.new ≡ named_copies copies.old ids.now }
{
    let named = copies.len().min(ids.len());
    for i in 0..named {
        let old = copies[i];
        copies[i] = DiskCopy {
            begun: old.begun,
            done: old.done,
            written: old.written,
            id: Some(ids[i]),
            base: old.base,
        };
    }
}
