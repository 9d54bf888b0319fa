//! The disk: its chain and its tracker in step.
ghost use Rattle.std.specs.Prelude.{◌≡◌, ◌+◌, ◌<◌, ◌^◌, ◌∷◌, ◌++◌, [], ℕ, List, length, true, false, IsOk, OnOk, OnErr, IfOk, IfSome, slice_range};
ghost use Rattle.basics.specs.Refusal.{IsRefusedBy, IsRefusedOr};
ghost use Rattle.sector_model.specs.Run.{areas_of};
ghost use Rattle.sector_model.specs.Page.{page_from};
ghost use Rattle.log_model.specs.declared.entry.Act.{Act};
ghost use Rattle.log_model.specs.declared.entry.Entry.{Entry};
ghost use Rattle.log_model.specs.declared.entry.Owner.{Owner};

use change_id::{ChangeId, Since};
use change_tracker::{TrackRefused, Tracker};
use sector_model::{NoMemory, Page, Run, Runs, Sector};
use snapshot_chain::{Chain, ChainRefused};
use std::alloc::Global;
use std::marker::Model;

/// What one disk of a machine holds now and at each live snapshot, and what changed between
/// snapshots.
///
/// Sectors are numbered from 0 on, below the capacity. A snapshot of the machine is one of each of
/// its disks, under the machine's number for it.
#[derive(Debug, Drop)]
pub struct SourceDisk {
    chain: Chain,
    tracker: Tracker,
}

impl Model for SourceDisk {
    ghost use Rattle.source_disk.specs.SourceDisk.{SourceDiskState, IsInStep};

    ghost Value = { SourceDiskState };

    ghost view = { λ a. record { chain = a.chain; tracker = a.tracker } };

    ghost invariant = { λ a. IsInStep (record { chain = a.chain; tracker = a.tracker }) };
}

impl SourceDisk {
    ghost use Rattle.source_disk.specs.SourceDisk.{fresh, number_of, capacity_of, epoch_of, has_snapshot, next_id, IsFree, contents_of, blocks_of, after_writing, after_freezing, after_merging, after_enabling, after_reset, has_freeze_room, HasMergeRoom, with_freeze_room, with_merge_room, IsSameButRoom};
    ghost use Rattle.source_disk.specs.StandsFor.{StandsFor, Takes};
    ghost use Rattle.source_disk.specs.FromLog.{contents_told, allocated_told, id_told, changes_told};
    ghost use Rattle.source_disk.specs.Refusals.{write_refusal, snapshot_refusal, read_refusal, id_refusal, query_refusal};

    /// A disk of that many sectors that was never written, of a machine's log without entries. The
    /// numbers of the machine and of the disk on it are packed into identifiers. It answers only
    /// want of memory.
    pub fn new(
        alloc: Global,
        machine: u32,
        disk: u32,
        capacity: u64,
    ) -> Result<SourceDisk, NoMemory>
        ensures fresh { IfOk result (λ made. made ≡ fresh machine disk capacity) }
        ensures stands { IfOk result (λ made. StandsFor made []) }
    {
        Ok(SourceDisk {
            chain: Chain::new(alloc, capacity)?,
            tracker: Tracker::new(alloc, machine, disk, capacity)?,
        })
    }

    /// Makes room for the next `freeze`. It answers only want of memory.
    pub fn reserve_freeze(&mut self) -> Result<(), NoMemory>
        ensures ok { OnOk result (self.new ≡ with_freeze_room self.old) }
        ensures err { OnErr result (IsSameButRoom self.old self.new) }
        ensures room { has_freeze_room self.old ≡ true → IsOk result }
    {
        self.chain.reserve_freeze()?;
        self.tracker.reserve_freeze()
    }

    /// Makes room for the `merge` of a snapshot. `UnknownSnap` comes where it isn't live, and else
    /// only want of memory.
    pub fn reserve_merge(&mut self, id: u32) -> Result<(), ChainRefused>
        ensures refused { IsRefusedOr (snapshot_refusal id self.old) ChainRefused.NoMemory result }
        ensures ok { OnOk result (self.new ≡ with_merge_room id self.old) }
        ensures err { OnErr result (IsSameButRoom self.old self.new) }
        ensures room { HasMergeRoom id self.old → IsOk result }
    {
        self.chain.reserve_merge(id)
    }

    /// Enables tracking: from now on snapshots get identifiers. It takes no memory.
    pub fn enable(&mut self)
        ensures enabled { self.new ≡ after_enabling self.old }
        ensures stands { Takes Act.Enable self.old self.new }
    {
        self.tracker.enable();
    }

    /// Writes sectors from sector `first` on, and marks them as changed. `Range` comes where there
    /// are none, or they pass the capacity, and else only want of memory.
    pub fn write(&mut self, first: u64, sectors: &[Sector]) -> Result<(), ChainRefused>
        ensures refused { IsRefusedOr (write_refusal first (length sectors.now) self.old)
            ChainRefused.NoMemory result }
        ensures ok { OnOk result (self.new ≡ after_writing first sectors.now self.old) }
        ensures stands { OnOk result
            (Takes (Act.Write (number_of self.old) first sectors.now) self.old self.new) }
        ensures err { OnErr result (IsSameButRoom self.old self.new) }
    {
        let run = Run {
            first,
            count: sectors.len() as u64,
        };
        match self.tracker.reserve_mark(run) {
            Ok(()) => {}
            Err(TrackRefused::Range) => return Err(ChainRefused::Range),
            Err(_) => return Err(ChainRefused::NoMemory),
        }
        self.chain.write(first, sectors)?;
        self.tracker.mark(run).unwrap();
        Ok(())
    }

    /// Keeps what the disk holds now, and what was touched by now, as a snapshot, and tells its
    /// identifier, if it has one. The id is above all earlier ones. It answers only want of memory,
    /// and not after a `reserve_freeze` since the last `freeze`.
    pub fn freeze(&mut self, id: u32) -> Result<Option<ChangeId>, NoMemory>
        requires { IsFree id self.old }
        ensures ok { OnOk result (self.new ≡ after_freezing id self.old) }
        ensures told { IfOk result (λ told. told ≡ next_id self.old) }
        ensures named { (log : List Entry) (who : ℕ) (owner : Owner) → StandsFor self.old log
            → IfOk result (λ told. told ≡ id_told id self.old
            (log ++ record { who = who; act = Act.Snap id owner } ∷ [])) }
        ensures stands { OnOk result
            ((owner : Owner) → Takes (Act.Snap id owner) self.old self.new) }
        ensures err { OnErr result (IsSameButRoom self.old self.new) }
        ensures room { has_freeze_room self.old ≡ true → IsOk result }
    {
        self.reserve_freeze()?;
        self.chain.freeze(id).unwrap();
        self.tracker.freeze(id)
    }

    /// Gives a snapshot up. What the disk holds now and at every other snapshot stays, and so do
    /// the identifiers. `UnknownSnap` comes where the snapshot isn't live, and else only want of
    /// memory, which doesn't come after a `reserve_merge` of this id since the last change.
    pub fn merge(&mut self, id: u32) -> Result<(), ChainRefused>
        ensures refused { IsRefusedOr (snapshot_refusal id self.old) ChainRefused.NoMemory result }
        ensures ok { OnOk result (self.new ≡ after_merging id self.old) }
        ensures stands { OnOk result (Takes (Act.Remove id) self.old self.new) }
        ensures err { OnErr result (IsSameButRoom self.old self.new) }
        ensures room { HasMergeRoom id self.old → IsOk result }
    {
        self.chain.merge(id)
    }

    /// Reads sectors from sector `first` on, of a snapshot or, without one, of what the disk holds
    /// now. `UnknownSnap` comes where the snapshot isn't live, then `Range` where the buffer is
    /// empty or the range passes the capacity. It takes no memory.
    pub fn read(&self, id: Option<u32>, first: u64, buf: &mut [Sector]) -> Result<(), ChainRefused>
        ensures refused { IsRefusedBy (read_refusal id first (length buf.old) self.now) result }
        ensures ok { OnOk result (IfSome (contents_of id self.now)
            (λ contents. buf.new ≡ slice_range contents first (first + length buf.old))) }
        ensures told { (log : List Entry) → StandsFor self.now log
            → OnOk result (buf.new
            ≡ slice_range (contents_told id self.now log) first (first + length buf.old)) }
        ensures err { OnErr result (buf.new ≡ buf.old) }
    {
        self.chain.read(id, first, buf)
    }

    /// The areas of the blocks that were written before a snapshot was frozen. `UnknownSnap` comes
    /// where it isn't live, and else only want of memory.
    pub fn allocated(&self, id: u32) -> Result<Runs, ChainRefused>
        ensures refused { IsRefusedOr (snapshot_refusal id self.now) ChainRefused.NoMemory result }
        ensures ok { IfOk result (λ runs. IfSome (blocks_of id self.now)
            (λ blocks. runs ≡ areas_of (capacity_of self.now) blocks)) }
        ensures told { (log : List Entry) → StandsFor self.now log
            → IfOk result (λ runs. runs ≡ allocated_told id self.now log) }
    {
        self.chain.allocated(id)
    }

    /// Whether the snapshot was frozen and not merged since. It takes no memory.
    pub fn is_live(&self, id: u32) -> bool
        ensures { result ≡ has_snapshot id self.now }
    {
        self.chain.is_live(id)
    }

    /// Puts into the page the areas that were touched before a snapshot, or that changed between an
    /// identifier and the snapshot: those from sector `start` on, at most
    /// [`PAGE_AREAS`](sector_model::PAGE_AREAS). `UnknownSnap` comes where the snapshot isn't live,
    /// `Range` where `start` isn't below the capacity, `Strange` where the identifier isn't one of
    /// the present epoch up to the snapshot; it tells the one in force. It takes no memory.
    pub fn query(
        &self,
        id: u32,
        since: Since,
        start: u64,
        page: &mut Page,
    ) -> Result<(), TrackRefused>
        ensures unknown { has_snapshot id self.now ≡ false
            → result ≡ Err TrackRefused.UnknownSnap }
        ensures refused { (log : List Entry) → StandsFor self.now log
            → IsRefusedBy (query_refusal id since start self.now log) result }
        ensures areas { (log : List Entry) → StandsFor self.now log
            → OnOk result (IfOk (changes_told id since self.now log)
            (λ areas. page.new ≡ page_from (capacity_of self.now) areas start)) }
        ensures err { OnErr result (page.new ≡ page.old) }
    {
        if !self.is_live(id) {
            return Err(TrackRefused::UnknownSnap);
        }
        self.tracker.query(id, since, start, page)
    }

    /// The identifier that `freeze` told for a snapshot. `UnknownSnap` comes where the snapshot
    /// isn't live. It takes no memory.
    pub fn id_of(&self, id: u32) -> Result<Option<ChangeId>, TrackRefused>
        ensures unknown { has_snapshot id self.now ≡ false
            → result ≡ Err TrackRefused.UnknownSnap }
        ensures refused { (log : List Entry) → StandsFor self.now log
            → IsRefusedBy (id_refusal id log) result }
        ensures found { (log : List Entry) → StandsFor self.now log
            → IfOk result (λ found. found ≡ id_told id self.now log) }
    {
        if self.is_live(id) {
            self.tracker.id_of(id)
        } else {
            Err(TrackRefused::UnknownSnap)
        }
    }

    /// Forgets what changed and begins a new epoch: identifiers that were given are strange from
    /// then on. What the disk holds, what was touched before each snapshot, and the snapshots'
    /// identifiers stay. It takes no memory. There were fewer than 2^64 - 1 resets before, as on
    /// each disk that stands for a log that a machine may have.
    pub fn reset(&mut self)
        requires { epoch_of self.old + 1 < 2 ^ 64 }
        ensures reset { self.new ≡ after_reset self.old }
        ensures stands { Takes (Act.Reset (number_of self.old)) self.old self.new }
    {
        self.tracker.reset();
    }
}
