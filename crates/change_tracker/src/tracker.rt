//! The tracker of one disk. It decides what is refused, counts the freezes, and finds the window
//! of an answer; the touches are in its maps.
ghost use Rattle.std.specs.Prelude.{◌≡◌, ◌+◌, ◌<◌, ◌≤◌, ◌^◌, ◌∷◌, ◌++◌, [], IsOk, OnOk, OnErr, IfOk, ℕ, List, true, Some, None, false, ◌==◌, MatchBool, MatchOption};
ghost use Rattle.std.specs.List.{list_any};
ghost use Rattle.basics.specs.Refusal.{IsRefusedOr, IsRefusedBy};
ghost use Rattle.sector_model.specs.Page.{page_from};
ghost use Rattle.change_tracker.specs.Fields.{IsAscending, IsAt, is_accepted, window_from, in_force_of};

use crate::TrackRefused;
use crate::frozen_snapshot::FrozenSnapshot;
use crate::maps::Maps;
use crate::touches::Touches;
use crate::word::Window;
use change_id::{ChangeId, Since, counted_id, pack};
use sector_model::{NoMemory, Page, Run};
use std::alloc::Global;
use std::marker::Model;

/// Which blocks of a disk were touched before each snapshot, and which changed between two of them.
///
/// Runs and pages count in sectors. A block of 128 sectors is touched where one of them is marked.
/// Each snapshot has an identifier where tracking was enabled before it: the epoch of the disk,
/// which is how often tracking was reset, and the snapshot's number in that epoch.
#[derive(Debug, Drop)]
pub struct Tracker {
    alloc: Global,
    machine: u32,
    disk: u32,
    capacity: u64,
    resets: u64,
    /// Snapshots since tracking was enabled and last reset, or none before it was enabled.
    counted: Option<u64>,
    maps: Maps,
    snapshots: Vec<FrozenSnapshot>,
    free_from: u64,
    /// The run that has its places in the maps.
    mark_room: Option<Run>,
    /// Whether the list of snapshots has room for one more.
    freeze_room: bool,
}

impl Model for Tracker {
    ghost use Rattle.change_tracker.specs.Tracker.{TrackerState};
    ghost use Rattle.change_tracker.specs.Fields.{state_of, IsKept};

    ghost Value = { TrackerState };

    ghost view = { λ a. state_of a.machine a.disk a.capacity a.resets a.counted a.maps
        a.snapshots.items a.free_from a.mark_room a.freeze_room };

    ghost invariant = { λ a. IsKept a.capacity a.counted a.maps a.snapshots a.free_from
        a.mark_room a.freeze_room };
}

impl Tracker {
    ghost use Rattle.change_tracker.specs.Tracker.{fresh, next_id, after_marking, after_freezing, after_enabling, after_reset, mark_refusal};
    ghost use Rattle.sector_model.specs.Run.{is_within};
    ghost use Rattle.change_tracker.specs.History.{TrackStep, Marked, Frozen, Enabled, Reset, StandsFor, Takes, id_at, answered, snapshot_refusal, query_refusal};

    /// The tracker of a disk of that many sectors, of which nothing was told. It takes no memory.
    pub fn new(alloc: Global, machine: u32, disk: u32, capacity: u64) -> Result<Tracker, NoMemory>
        ensures always { IsOk result }
        ensures fresh { IfOk result (λ tracker. tracker ≡ fresh machine disk capacity) }
        ensures stands { IfOk result (λ tracker. StandsFor tracker []) }
    {
        Ok(Tracker {
            alloc,
            machine,
            disk,
            capacity,
            resets: 0,
            counted: None,
            maps: Maps {
                first: Touches::new(alloc),
                changes: Touches::new(alloc),
            },
            snapshots: Vec::new(alloc),
            free_from: 0,
            mark_room: None,
            freeze_room: false,
        })
    }

    /// Enables tracking: from now on snapshots get identifiers. Enabling it again changes nothing.
    /// It takes no memory.
    pub fn enable(&mut self)
        ensures enabled { self.new ≡ after_enabling self.old }
        ensures stands { Takes Enabled self.old self.new }
    {
        if self.counted.is_none() {
            self.counted = Some(0);
        }
    }

    /// Makes room for marking the run. `Range` comes where it is empty or passes the capacity, and
    /// else only want of memory. Nothing else changes.
    pub fn reserve_mark(&mut self, run: Run) -> Result<(), TrackRefused>
        ensures refused { IsRefusedOr (mark_refusal run self.old) TrackRefused.NoMemory result }
        ensures ok { OnOk result (self.new ≡ record self.old { mark_room = Some run }) }
        ensures err { OnErr result (self.new ≡ self.old) }
        ensures room { self.old.mark_room ≡ Some run → IsOk result }
    {
        if self.mark_room == Some(run) {
            return Ok(());
        }
        if !self.is_within(run) {
            return Err(TrackRefused::Range);
        }
        let freezes = self.snapshots.len() as u64;
        self.maps.reserve(self.alloc, run, freezes)?;
        self.mark_room = Some(run);
        Ok(())
    }

    /// Makes room for the next `freeze`. It answers only want of memory. Nothing else changes.
    pub fn reserve_freeze(&mut self) -> Result<(), NoMemory>
        ensures ok { OnOk result (self.new ≡ record self.old { freeze_room = true }) }
        ensures err { OnErr result (self.new ≡ self.old) }
        ensures room { self.old.freeze_room ≡ true → IsOk result }
    {
        self.snapshots.reserve(1)?;
        self.freeze_room = true;
        Ok(())
    }

    /// The blocks that the run meets are touched. `Range` comes where it is empty or passes the
    /// capacity. Want of memory doesn't come after a `reserve_mark` of this run since the last
    /// mark, freeze and reset.
    pub fn mark(&mut self, run: Run) -> Result<(), TrackRefused>
        ensures refused { IsRefusedOr (mark_refusal run self.old) TrackRefused.NoMemory result }
        ensures ok { OnOk result (self.new ≡ after_marking run self.old) }
        ensures stands { OnOk result (Takes (Marked run) self.old self.new) }
        ensures err { OnErr result (self.new ≡ self.old) }
        ensures room { self.old.mark_room ≡ Some run → IsOk result }
    {
        self.reserve_mark(run)?;
        let freezes = self.snapshots.len() as u64;
        self.maps.mark(run, freezes);
        self.mark_room = None;
        Ok(())
    }

    /// Keeps which blocks were touched by now as those of a snapshot, and tells its identifier, if
    /// it has one. The id is above all earlier ones. It answers only want of memory, and not after
    /// a `reserve_freeze` since the last `freeze`.
    pub fn freeze(&mut self, id: u32) -> Result<Option<ChangeId>, NoMemory>
        requires { self.old.free_from ≤ id }
        ensures ok { OnOk result (self.new ≡ after_freezing id self.old) }
        ensures told { IfOk result (λ told. told ≡ next_id self.old) }
        ensures named { (steps : List TrackStep) → StandsFor self.old steps
            → IfOk result (λ told. told
            ≡ id_at self.old.machine self.old.disk id (steps ++ Frozen id ∷ [])) }
        ensures stands { OnOk result (Takes (Frozen id) self.old self.new) }
        ensures err { OnErr result (self.new ≡ self.old) }
        ensures room { self.old.freeze_room ≡ true → IsOk result }
    {
        if !self.freeze_room {
            self.reserve_freeze()?;
        }
        Ok(self.add_snapshot(id))
    }

    /// Adds the snapshot, and tells its identifier.
    fn add_snapshot(&mut self, id: u32) -> Option<ChangeId>
        requires free { self.old.free_from ≤ id }
        requires room { self.old.freeze_room ≡ true }
        ensures frozen { self.new ≡ after_freezing id self.old }
        ensures told { result ≡ next_id self.old }
    {
        let uuid = pack(self.machine, self.disk, self.resets);
        self.counted = self.counted.map(|counted| counted + 1);
        let change_id = self.counted.map(|seq| ChangeId { uuid, seq });
        self.snapshots
            .push(FrozenSnapshot { id, change_id })
            .unwrap();
        self.free_from = u64::from(id) + 1;
        self.mark_room = None;
        self.freeze_room = false;
        change_id
    }

    /// Forgets what changed and begins a new epoch: identifiers that were given are strange from
    /// then on. What was touched before each snapshot, and its identifier, stay. It takes no
    /// memory.
    pub fn reset(&mut self)
        requires { self.old.epoch + 1 < 2 ^ 64 }
        ensures reset { self.new ≡ after_reset self.old }
        ensures stands { Takes Reset self.old self.new }
    {
        self.resets += 1;
        self.counted = self.counted.map(|_| 0);
        self.maps.changes.clear();
        self.mark_room = None;
    }

    /// Puts into the page the areas that were touched before a snapshot, or that changed between an
    /// identifier and the snapshot: those from sector `start` on, at most
    /// [`PAGE_AREAS`](sector_model::PAGE_AREAS). `UnknownSnap` comes where no snapshot was frozen
    /// under the id, `Range` where `start` isn't below the capacity, `Strange` where the identifier
    /// isn't one of the present epoch up to the snapshot. It takes no memory.
    pub fn query(
        &self,
        id: u32,
        since: Since,
        start: u64,
        page: &mut Page,
    ) -> Result<(), TrackRefused>
        ensures refused { (steps : List TrackStep) → StandsFor self.now steps
            → IsRefusedBy (query_refusal self.now.machine self.now.disk self.now.capacity id since
            start steps) result }
        ensures areas { (steps : List TrackStep) → StandsFor self.now steps
            → OnOk result (IfOk
            (answered self.now.machine self.now.disk self.now.capacity id since steps)
            (λ areas. page.new ≡ page_from self.now.capacity areas start)) }
        ensures err { OnErr result (page.new ≡ page.old) }
    {
        let Some(place) = place_of(self.snapshots.as_slice(), id) else {
            return Err(TrackRefused::UnknownSnap);
        };
        if start >= self.capacity {
            return Err(TrackRefused::Range);
        }
        match since {
            Since::All => {
                let window = Window {
                    from: 0,
                    end: place as u64 + 1,
                };
                self.maps
                    .first
                    .fill_page(window, self.capacity, start, page);
            }
            Since::From(from) => {
                let uuid = pack(self.machine, self.disk, self.resets);
                let at = self.snapshots[place].change_id;
                let Some(window) = window_since(uuid, place, at, from) else {
                    return Err(TrackRefused::Strange(in_force_of(uuid, self.counted)));
                };
                self.maps
                    .changes
                    .fill_page(window, self.capacity, start, page);
            }
        }
        Ok(())
    }

    /// The identifier that `freeze` told for a snapshot. `UnknownSnap` comes where no snapshot was
    /// frozen under the id. It takes no memory.
    pub fn id_of(&self, id: u32) -> Result<Option<ChangeId>, TrackRefused>
        ensures refused { (steps : List TrackStep) → StandsFor self.now steps
            → IsRefusedBy (snapshot_refusal id steps) result }
        ensures found { (steps : List TrackStep) → StandsFor self.now steps
            → IfOk result (λ found. found ≡ id_at self.now.machine self.now.disk id steps) }
    {
        match place_of(self.snapshots.as_slice(), id) {
            Some(place) => Ok(self.snapshots[place].change_id),
            None => Err(TrackRefused::UnknownSnap),
        }
    }

    /// Whether the run has a sector, and lies within the disk.
    fn is_within(&self, run: Run) -> bool
        ensures { result ≡ is_within self.now.capacity run.first run.count }
    {
        run.count != 0 && run.first <= self.capacity && run.count <= self.capacity - run.first
    }
}

/// The place of a snapshot in the list.
fn place_of(snapshots: &[FrozenSnapshot], id: u32) -> Option<usize>
    requires { IsAscending snapshots.now }
    ensures { MatchOption result (list_any (λ kept. kept.id == id) snapshots.now ≡ false)
        (λ place. IsAt snapshots.now place id) }
{
    let place = snapshots.partition_point(|kept| kept.id < id);
    match snapshots.get(place) {
        Some(kept) if kept.id == id => Some(place),
        _ => None,
    }
}

/// The freezes since an identifier, up to the snapshot at a place, which has the identifier `at`.
/// None where that one isn't of the present epoch, or isn't later.
fn window_since(uuid: u128, place: usize, at: Option<ChangeId>, from: ChangeId) -> Option<Window>
    requires { place + 1 < 2 ^ 64 }
    ensures { MatchBool (is_accepted uuid at from)
        (result ≡ Some (window_from place at from.seq)) (result ≡ None) }
{
    let at = at?;
    if from.uuid == uuid && at.uuid == uuid && 1 <= from.seq && from.seq <= at.seq {
        let end = place as u64 + 1;
        let from = end.saturating_sub(at.seq - from.seq);
        Some(Window { from, end })
    } else {
        None
    }
}

/// The identifier that is in force, where so many snapshots were counted in the epoch.
fn in_force_of(uuid: u128, counted: Option<u64>) -> Option<ChangeId>
    ensures { result ≡ in_force_of uuid counted }
{
    counted_id(uuid, counted.unwrap_or(0))
}
