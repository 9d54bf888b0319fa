//! The chain: what a disk holds now and at each live snapshot, kept as layers.
ghost use Rattle.std.specs.Prelude.{◌≡◌, List, [], ◌+◌, ◌*◌, ◌^◌, ◌<◌, ◌≤◌, length, IfOk, OnOk, OnErr, IfSome, IsSome, IsOk, IsTrue, ◌↔◌, ℕ, true, is_some, nat_eq, slice_range};
ghost use Rattle.std.specs.Bool.{OnTrue};
ghost use Rattle.std.specs.List.{position};
ghost use Rattle.basics.specs.Refusal.{IsRefusedBy, IsRefusedOr};
ghost use Rattle.sector_model.specs.Run.{areas_of};
ghost use Rattle.snapshot_chain.specs.Reading.{blocks_met, layers_seen};

use crate::layers::{blocks_of, merge_down};
use crate::reading::read_layers;
use crate::{Layer, Steps};
use sector_model::{NoMemory, Runs, Sector};
use std::alloc::Global;
use std::fmt;
use std::marker::{Brand, Model};
use std::sync::ledger::{Blank, Ledger};

/// Why a chain refuses a call.
#[derive(Clone, Copy, Debug, PartialEq, Eq)]
pub enum ChainRefused {
    /// The snapshot isn't live.
    UnknownSnap,
    /// The range is empty, or passes the capacity.
    Range,
    /// Memory ran out. The call has changed nothing but the room that was made for later calls.
    NoMemory,
}

impl fmt::Display for ChainRefused {
    fn fmt<W: fmt::Write>(&self, f: &mut fmt::Formatter<W>) -> fmt::Result {
        f.write_str(match self {
            ChainRefused::UnknownSnap => "unknown snapshot",
            ChainRefused::Range => "range",
            ChainRefused::NoMemory => "no memory",
        })
    }
}

impl From<NoMemory> for ChainRefused {
    ghost use Rattle.std.specs.Prelude.{◌≡◌};
    ghost use Rattle.snapshot_chain.specs.declared.chain.ChainRefused.TheVariants.{NoMemory};

    ghost from_gives = { λ _ e. e ≡ NoMemory };

    fn from(_refused: NoMemory) -> Self {
        ChainRefused::NoMemory
    }
}

/// What one disk holds now, and what it held at each live snapshot.
///
/// Sectors are numbered from 0 to the capacity. What was never written is zero.
#[derive(Debug, Drop)]
pub struct Chain {
    alloc: Global,
    capacity: u64,
    /// The oldest layer first; the last one takes the writes.
    layers: Vec<Layer>,
    /// The snapshot under which each layer but the last was frozen.
    ids: Vec<u32>,
    /// No snapshot had an id from here on.
    free_from: u64,
    /// Whether both lists have room for one more.
    freeze_room: bool,
    /// Room for the merge of one snapshot.
    merge_room: Option<MergeRoom>,
}

/// What the merge of a snapshot takes in place of memory. The layers know nothing of it.
#[derive(Debug, Drop)]
struct MergeRoom {
    id: u32,
    /// Room for the layer that is joined of the snapshot's and the next newer one.
    pages: Layer,
}

impl Model for Chain {
    ghost use Rattle.snapshot_chain.specs.Chain.{ChainState};
    ghost use Rattle.snapshot_chain.specs.Fields.{state_of, room_id, IsKept};

    ghost Value = { ChainState };

    ghost view = { λ a.
        state_of a.capacity a.layers.items a.ids.items a.free_from a.freeze_room
        (room_id a.merge_room) };

    ghost invariant = { λ a.
        IsKept a.capacity a.layers a.ids a.free_from a.freeze_room a.merge_room };
}

impl Chain {
    ghost use Rattle.sector_model.specs.Run.{is_within};
    ghost use Rattle.snapshot_chain.specs.Chain.{fresh, snapshot_of, contents_of, after_writing, after_freezing, after_merging, write_refusal, snapshot_refusal, read_refusal, IsKeptAfter};
    ghost use Rattle.snapshot_chain.specs.History.{DiskEvent, Written, Frozen, Merged, StandsFor, Takes, live_snapshots};

    /// The chain of a disk that was never written. It answers only want of memory.
    pub fn new(alloc: Global, capacity: u64) -> Result<Chain, NoMemory>
        ensures fresh { IfOk result (λ chain. chain ≡ fresh capacity) }
        ensures stands { IfOk result (λ chain. StandsFor chain []) }
    {
        let mut layers = Vec::with_capacity(alloc, 1)?;
        layers.push(Layer::new(alloc))?;
        Ok(Chain {
            alloc,
            capacity,
            layers,
            ids: Vec::new(alloc),
            free_from: 0,
            freeze_room: false,
            merge_room: None,
        })
    }

    /// Writes sectors from sector `first` on. `Range` comes where there are none, or they pass the
    /// capacity.
    pub fn write(&mut self, first: u64, sectors: &[Sector]) -> Result<(), ChainRefused>
        ensures refused { IsRefusedOr (write_refusal self.old first (length sectors.now))
            ChainRefused.NoMemory result }
        ensures ok { OnOk result
            (self.new ≡ after_writing (record { first = first; sectors = sectors.now }) self.old) }
        ensures stands { OnOk result
            (Takes (Written (record { first = first; sectors = sectors.now })) self.old self.new) }
        ensures err { IsKeptAfter result self.old self.new }
    {
        if !self.is_within(first, sectors.len()) {
            return Err(ChainRefused::Range);
        }
        self.merge_room = None;
        let newest = self.ids.len();
        let layer = &mut self.layers[newest];
        layer.write(self.alloc, first, sectors)?;
        Ok(())
    }

    /// Makes room for the next `freeze`. It answers only want of memory.
    pub fn reserve_freeze(&mut self) -> Result<(), NoMemory>
        ensures ok { OnOk result (self.new ≡ record self.old { freeze_room = true }) }
        ensures err { OnErr result (self.new ≡ self.old) }
        ensures room { self.old.freeze_room ≡ true → IsOk result }
    {
        self.ids.reserve(1)?;
        self.layers.reserve(1)?;
        self.freeze_room = true;
        Ok(())
    }

    /// Keeps what the disk holds now as a snapshot. Its id is above all earlier ones. It answers
    /// only want of memory, and not after a `reserve_freeze` since the last change.
    pub fn freeze(&mut self, id: u32) -> Result<(), NoMemory>
        requires { self.old.free_from ≤ id }
        ensures ok { OnOk result (self.new ≡ after_freezing id self.old) }
        ensures stands { OnOk result (Takes (Frozen id) self.old self.new) }
        ensures err { OnErr result (self.new ≡ self.old) }
        ensures room { self.old.freeze_room ≡ true → IsOk result }
    {
        if !self.freeze_room {
            self.reserve_freeze()?;
        }
        self.add_layer(id);
        Ok(())
    }

    /// Opens an empty layer above the newest one, which is frozen under the id.
    fn add_layer(&mut self, id: u32)
        requires free { self.old.free_from ≤ id }
        requires room { self.old.freeze_room ≡ true }
        ensures { self.new ≡ after_freezing id self.old }
    {
        self.ids.push(id).unwrap();
        self.layers.push(Layer::new(self.alloc)).unwrap();
        self.free_from = u64::from(id) + 1;
        self.freeze_room = false;
        self.merge_room = None;
    }

    /// Makes room for the `merge` of a snapshot. `UnknownSnap` comes where it isn't live.
    pub fn reserve_merge(&mut self, id: u32) -> Result<(), ChainRefused>
        ensures refused { IsRefusedOr (snapshot_refusal self.old id) ChainRefused.NoMemory result }
        ensures ok { OnOk result (self.new ≡ record self.old { merge_room = Some id }) }
        ensures err { IsKeptAfter result self.old self.new }
        ensures room { self.old.merge_room ≡ Some id → IsOk result }
    {
        let Some(index) = position_of(self.ids.as_slice(), id) else {
            return Err(ChainRefused::UnknownSnap);
        };
        if self.has_merge_room(id) {
            return Ok(());
        }
        self.merge_room = None;
        let pages = Layer::room_for(self.alloc, &self.layers[index], &self.layers[index + 1])?;
        self.merge_room = Some(MergeRoom { id, pages });
        Ok(())
    }

    /// Whether there is room for the merge of a snapshot.
    fn has_merge_room(&self, id: u32) -> bool
        ensures { IsTrue result ↔ (self.now.merge_room ≡ Some id) }
    {
        match &self.merge_room {
            Some(room) => room.id == id,
            None => false,
        }
    }

    /// Gives a snapshot up: its layer goes into the next newer one, whose sectors win.
    /// `UnknownSnap` comes where it isn't live. It takes no memory after a `reserve_merge` of this
    /// id since the last change.
    pub fn merge(&mut self, id: u32) -> Result<(), ChainRefused>
        ensures refused { IsRefusedOr (snapshot_refusal self.old id) ChainRefused.NoMemory result }
        ensures ok { OnOk result (self.new ≡ after_merging id self.old) }
        ensures stands { OnOk result (Takes (Merged id) self.old self.new) }
        ensures err { IsKeptAfter result self.old self.new }
        ensures room { self.old.merge_room ≡ Some id → IsOk result }
    {
        if !self.has_merge_room(id) {
            self.reserve_merge(id)?;
        }
        self.join_layer(id);
        Ok(())
    }

    /// Joins the layer that was frozen under the id into the next newer one.
    fn join_layer(&mut self, id: u32)
        requires { self.old.merge_room ≡ Some id }
        ensures live { IsSome (snapshot_of id self.old) }
        ensures merged { self.new ≡ after_merging id self.old }
    {
        let Some(room) = self.merge_room.take() else {
            return;
        };
        let Some(index) = position_of(self.ids.as_slice(), id) else {
            return;
        };
        self.ids.remove(index);
        merge_down(&mut self.layers, index, room.pages);
    }

    /// Reads sectors from sector `first` on, of a snapshot or, without one, of what the disk holds
    /// now. `UnknownSnap` comes where the snapshot isn't live, then `Range` where the buffer is
    /// empty or the range passes the capacity. It takes no memory.
    pub fn read(&self, id: Option<u32>, first: u64, buf: &mut [Sector]) -> Result<(), ChainRefused>
        ensures refused { IsRefusedBy (read_refusal self.now id first (length buf.old)) result }
        ensures ok { OnOk result (IfSome (contents_of id self.now)
            (λ contents. buf.new ≡ slice_range contents first (first + length buf.old))) }
        ensures err { OnErr result (buf.new ≡ buf.old) }
    {
        self.read_counted::<Brand>(Blank::new(1), id, first, buf)
    }

    /// `read_steps` with a count of its own.
    fn read_counted<L: Ledger>(
        &self,
        blank: Blank,
        id: Option<u32>,
        first: u64,
        buf: &mut [Sector],
    ) -> Result<(), ChainRefused>
        requires name { blank.name ≡ L.name }
        requires parts { blank.parts ≡ L.parts }
        requires some_parts { 0 < L.parts }
        ensures refused { IsRefusedBy (read_refusal self.now id first (length buf.old)) result }
        ensures ok { OnOk result (IfSome (contents_of id self.now)
            (λ contents. buf.new ≡ slice_range contents first (first + length buf.old))) }
        ensures err { OnErr result (buf.new ≡ buf.old) }
    {
        let mut steps = Steps::<L>::new(blank);
        self.read_steps(id, first, buf, &mut steps)
    }

    /// Reads as `read` does, and counts the pages that it looks up: for each block that the range
    /// meets at most one of each layer, of which there is one more than live snapshots.
    pub fn read_steps<L: Ledger>(
        &self,
        id: Option<u32>,
        first: u64,
        buf: &mut [Sector],
        steps: &mut Steps<L>,
    ) -> Result<(), ChainRefused>
        ensures refused { IsRefusedBy (read_refusal self.now id first (length buf.old)) result }
        ensures ok { OnOk result (IfSome (contents_of id self.now)
            (λ contents. buf.new ≡ slice_range contents first (first + length buf.old))) }
        ensures err { OnErr result (buf.new ≡ buf.old) }
        ensures uncounted { OnErr result (steps.new ≡ steps.old) }
        ensures counted { steps.old ≤ steps.new }
        ensures cost { steps.new
            ≤ steps.old + (length self.now.snapshots + 1) * blocks_met first (length buf.old) }
        // The same of each history for which the chain stands: its live snapshots and one.
        ensures live_cost { (history : List DiskEvent) → StandsFor self.now history → steps.new
            ≤ steps.old
            + (length (live_snapshots history) + 1) * blocks_met first (length buf.old) }
    {
        let Some(seen) = layers_seen(self.ids.as_slice(), id) else {
            return Err(ChainRefused::UnknownSnap);
        };
        if !self.is_within(first, buf.len()) {
            return Err(ChainRefused::Range);
        }
        read_layers(&self.layers[..seen], first, buf, steps);
        Ok(())
    }

    /// The areas of the blocks that were written before a snapshot was frozen. `UnknownSnap` comes
    /// where it isn't live.
    pub fn allocated(&self, id: u32) -> Result<Runs, ChainRefused>
        ensures refused { IsRefusedOr (snapshot_refusal self.now id) ChainRefused.NoMemory result }
        ensures ok { IfOk result (λ runs. IfSome (snapshot_of id self.now)
            (λ snapshot. runs ≡ areas_of self.now.capacity snapshot.blocks)) }
    {
        let Some(index) = position_of(self.ids.as_slice(), id) else {
            return Err(ChainRefused::UnknownSnap);
        };
        let blocks = blocks_of(self.alloc, &self.layers[..index + 1])?;
        Ok(Runs::from_blocks(self.alloc, blocks.as_slice(), self.capacity)?)
    }

    /// Whether the snapshot was frozen and not merged since.
    pub fn is_live(&self, id: u32) -> bool
        ensures { result ≡ is_some (snapshot_of id self.now) }
    {
        position_of(self.ids.as_slice(), id).is_some()
    }

    /// Whether `count` sectors from sector `first` on are some and lie within the disk.
    fn is_within(&self, first: u64, count: usize) -> bool
        ensures within { result ≡ is_within self.now.capacity first count }
        ensures fits { OnTrue result (first + count < 2 ^ 64) }
    {
        count != 0 && first <= self.capacity && count as u64 <= self.capacity - first
    }
}

/// The index of an id among the ids of the frozen layers.
fn position_of(ids: &[u32], id: u32) -> Option<usize>
    ensures { result ≡ position (nat_eq id) ids.now }
{
    ids.iter().position(|frozen| id == *frozen)
}

/// How many layers a snapshot sees, the oldest first, or all without a snapshot.
fn layers_seen(ids: &[u32], id: Option<u32>) -> Option<usize>
    ensures { result ≡ layers_seen id ids.now }
{
    match id {
        Some(id) => Some(position_of(ids, id)? + 1),
        None => Some(ids.len() + 1),
    }
}
