//! A layer: the sectors that were written while it was the newest, in pages of a block each.
ghost use Rattle.std.specs.Prelude.{◌≡◌, ◌≢◌, ◌+◌, ◌*◌, ◌<◌, ◌≤◌, ◌^◌, [], length, ◌||◌, ◌⊎◌, IfOk, OnOk, OnErr, IsSome, None, Some, option_map, unwrap_or, ℕ};
ghost use Rattle.std.specs.Option.{option_copied, option_or};
ghost use Rattle.snapshot_chain.specs.Page128.{PageState, no_sectors, run_at, IsGrown};
ghost use Rattle.snapshot_chain.specs.Layer.{key_of, page_of, slot_of, sector_of, sector_in, HasSame, IsWritten, IsWrittenIf, IsPutAt, IsWrittenOver, AreGrown, KeepsSlots, AddsSlots, IsSlotAdded, IsWithin, IsRoomFor, IsRoomAt, IsOpenAt, IsMerged, after_taking, TakesPages, LayerState, has_sector};
ghost use Rattle.std.specs.BTreeSet.{contains};
ghost use Rattle.std.specs.Ordering.{nat_cmp};

use crate::{Page128, Steps};
use sector_model::{BLOCK_SECTORS, NoMemory, Sector};
use std::alloc::Global;
use std::collections::{BTreeMap, BTreeSet};
use std::marker::Model;
use std::sync::ledger::Ledger;

/// Spreads blocks over the keys: 2^64 divided by the golden ratio, rounded to an odd number.
const SPREAD: u64 = 0x9E37_79B9_7F4A_7C15;

/// Leads a key back to its block: the inverse of `SPREAD` modulo 2^64.
const GATHER: u64 = 0xF1DE_83E1_9937_733D;

/// Pages under keys over which their blocks are spread: what was written between two freezes.
///
/// Keys that come in ascending or descending order leave each node of the tree half full. So the
/// blocks are spread: written in order, they then fill it about as well as in no order.
///
/// A page without sectors holds nothing: it only keeps a slot, so that a page can be put there
/// without memory.
#[derive(Debug, Drop)]
pub struct Layer {
    pages: BTreeMap<u64, Page128>,
}

impl Model for Layer {
    ghost Value = { LayerState };

    ghost view = { λ a. a.pages.entries };
}

impl Layer {
    /// A layer without pages. It takes no memory.
    pub(crate) fn new(alloc: Global) -> Layer
        ensures { result ≡ [] }
    {
        Layer {
            pages: BTreeMap::new(alloc),
        }
    }

    /// The page of a block, which takes one step. None where the layer has no sector of the block.
    pub fn page<L: Ledger>(&self, block: u64, steps: &mut Steps<L>) -> Option<&Page128>
        ensures page { option_copied result ≡ page_of self.now block }
        ensures step { steps.new ≡ steps.old + 1 }
    {
        steps.tick();
        match self.pages.get(&key_of(block)) {
            Some(page) if !page.is_empty() => Some(page),
            _ => None,
        }
    }

    /// Writes sectors from sector `first` of the disk on. It answers only want of memory, and then
    /// what the layer holds is as it was.
    pub(crate) fn write(
        &mut self,
        alloc: Global,
        first: u64,
        sectors: &[Sector],
    ) -> Result<(), NoMemory>
        requires { first + length sectors.now < 2 ^ 64 }
        ensures ok { OnOk result (IsWritten self.old self.new first sectors.now) }
        ensures err { OnErr result (HasSame self.old self.new) }
        ensures within { (c : ℕ) → first + length sectors.now ≤ c → IsWithin c self.old
            → IsWithin c self.new }
    {
        if self.put_in_place(alloc, first, sectors)? {
            return Ok(());
        }
        self.write_pages(alloc, first, sectors)
    }

    /// Writes sectors page by page: a page that lacks some of its part is made anew, and the others
    /// are written over.
    fn write_pages(&mut self, alloc: Global, first: u64, sectors: &[Sector]) -> Result<(), NoMemory>
        requires { first + length sectors.now < 2 ^ 64 }
        ensures ok { OnOk result (IsWritten self.old self.new first sectors.now) }
        ensures err { OnErr result (HasSame self.old self.new) }
        ensures within { (c : ℕ) → first + length sectors.now ≤ c → IsWithin c self.old
            → IsWithin c self.new }
    {
        let grown = self.grown_pages(alloc, first, sectors)?;
        self.make_slots(&grown)?;
        self.overwrite(first, sectors);
        self.put_pages(grown);
        Ok(())
    }

    /// Writes sectors from sector `first` of the disk on into the page of their block, in place, if
    /// the page takes them (`Page128::put_in_place`). Says false where it doesn't. An `Err` and a
    /// false change nothing that the layer holds.
    fn put_in_place(
        &mut self,
        alloc: Global,
        first: u64,
        sectors: &[Sector],
    ) -> Result<bool, NoMemory>
        requires { first + length sectors.now < 2 ^ 64 }
        ensures ok { IfOk result (λ added. IsWrittenIf added self.old self.new first sectors.now) }
        ensures err { OnErr result (HasSame self.old self.new) }
        ensures slots { KeepsSlots self.new self.old }
    {
        self.put_at(alloc, first / BLOCK_SECTORS, first % BLOCK_SECTORS, sectors)
    }

    /// Writes sectors from an offset of a block on into the block's page, in place, if that takes
    /// them.
    fn put_at(
        &mut self,
        alloc: Global,
        block: u64,
        offset: u64,
        sectors: &[Sector],
    ) -> Result<bool, NoMemory>
        requires { offset < BLOCK_SECTORS }
        ensures here { IfOk result (λ added. IsPutAt added offset sectors.now
            (slot_of self.old block) (slot_of self.new block)) }
        ensures err { OnErr result (slot_of self.new block ≡ slot_of self.old block) }
        ensures others { (other : ℕ) → other ≢ block
            → slot_of self.new other ≡ slot_of self.old other }
        ensures slots { KeepsSlots self.new self.old }
    {
        match self.pages.get_mut(&key_of(block)) {
            Some(page) => page.put_in_place(alloc, offset, sectors),
            None => Ok(false),
        }
    }

    /// The pages of the blocks in which a write needs memory, as they are after it.
    fn grown_pages(&self, alloc: Global, first: u64, sectors: &[Sector]) -> Result<Layer, NoMemory>
        requires { first + length sectors.now < 2 ^ 64 }
        ensures grown { IfOk result (AreGrown self.now first sectors.now) }
        ensures within { IfOk result (λ pages. (c : ℕ) → first + length sectors.now ≤ c
            → IsWithin c pages) }
    {
        let mut grown = Layer::new(alloc);
        let end = first + sectors.len() as u64;
        for block in first / BLOCK_SECTORS..end.div_ceil(BLOCK_SECTORS) {
            if let Some(page) = self.grown_page(alloc, block, first, sectors)? {
                grown.add(block, page)?;
            }
        }
        Ok(grown)
    }

    /// The page of a block after a write, or None where the write needs no memory in this block.
    fn grown_page(
        &self,
        alloc: Global,
        block: u64,
        first: u64,
        sectors: &[Sector],
    ) -> Result<Option<Page128>, NoMemory>
        requires { block < 2 ^ 57 }
        ensures { IfOk result (IsGrown (sector_in self.now block) block first sectors.now) }
    {
        match self.pages.get(&key_of(block)) {
            Some(page) => page.grown(alloc, block, first, sectors),
            None => Page128::empty().grown(alloc, block, first, sectors),
        }
    }

    /// Writes over the sectors that the layer has. It takes no memory.
    fn overwrite(&mut self, first: u64, sectors: &[Sector])
        requires { first + length sectors.now < 2 ^ 64 }
        ensures sectors { IsWrittenOver self.old self.new first sectors.now }
        ensures slots { KeepsSlots self.new self.old }
        ensures kept { KeepsSlots self.old self.new }
    {
        let end = first + sectors.len() as u64;
        for block in first / BLOCK_SECTORS..end.div_ceil(BLOCK_SECTORS) {
            self.overwrite_page(block, first, sectors);
        }
    }

    /// Writes over the sectors that the layer has of a block.
    fn overwrite_page(&mut self, block: u64, first: u64, sectors: &[Sector])
        requires { block < 2 ^ 57 }
        ensures here { (offset : ℕ) → offset < BLOCK_SECTORS → sector_in self.new block offset
            ≡ option_map (unwrap_or (run_at first sectors.now (BLOCK_SECTORS * block + offset)))
            (sector_in self.old block offset) }
        ensures others { (other : ℕ) → other ≢ block
            → slot_of self.new other ≡ slot_of self.old other }
        ensures slots { KeepsSlots self.new self.old }
        ensures kept { KeepsSlots self.old self.new }
    {
        if let Some(page) = self.pages.get_mut(&key_of(block)) {
            page.overwrite(block, first, sectors);
        }
    }

    /// Makes a slot for each block of another layer. Nothing that the layer holds changes.
    fn make_slots(&mut self, other: &Layer) -> Result<(), NoMemory>
        ensures ok { OnOk result (KeepsSlots other.now self.new) }
        ensures added { AddsSlots other.now self.old self.new }
    {
        for (key, _page) in &other.pages {
            self.make_slot(block_of(*key))?;
        }
        Ok(())
    }

    /// Makes a slot for the page of a block, so that a page can be put there without memory.
    fn make_slot(&mut self, block: u64) -> Result<(), NoMemory>
        ensures ok { OnOk result (IsSome (slot_of self.new block)) }
        ensures added { IsSlotAdded (Some no_sectors) (slot_of self.old block)
            (slot_of self.new block) }
        ensures others { (other : ℕ) → other ≢ block
            → slot_of self.new other ≡ slot_of self.old other }
    {
        if !self.pages.contains_key(&key_of(block)) {
            self.add(block, Page128::empty())?;
        }
        Ok(())
    }

    /// Keeps a page of a block. An `Err` changes nothing.
    fn add(&mut self, block: u64, page: Page128) -> Result<(), NoMemory>
        ensures here { OnOk result (slot_of self.new block ≡ Some page) }
        ensures others { (other : ℕ) → other ≢ block
            → slot_of self.new other ≡ slot_of self.old other }
        ensures err { OnErr result (self.new ≡ self.old) }
    {
        self.pages.insert(key_of(block), page)?;
        Ok(())
    }

    /// Puts each of the pages into its slot. It takes no memory.
    fn put_pages(&mut self, pages: Layer)
        requires { KeepsSlots pages self.old }
        ensures { (block : ℕ) → slot_of self.new block
            ≡ option_or (slot_of pages block) (slot_of self.old block) }
    {
        let mut pages = pages;
        while let Some((key, page)) = pages.pages.pop_first() {
            self.put(block_of(key), page);
        }
    }

    /// Puts a page into its slot. It takes no memory.
    fn put(&mut self, block: u64, page: Page128)
        requires { IsSome (slot_of self.old block) }
        ensures here { slot_of self.new block ≡ Some page }
        ensures others { (other : ℕ) → other ≢ block
            → slot_of self.new other ≡ slot_of self.old other }
    {
        let put: Result<_, _> = self.pages.insert(key_of(block), page);
        put.unwrap();
    }

    /// Room for the layer that joins two: the pages of the blocks of which both have sectors, and
    /// an empty slot for each other block. With it, `join` takes no memory.
    pub(crate) fn room_for(alloc: Global, lower: &Layer, upper: &Layer) -> Result<Layer, NoMemory>
        ensures { IfOk result (IsRoomFor lower.now upper.now) }
    {
        let mut room = Layer::new(alloc);
        room.make_slots(lower)?;
        room.make_slots(upper)?;
        for (key, page) in &lower.pages {
            room.join_page(alloc, block_of(*key), page, upper)?;
        }
        Ok(room)
    }

    /// Puts a page that is joined with the upper layer's into its slot, where both have sectors.
    fn join_page(
        &mut self,
        alloc: Global,
        block: u64,
        lower: &Page128,
        upper: &Layer,
    ) -> Result<(), NoMemory>
        requires { IsOpenAt (Some lower.now) (slot_of upper.now block) (slot_of self.old block) }
        ensures here { OnOk result
            (IsRoomAt (Some lower.now) (slot_of upper.now block) (slot_of self.new block)) }
        ensures slots { KeepsSlots self.new self.old }
        ensures others { (other : ℕ) → other ≢ block
            → slot_of self.new other ≡ slot_of self.old other }
    {
        if let Some(above) = upper.pages.get(&key_of(block))
            && !above.is_empty()
            && !lower.is_empty()
        {
            let page = Page128::joined(alloc, lower, above)?;
            self.put(block, page);
        }
        Ok(())
    }

    /// Joins two layers in the room for both: the upper one's sectors win. No sector is copied, and
    /// it takes no memory.
    pub(crate) fn join(&mut self, lower: Layer, upper: Layer)
        requires { IsRoomFor lower upper self.old }
        ensures merged { IsMerged lower upper self.new }
        ensures within { (c : ℕ) → IsWithin c lower → IsWithin c upper → IsWithin c self.new }
    {
        self.take_pages(upper);
        self.take_pages(lower);
    }

    /// Takes over the pages of another layer where their slots are empty, without copying a
    /// sector. It takes no memory.
    fn take_pages(&mut self, other: Layer)
        ensures { TakesPages other self.old self.new }
    {
        let mut other = other;
        while let Some((key, page)) = other.pages.pop_first() {
            self.take_page(block_of(key), page);
        }
    }

    /// Takes one page where its slot is empty.
    fn take_page(&mut self, block: u64, page: Page128)
        ensures here { slot_of self.new block
            ≡ after_taking (Some page) (slot_of self.old block) }
        ensures others { (other : ℕ) → other ≢ block
            → slot_of self.new other ≡ slot_of self.old other }
    {
        let is_free = match self.pages.get(&key_of(block)) {
            Some(slot) => slot.is_empty(),
            None => false,
        };
        if is_free {
            self.put(block, page);
        }
    }

    /// Adds the number of each block of which this layer has a sector.
    pub(crate) fn add_blocks(&self, blocks: &mut BTreeSet<u64>) -> Result<(), NoMemory>
        ensures { OnOk result ((b : ℕ)
            → contains nat_cmp blocks.new b
            ≡ (contains nat_cmp blocks.old b || has_sector self.now b)) }
    {
        for (key, page) in &self.pages {
            if !page.is_empty() {
                blocks.insert(block_of(*key))?;
            }
        }
        Ok(())
    }
}

/// The key under which the page of a block stands.
fn key_of(block: u64) -> u64
    ensures { result ≡ key_of block }
{
    block.wrapping_mul(SPREAD)
}

/// The block whose page stands under a key.
fn block_of(key: u64) -> u64
    ensures { key_of result ≡ key }
{
    key.wrapping_mul(GATHER)
}
