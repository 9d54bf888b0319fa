//! Sectors of one block, and a mask of the offsets at which they stand: the count of the bits below
//! an offset is the place of its sector, so no offset is kept with a sector.
ghost use Rattle.std.specs.Prelude.{◌≡◌, ◌+◌, ◌<◌, ◌≤◌, ◌^◌, length, vec_len, vec_capacity, IfOk, OnOk, OnErr, IsTrue, ◌↔◌};
ghost use Rattle.std.specs.Option.{option_copied};
ghost use Rattle.basics.specs.Bits.{has_bit};
ghost use Rattle.snapshot_chain.specs.Page128.{PageState, IsPage, no_sectors, rank, sector_at, with_sector, IsReplaced, IsPut, IsRewritten};

use crate::boxed_sector::BoxedSector;
use sector_model::{BLOCK_SECTORS, NoMemory, Sector};
use std::alloc::Global;
use std::marker::Model;

/// Some sectors of a block in ascending order of their offsets, and no others.
///
/// Bit `k` of the mask is set where the sector at offset `k` of the block is one of them.
#[derive(Debug, Drop)]
pub(crate) struct PlacedSectors {
    mask: u128,
    sectors: Vec<BoxedSector>,
}

impl Model for PlacedSectors {
    ghost Value = { PageState };

    ghost view = { λ a. record { mask = a.mask; sectors = a.sectors.items } };

    ghost invariant = { λ a. IsPage (record { mask = a.mask; sectors = a.sectors.items }) };
}

impl PlacedSectors {
    /// No sectors, with room for some. It answers only want of memory.
    pub(crate) fn with_room(alloc: Global, sectors: usize) -> Result<PlacedSectors, NoMemory>
        ensures { IfOk result (λ placed. placed ≡ no_sectors) }
    {
        Ok(PlacedSectors {
            mask: 0,
            sectors: Vec::with_capacity(alloc, sectors)?,
        })
    }

    /// The offsets that have a sector, a bit for each.
    pub(crate) fn mask(&self) -> u128
        ensures mask { result ≡ self.now.mask }
        ensures page { IsPage self.now }
    {
        self.mask
    }

    /// Whether the offset has a sector.
    fn has(&self, offset: u64) -> bool
        requires { offset < BLOCK_SECTORS }
        ensures has { result ≡ has_bit self.now.mask offset }
        ensures page { IsPage self.now }
    {
        self.mask & (1u128 << offset) != 0
    }

    /// How many of the sectors stand below the offset.
    fn index_of(&self, offset: u64) -> usize
        requires { offset < BLOCK_SECTORS }
        ensures index { result ≡ rank self.now.mask offset }
        ensures page { IsPage self.now }
    {
        (self.mask & ((1u128 << offset) - 1)).count_ones() as usize
    }

    /// The sector at an offset, or None without one there.
    pub(crate) fn get(&self, offset: u64) -> Option<&Sector>
        requires { offset < BLOCK_SECTORS }
        ensures { option_copied result ≡ sector_at self.now offset }
    {
        if !self.has(offset) {
            return None;
        }
        let boxed = self.sectors.get(self.index_of(offset))?;
        Some(boxed.as_sector())
    }

    /// Adds the sector of an offset above those of all others. It answers only want of memory.
    pub(crate) fn append(&mut self, offset: u64, sector: BoxedSector) -> Result<(), NoMemory>
        requires offset { offset < BLOCK_SECTORS }
        requires above { self.old.mask < 2 ^ offset }
        ensures { OnOk result (self.new ≡ with_sector self.old offset sector) }
    {
        self.sectors.push(sector)?;
        self.mask |= 1u128 << offset;
        Ok(())
    }

    /// Puts copies of sectors one after another from an offset on, where the page has sectors and
    /// where it hasn't. It takes memory for all of them first; an `Err` changes nothing.
    pub(crate) fn put_run(
        &mut self,
        alloc: Global,
        offset: u64,
        sectors: &[Sector],
    ) -> Result<(), NoMemory>
        requires { offset + length sectors.now ≤ BLOCK_SECTORS }
        ensures ok { OnOk result
            (IsRewritten (sector_at self.old) 0 offset sectors.now self.new) }
        ensures err { OnErr result (self.new ≡ self.old) }
    {
        let copies = copies_of(alloc, sectors)?;
        make_room(&mut self.sectors, sectors.len())?;
        self.mask = put_all(self.mask, &mut self.sectors, offset, copies);
        Ok(())
    }

    /// Puts another sector at an offset that has one. Without one there, nothing changes.
    pub(crate) fn replace(&mut self, offset: u64, sector: &Sector)
        requires { offset < BLOCK_SECTORS }
        ensures mask { self.new.mask ≡ self.old.mask }
        ensures sectors { IsReplaced self.old offset sector.now self.new }
        ensures page { IsPage self.new }
    {
        if self.has(offset) {
            let index = self.index_of(offset);
            self.sectors[index].set(sector);
        }
    }
}

/// A copy of each of the sectors. It answers only want of memory.
fn copies_of(alloc: Global, sectors: &[Sector]) -> Result<Vec<BoxedSector>, NoMemory>
    ensures { IfOk result (λ copies. copies.items ≡ sectors.now) }
{
    let mut copies = Vec::with_capacity(alloc, sectors.len())?;
    for sector in sectors {
        copies.push(BoxedSector::new(alloc, sector)?)?;
    }
    Ok(copies)
}

/// Makes room for so many sectors more, and where there is none, for some later ones besides: half
/// of what is there, as far as a block has more sectors.
fn make_room(list: &mut Vec<BoxedSector>, count: usize) -> Result<(), NoMemory>
    requires { count ≤ BLOCK_SECTORS }
    ensures items { list.new.items ≡ list.old.items }
    ensures room { OnOk result (vec_len list.new + count ≤ vec_capacity list.new) }
{
    let len = list.len();
    if list.capacity() - len < count {
        let left = (BLOCK_SECTORS as usize).saturating_sub(len);
        let later = left.saturating_sub(count).min(len / 2);
        list.reserve_exact(count + later)?;
    }
    Ok(())
}

/// Puts sectors one after another from an offset on into the list of a page, which has room for
/// them. It gives the page's mask then, and takes no memory. The list stands by itself here, since
/// what a page stands for doesn't tell its room.
fn put_all(mask: u128, list: &mut Vec<BoxedSector>, offset: u64, sectors: Vec<BoxedSector>) -> u128
    requires within { offset + length sectors.items ≤ BLOCK_SECTORS }
    requires page { IsPage (record { mask = mask; sectors = list.old.items }) }
    requires room { vec_len list.old + length sectors.items ≤ vec_capacity list.old }
    ensures page { IsPage (record { mask = result; sectors = list.new.items }) }
    ensures sectors { IsRewritten
        (sector_at (record { mask = mask; sectors = list.old.items })) 0 offset sectors.items
        (record { mask = result; sectors = list.new.items }) }
{
    let mut mask = mask;
    let mut rest = sectors;
    while let Some(sector) = rest.pop() {
        mask = put_one(mask, list, offset + rest.len() as u64, sector);
    }
    mask
}

/// Puts a sector at an offset into the list of a page, which has room for one. It gives the page's
/// mask then, and takes no memory.
fn put_one(mask: u128, list: &mut Vec<BoxedSector>, offset: u64, sector: BoxedSector) -> u128
    requires within { offset < BLOCK_SECTORS }
    requires page { IsPage (record { mask = mask; sectors = list.old.items }) }
    requires room { vec_len list.old < vec_capacity list.old }
    ensures page { IsPage (record { mask = result; sectors = list.new.items }) }
    ensures sectors { IsPut (record { mask = mask; sectors = list.old.items }) offset sector
        (record { mask = result; sectors = list.new.items }) }
    ensures room { vec_capacity list.old ≤ vec_capacity list.new }
    ensures len { vec_len list.new ≤ vec_len list.old + 1 }
{
    let bit = 1u128 << offset;
    let index = (mask & (bit - 1)).count_ones() as usize;
    if mask & bit != 0 {
        list[index] = sector;
        return mask;
    }
    let put: Result<_, _> = list.insert(index, sector);
    put.unwrap();
    mask + bit
}
