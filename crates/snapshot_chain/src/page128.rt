//! A page of a layer: the written sectors of one block, each once and no others, since a guest that
//! writes here and there shall not take memory for whole blocks.
ghost use Rattle.std.specs.Prelude.{◌≡◌, ◌+◌, ◌*◌, ◌<◌, ◌≤◌, ◌^◌, [], length, IsTrue, IsSome, is_some, ◌↔◌, IfOk, OnErr, None, ℕ};
ghost use Rattle.std.specs.Option.{option_copied};
ghost use Rattle.snapshot_chain.specs.Page128.{PageState, IsPage, no_sectors, sector_at, run_at, with_sector, IsJoined, IsRewritten, IsGrown, IsOverwritten, IsReplaced, IsPutInPlace};
ghost use Rattle.snapshot_chain.specs.PageForm.{page_state, IsOfBlock};

use crate::boxed_sector::BoxedSector;
use crate::placed_sectors::PlacedSectors;
use crate::sector_pair::SectorPair;
use sector_model::{BLOCK_SECTORS, NoMemory, Sector};
use std::alloc::Global;
use std::marker::Model;
use std::mem;

/// Which sectors of a block a layer has, and these sectors in ascending order.
///
/// A page takes memory for the sectors that it has; a list of several may have room for some more
/// pointers.
#[derive(Debug, Drop)]
pub struct Page128 {
    form: PageForm,
}

/// How a page keeps its sectors, each of which has a piece of memory of its own. One or two take
/// the least memory without a list.
#[derive(Debug, Drop)]
enum PageForm {
    Nothing,
    Lone(u8, BoxedSector),
    Pair(Box<SectorPair>),
    Many(Box<PlacedSectors>),
}

impl Model for Page128 {
    ghost use Rattle.snapshot_chain.specs.Page128.{PageState};

    ghost Value = { PageState };

    ghost use Rattle.snapshot_chain.specs.PageForm.{page_state, IsOfBlock};

    ghost view = { λ a. page_state a.form };

    ghost invariant = { λ a. IsOfBlock a.form };
}

impl Page128 {
    /// A page without sectors. It takes no memory.
    pub(crate) fn empty() -> Page128
        ensures { result ≡ no_sectors }
    {
        Page128 {
            form: PageForm::Nothing,
        }
    }

    /// The offsets in the block that have a sector: bit `k` for offset `k`.
    pub fn mask(&self) -> u128
        ensures mask { result ≡ self.now.mask }
        ensures page { IsPage self.now }
    {
        match &self.form {
            PageForm::Nothing => 0,
            PageForm::Lone(offset, _sector) => 1u128 << *offset,
            PageForm::Pair(pair) => pair.mask(),
            PageForm::Many(placed) => placed.mask(),
        }
    }

    /// Whether the page has no sector.
    pub fn is_empty(&self) -> bool
        ensures empty { IsTrue result ↔ (self.now.mask ≡ 0) }
        ensures page { IsPage self.now }
    {
        self.mask() == 0
    }

    /// The sector at an offset of the block, from 0 to 127. None where the page has none there.
    pub fn get(&self, offset: u64) -> Option<&Sector>
        requires { offset < BLOCK_SECTORS }
        ensures { option_copied result ≡ sector_at self.now offset }
    {
        match &self.form {
            PageForm::Nothing => None,
            PageForm::Lone(own, sector) => {
                if u64::from(*own) == offset {
                    Some(sector.as_sector())
                } else {
                    None
                }
            }
            PageForm::Pair(pair) => pair.get(offset),
            PageForm::Many(placed) => placed.get(offset),
        }
    }

    /// The page with the sector of an offset above those of all others. Where it has to hold
    /// several, it makes room for `room` sectors. It answers only want of memory.
    fn with(
        self,
        alloc: Global,
        room: usize,
        offset: u64,
        sector: &Sector,
    ) -> Result<Page128, NoMemory>
        requires offset { offset < BLOCK_SECTORS }
        requires above { self.mask < 2 ^ offset }
        ensures { IfOk result (λ page. page ≡ with_sector self offset sector.now) }
    {
        let boxed = BoxedSector::new(alloc, sector)?;
        let form = match self.form {
            PageForm::Nothing => PageForm::Lone(offset as u8, boxed),
            PageForm::Lone(own, lone) => {
                let pair = SectorPair::new(own, lone, offset as u8, boxed);
                PageForm::Pair(Box::new(alloc, pair)?)
            }
            PageForm::Pair(pair) => {
                let mut placed = Box::into_inner(pair).into_placed(alloc, room)?;
                placed.append(offset, boxed)?;
                PageForm::Many(Box::new(alloc, placed)?)
            }
            PageForm::Many(many) => {
                let mut placed = many;
                placed.append(offset, boxed)?;
                PageForm::Many(placed)
            }
        };
        Ok(Page128 { form })
    }

    /// The sectors of both pages; where both have one, the upper page's. It answers only want of
    /// memory.
    pub(crate) fn joined(
        alloc: Global,
        lower: &Page128,
        upper: &Page128,
    ) -> Result<Page128, NoMemory>
        ensures { IfOk result (IsJoined lower.now upper.now) }
    {
        let room = (lower.mask() | upper.mask()).count_ones() as usize;
        let mut page = Page128::empty();
        for offset in 0..BLOCK_SECTORS {
            if let Some(sector) = upper.get(offset).or(lower.get(offset)) {
                page = page.with(alloc, room, offset, sector)?;
            }
        }
        Ok(page)
    }

    /// Writes sectors one after another from an offset of the block on, in place. It does so where
    /// they are within the block, and the page has a sector at each of their offsets, or three
    /// sectors or more; else it says false. It answers only want of memory, and takes none where
    /// each has one. An `Err` and a false change nothing.
    pub(crate) fn put_in_place(
        &mut self,
        alloc: Global,
        offset: u64,
        sectors: &[Sector],
    ) -> Result<bool, NoMemory>
        requires { offset < BLOCK_SECTORS }
        ensures ok { IfOk result
            (λ added. IsPutInPlace added offset sectors.now self.old self.new) }
        ensures err { OnErr result (self.new ≡ self.old) }
    {
        let is_within = sectors.len() as u64 <= BLOCK_SECTORS - offset;
        if !is_within {
            return Ok(false);
        }
        if self.missing(0, offset, sectors) == 0 {
            self.overwrite(0, offset, sectors);
            return Ok(true);
        }
        let PageForm::Many(placed) = &mut self.form else {
            return Ok(false);
        };
        placed.put_run(alloc, offset, sectors)?;
        Ok(true)
    }

    /// The page with its block's part of a run of sectors, which begins at sector `first` of the
    /// disk; or None where it has a sector at each offset of this part, so that they can be
    /// overwritten. It answers only want of memory.
    pub(crate) fn grown(
        &self,
        alloc: Global,
        block: u64,
        first: u64,
        sectors: &[Sector],
    ) -> Result<Option<Page128>, NoMemory>
        requires { block < 2 ^ 57 }
        ensures { IfOk result (IsGrown (sector_at self.now) block first sectors.now) }
    {
        let missing = self.missing(block, first, sectors);
        if missing == 0 {
            return Ok(None);
        }
        let room = self.mask().count_ones() as usize + missing;
        let page = self.rewritten(alloc, room, block, first, sectors)?;
        Ok(Some(page))
    }

    /// How many sectors of the block's part of a run this page lacks.
    fn missing(&self, block: u64, first: u64, sectors: &[Sector]) -> usize
        requires { block < 2 ^ 57 }
        ensures none { result ≡ 0 → (offset : ℕ) → offset < BLOCK_SECTORS
            → IsSome (run_at first sectors.now (BLOCK_SECTORS * block + offset))
            → IsSome (sector_at self.now offset) }
        ensures few { result ≤ BLOCK_SECTORS }
    {
        let mut missing = 0;
        let part = part_of(block, first, sectors);
        for offset in part.0..part.1 {
            let is_in = run_get(first, sectors, BLOCK_SECTORS * block + offset).is_some();
            if is_in && self.get(offset).is_none() {
                missing += 1;
            }
        }
        missing
    }

    /// The page with its block's part of a run in place of its own sectors there.
    fn rewritten(
        &self,
        alloc: Global,
        room: usize,
        block: u64,
        first: u64,
        sectors: &[Sector],
    ) -> Result<Page128, NoMemory>
        requires { block < 2 ^ 57 }
        ensures { IfOk result (IsRewritten (sector_at self.now) block first sectors.now) }
    {
        let mut page = Page128::empty();
        for offset in 0..BLOCK_SECTORS {
            let written = run_get(first, sectors, BLOCK_SECTORS * block + offset);
            if let Some(sector) = written.or(self.get(offset)) {
                page = page.with(alloc, room, offset, sector)?;
            }
        }
        Ok(page)
    }

    /// Writes its block's part of a run over the sectors that this page has. It takes no memory.
    pub(crate) fn overwrite(&mut self, block: u64, first: u64, sectors: &[Sector])
        requires { block < 2 ^ 57 }
        ensures { IsOverwritten (sector_at self.old) block first sectors.now self.new }
    {
        let part = part_of(block, first, sectors);
        for offset in part.0..part.1 {
            if let Some(sector) = run_get(first, sectors, BLOCK_SECTORS * block + offset) {
                self.replace(offset, sector);
            }
        }
    }

    /// Puts another sector at an offset that has one. Without one there, nothing changes.
    fn replace(&mut self, offset: u64, sector: &Sector)
        requires { offset < BLOCK_SECTORS }
        ensures { IsReplaced self.old offset sector.now self.new }
    {
        let form = mem::replace(&mut self.form, PageForm::Nothing);
        self.form = replaced(form, offset, sector);
    }
}

/// What a page keeps, with another sector at an offset that has one.
fn replaced(form: PageForm, offset: u64, sector: &Sector) -> PageForm
    requires offset { offset < BLOCK_SECTORS }
    requires stored { IsOfBlock form }
    ensures sectors { IsReplaced (page_state form) offset sector.now (page_state result) }
    ensures stored { IsOfBlock result }
{
    match form {
        PageForm::Nothing => PageForm::Nothing,
        PageForm::Lone(own, lone) => {
            let mut lone = lone;
            if u64::from(own) == offset {
                lone.set(sector);
            }
            PageForm::Lone(own, lone)
        }
        PageForm::Pair(pair) => {
            let mut pair = pair;
            pair.replace(offset, sector);
            PageForm::Pair(pair)
        }
        PageForm::Many(many) => {
            let mut placed = many;
            placed.replace(offset, sector);
            PageForm::Many(placed)
        }
    }
}

/// The offsets of a block at which a run of sectors from sector `first` on may have one: from the
/// first of the two on, below the second.
fn part_of(block: u64, first: u64, sectors: &[Sector]) -> (u64, u64)
    requires { block < 2 ^ 57 }
    ensures order { (result.0 ≤ result.1) × (result.1 ≤ BLOCK_SECTORS) }
    ensures before { (k : ℕ) → k < result.0
        → run_at first sectors.now (BLOCK_SECTORS * block + k) ≡ None }
    ensures behind { (k : ℕ) → k < BLOCK_SECTORS → result.1 ≤ k
        → run_at first sectors.now (BLOCK_SECTORS * block + k) ≡ None }
{
    let base = BLOCK_SECTORS * block;
    let low = first.saturating_sub(base).min(BLOCK_SECTORS);
    let end = low.saturating_add(sectors.len() as u64);
    let high = end
        .saturating_sub(base.saturating_sub(first))
        .min(BLOCK_SECTORS);
    (low, high)
}

/// What a run of sectors from sector `first` on has at a sector.
fn run_get(first: u64, sectors: &[Sector], sector: u64) -> Option<&Sector>
    ensures { option_copied result ≡ run_at first sectors.now sector }
{
    let index = sector.checked_sub(first)?;
    sectors.get(index as usize)
}
