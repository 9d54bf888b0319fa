//! Two sectors of one block. They take 24 bytes besides the sectors, where a list of two takes 64:
//! much for a guest that writes two sectors here and two there.
ghost use Rattle.std.specs.Prelude.{◌≡◌, ◌<◌, IfOk};
ghost use Rattle.std.specs.Option.{option_copied};
ghost use Rattle.snapshot_chain.specs.Page128.{PageState, IsPage, sector_at, IsReplaced};
ghost use Rattle.snapshot_chain.specs.SectorPair.{pair_state, AreOffsets};

use crate::boxed_sector::BoxedSector;
use crate::placed_sectors::PlacedSectors;
use sector_model::{BLOCK_SECTORS, NoMemory, Sector};
use std::alloc::Global;
use std::marker::Model;

/// Two sectors at two offsets of a block.
#[derive(Debug, Drop)]
pub(crate) struct SectorPair {
    low: u8,
    high: u8,
    lower: BoxedSector,
    upper: BoxedSector,
}

impl Model for SectorPair {
    ghost Value = { PageState };

    ghost view = { λ a. pair_state a.low a.lower a.high a.upper };

    ghost invariant = { λ a. AreOffsets a.low a.high };
}

impl SectorPair {
    /// The sectors of two offsets, of which the first is the lower.
    pub(crate) fn new(low: u8, lower: BoxedSector, high: u8, upper: BoxedSector) -> SectorPair
        requires { AreOffsets low high }
        ensures { result ≡ pair_state low lower high upper }
    {
        SectorPair {
            low,
            high,
            lower,
            upper,
        }
    }

    /// The offsets that have a sector, a bit for each.
    pub(crate) fn mask(&self) -> u128
        ensures mask { result ≡ self.now.mask }
        ensures page { IsPage self.now }
    {
        (1u128 << self.low) + (1u128 << self.high)
    }

    /// The sector at an offset, or None without one there.
    pub(crate) fn get(&self, offset: u64) -> Option<&Sector>
        requires { offset < BLOCK_SECTORS }
        ensures { option_copied result ≡ sector_at self.now offset }
    {
        if offset == u64::from(self.low) {
            Some(self.lower.as_sector())
        } else if offset == u64::from(self.high) {
            Some(self.upper.as_sector())
        } else {
            None
        }
    }

    /// The two as a list that has room for some sectors. It answers only want of memory.
    pub(crate) fn into_placed(self, alloc: Global, room: usize) -> Result<PlacedSectors, NoMemory>
        ensures { IfOk result (λ placed. placed ≡ self) }
    {
        let SectorPair {
            low,
            high,
            lower,
            upper,
        } = self;
        let mut placed = PlacedSectors::with_room(alloc, room)?;
        placed.append(u64::from(low), lower)?;
        placed.append(u64::from(high), upper)?;
        Ok(placed)
    }

    /// Puts another sector at an offset that has one. Without one there, nothing changes.
    pub(crate) fn replace(&mut self, offset: u64, sector: &Sector)
        requires { offset < BLOCK_SECTORS }
        ensures { IsReplaced self.old offset sector.now self.new }
    {
        if offset == u64::from(self.low) {
            self.lower.set(sector);
        } else if offset == u64::from(self.high) {
            self.upper.set(sector);
        }
    }
}
