//! Sectors, and the list of them that a written entry keeps.
ghost use Rattle.std.specs.Prelude.{◌≡◌, IfOk, List};

mod replaced;

use crate::NoMemory;
use basics::SECTOR_BYTES;
use std::alloc::Global;
use std::array;
use std::marker::Model;

/// The 512 bytes of one sector.
#[derive(Clone, Copy, Debug, PartialEq, Eq)]
pub struct Sector(pub [u8; SECTOR_BYTES]);

impl Sector {
    ghost use Rattle.sector_model.specs.Sector.{filled, stamped};

    /// A sector whose bytes are all `byte`.
    #[tactic(auto, unfolding(crate::specs::Sector::filled))]
    pub fn filled(byte: u8) -> Sector
        ensures { result ≡ filled byte }
    {
        Sector([byte; SECTOR_BYTES])
    }

    /// A sector that repeats the stamp 64 times, big-endian.
    #[tactic(auto, unfolding(crate::specs::Sector::stamped))]
    pub fn stamped(stamp: u64) -> Sector
        ensures { result ≡ stamped stamp }
    {
        let bytes = stamp.to_be_bytes();
        let mut sector = [0; SECTOR_BYTES];
        for i in 0..SECTOR_BYTES {
            sector[i] = bytes[i % 8];
        }
        Sector(sector)
    }
}

/// A list of sectors, as a write carries it.
#[derive(Debug, Drop)]
pub struct SectorList {
    kept: KeptSectors,
}

/// How a list keeps its sectors: two words, and a single sector stands in one piece of memory.
#[derive(Debug, Drop)]
enum KeptSectors {
    Single(Box<Sector>),
    Several(Box<Vec<Sector>>),
}

impl Model for SectorList {
    ghost use Rattle.std.specs.Prelude.{List};
    ghost use Rattle.sector_model.specs.declared.sector.Sector.{Sector};
    ghost use Rattle.sector_model.specs.KeptSectors.{sectors_of};

    ghost Value = { List Sector };

    ghost view = { λ a. sectors_of a.kept };
}

impl SectorList {
    /// A copy of the sectors. It answers only want of memory.
    pub fn of(alloc: Global, sectors: &[Sector]) -> Result<SectorList, NoMemory>
        ensures { IfOk result (λ list. list ≡ sectors.now) }
    {
        let kept = match sectors {
            [single] => KeptSectors::Single(Box::new(alloc, *single)?),
            _ => KeptSectors::Several(Box::new(alloc, sectors.to_vec(alloc)?)?),
        };
        Ok(SectorList { kept })
    }

    /// The sectors, in order.
    pub fn as_slice(&self) -> &[Sector]
        ensures { result.now ≡ self.now }
    {
        match &self.kept {
            KeptSectors::Single(sector) => array::from_ref(sector.as_ref()).as_slice(),
            KeptSectors::Several(sectors) => sectors.as_slice(),
        }
    }
}
