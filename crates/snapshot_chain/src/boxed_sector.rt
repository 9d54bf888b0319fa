//! One sector in a piece of memory of its own. Pages grow in turns, and lists that grow in turns
//! leave holes; pieces of one size leave none.
ghost use Rattle.std.specs.Prelude.{◌≡◌, IfOk};

use sector_model::{NoMemory, Sector};
use std::alloc::Global;
use std::marker::Model;

/// A sector in a piece of memory of its own, so that one that comes later moves no other, and a
/// piece that is given back fits the next sector. It stands for its [`Sector`].
#[derive(Debug, Drop)]
pub(crate) struct BoxedSector {
    sector: Box<Sector>,
}

impl Model for BoxedSector {
    ghost use Rattle.sector_model.specs.declared.sector.Sector.{Sector};

    ghost Value = { Sector };

    ghost view = { λ a. a.sector.value };
}

impl BoxedSector {
    /// A copy of the sector. It answers only want of memory.
    pub(crate) fn new(alloc: Global, sector: &Sector) -> Result<BoxedSector, NoMemory>
        ensures { IfOk result (λ boxed. boxed ≡ sector.now) }
    {
        Ok(BoxedSector {
            sector: Box::new(alloc, *sector)?,
        })
    }

    /// The sector.
    pub(crate) fn as_sector(&self) -> &Sector
        ensures { result.now ≡ self.now }
    {
        self.sector.as_ref()
    }

    /// Puts another sector into the same piece of memory.
    pub(crate) fn set(&mut self, sector: &Sector)
        ensures { self.new ≡ sector.now }
    {
        *self.sector = *sector;
    }
}
