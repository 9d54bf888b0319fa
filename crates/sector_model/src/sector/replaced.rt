//! A list of sectors in which some are replaced.
ghost use Rattle.std.specs.Prelude.{◌≡◌, ◌+◌, ◌≤◌, length};
ghost use Rattle.basics.specs.Replaced.{replaced};

use super::KeptSectors;
use crate::{Sector, SectorList};

impl SectorList {
    /// Puts these sectors in place of those from `first` on. It takes no memory.
    pub fn replace(&mut self, first: usize, sectors: &[Sector])
        requires { first + length sectors.now ≤ length self.old }
        ensures { self.new ≡ replaced self.old first sectors.now }
    {
        match &mut self.kept {
            KeptSectors::Single(old) => {
                if let [new] = sectors {
                    **old = *new;
                }
            }
            KeptSectors::Several(kept) => {
                let old = kept.as_mut_slice();
                old[first..first + sectors.len()].copy_from_slice(sectors);
            }
        }
    }
}
