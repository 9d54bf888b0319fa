//! Runs that are the loose sectors of a volume.
ghost use Rattle.std.specs.Prelude.{◌≡◌, ◌≤◌, length, All};
ghost use Rattle.sector_model.specs.Run.{end_of};
ghost use Rattle.sector_model.specs.VolumeContents.{loose_count};
ghost use Rattle.sector_model.specs.LooseRuns.{volume_of};

use crate::run::sectors_of;
use crate::{Runs, SectorList};

impl Runs {
    /// How many sectors of a volume are loose, where these are its loose runs.
    pub fn loose_count(&self, sectors: &SectorList) -> u64
        requires { All (λ run. end_of run ≤ length sectors.now) self.now }
        ensures { result ≡ loose_count (volume_of sectors.now self.now) }
    {
        let _volume = sectors;
        sectors_of(self.as_slice())
    }
}
