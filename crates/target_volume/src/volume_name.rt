//! Names of volumes. Volumes of single moves come first, then those of migrations.
ghost use Rattle.std.specs.Prelude.{◌≡◌, IfOk};

use crate::{Name, NoMemory};
use std::cmp::Ordering;

/// The name of a volume in its store.
#[derive(Debug, Clone, Drop)]
pub enum VolumeName {
    /// The target of a single move.
    Given(Name),
    /// A disk of a migration, by their numbers.
    Disk { mig: u32, disk: u32 },
}

impl VolumeName {
    /// A second name like this one. It answers only want of memory.
    pub fn copy(&self) -> Result<VolumeName, NoMemory>
        ensures { IfOk result (λ name. name ≡ self.now) }
    {
        Ok(self.clone()?)
    }
}

impl PartialEq for VolumeName {
    ghost use Rattle.std.specs.Ordering.{eq_by_cmp};
    ghost use Rattle.target_volume.specs.VolumeName.{volume_cmp, volumes_partial};

    ghost eq = { eq_by_cmp volume_cmp };

    ghost laws = { volumes_partial };

    fn eq(&self, other: &VolumeName) -> bool {
        self.cmp(other).is_eq()
    }
}

impl Eq for VolumeName {
    ghost use Rattle.target_volume.specs.VolumeName.{volumes_equivalent};

    ghost laws = { volumes_equivalent };
}

impl PartialOrd for VolumeName {
    ghost use Rattle.std.specs.Cmp.{po};
    ghost use Rattle.std.specs.Ordering.{as_partial_cmp};
    ghost use Rattle.std.specs.Prelude.{refl};
    ghost use Rattle.target_volume.specs.VolumeName.{volume_cmp, volumes_total};

    ghost partial_cmp = { as_partial_cmp volume_cmp };

    ghost laws = { po volumes_total (λ a b. refl) };

    fn partial_cmp(&self, other: &VolumeName) -> Option<Ordering> {
        Some(self.cmp(other))
    }
}

impl Ord for VolumeName {
    ghost use Rattle.std.specs.Prelude.{refl};
    ghost use Rattle.target_volume.specs.VolumeName.{volume_cmp, volumes_total};

    ghost cmp = { volume_cmp };

    ghost total = { volumes_total };

    ghost matches_partial_cmp = { λ a b. refl };

    ghost matches_eq = { λ a b. refl };

    fn cmp(&self, other: &VolumeName) -> Ordering {
        match (self, other) {
            (VolumeName::Given(a), VolumeName::Given(b)) => a.cmp(b),
            (VolumeName::Given(_), VolumeName::Disk { .. }) => Ordering::Less,
            (VolumeName::Disk { .. }, VolumeName::Given(_)) => Ordering::Greater,
            (VolumeName::Disk { mig: a, disk: c }, VolumeName::Disk { mig: b, disk: d }) => {
                a.cmp(b).then(c.cmp(d))
            }
        }
    }
}
