//! Why a store gives out no volume.
ghost use Rattle.std.specs.Prelude.{◌≡◌};
ghost use Rattle.target_volume.specs.StoreRefused.{refusal_number};

use crate::{NoMemory, VolumeFailed};
use basics::Failed;
use std::error::Error;
use std::fmt;

/// Why a store gave out no volume.
#[derive(Clone, Copy, Debug, PartialEq, Eq)]
pub enum StoreRefused {
    /// There is one of that name.
    Exists,
    /// The store failed. Its count of faults rose.
    Failed,
    /// Memory ran out.
    NoMemory,
}

impl StoreRefused {
    /// The number of the refusal, 1 or 2. Want of memory has none.
    pub fn number(&self) -> Option<u8>
        ensures { result ≡ refusal_number self.now }
    {
        match self {
            StoreRefused::Exists => Some(1),
            StoreRefused::Failed => Some(2),
            StoreRefused::NoMemory => None,
        }
    }
}

impl fmt::Display for StoreRefused {
    fn fmt<W: fmt::Write>(&self, f: &mut fmt::Formatter<W>) -> fmt::Result {
        match self {
            StoreRefused::Exists => write!(f, "there is a volume of that name"),
            StoreRefused::Failed => write!(f, "the store failed"),
            StoreRefused::NoMemory => write!(f, "out of memory"),
        }
    }
}

impl Error for StoreRefused {}

impl From<Failed> for StoreRefused {
    ghost use Rattle.target_volume.specs.declared.store_refused.StoreRefused.TheVariants.{Failed};

    ghost from_gives = { λ _ refused. refused ≡ Failed };

    fn from(_failed: Failed) -> Self {
        StoreRefused::Failed
    }
}

impl From<VolumeFailed> for StoreRefused {
    ghost use Rattle.target_volume.specs.declared.store_refused.StoreRefused.TheVariants.{Failed};

    ghost from_gives = { λ _ refused. refused ≡ Failed };

    fn from(_failed: VolumeFailed) -> Self {
        StoreRefused::Failed
    }
}

impl From<NoMemory> for StoreRefused {
    ghost use Rattle.target_volume.specs.declared.store_refused.StoreRefused.TheVariants.{NoMemory};

    ghost from_gives = { λ _ refused. refused ≡ NoMemory };

    fn from(_refused: NoMemory) -> Self {
        StoreRefused::NoMemory
    }
}
