//! One checkpoint, the phases of a data volume, and why a call is refused: what the calls of a data
//! volume speak of, apart from its state.
ghost use Rattle.std.specs.Prelude.{◌≡◌};
ghost use Rattle.checkpoints.specs.Checkpoint.{refusal_number};

use std::alloc::AllocFailed;
use std::error::Error;
use std::fmt;

/// What is copied from one snapshot to a later one.
#[derive(Clone, Copy, Debug, PartialEq, Eq)]
pub struct Checkpoint {
    /// The snapshot that the copy before it stands on. 0 where there is none.
    pub previous: u32,
    /// The snapshot that is copied.
    pub current: u32,
    /// Whether all of it is copied.
    pub done: bool,
}

/// How far an import is.
#[derive(Clone, Copy, Debug, PartialEq, Eq)]
pub enum DvPhase {
    /// It has no checkpoint yet.
    Pending,
    /// Its last checkpoint is being copied.
    InProgress,
    /// Its last checkpoint is copied, and further ones may come.
    Paused,
    /// Its final checkpoint is copied.
    Succeeded,
}

impl fmt::Display for DvPhase {
    ghost use Rattle.std.specs.Prelude.{Some};
    ghost use Rattle.checkpoints.specs.Checkpoint.{phase_text};

    ghost output = { λ phase. Some (phase_text phase) };

    fn fmt<W: fmt::Write>(&self, f: &mut fmt::Formatter<W>) -> fmt::Result {
        match self {
            DvPhase::Pending => write!(f, "Pending"),
            DvPhase::InProgress => write!(f, "InProgress"),
            DvPhase::Paused => write!(f, "Paused"),
            DvPhase::Succeeded => write!(f, "Succeeded"),
        }
    }
}

/// Why a call of a [`DataVolume`](crate::DataVolume) is refused. A refused call changes nothing.
#[derive(Clone, Copy, Debug, PartialEq, Eq)]
pub enum CheckRefused {
    /// The checkpoint doesn't go on from a finished one; there is none to finish, or it is finished
    /// already.
    Order,
    /// The final checkpoint was added before.
    Final,
    /// Memory ran out.
    NoMemory,
}

impl CheckRefused {
    /// The number of the refusal, 1 or 2. Want of memory has none.
    pub fn number(&self) -> Option<u8>
        ensures { result ≡ refusal_number self.now }
    {
        match self {
            CheckRefused::Order => Some(1),
            CheckRefused::Final => Some(2),
            CheckRefused::NoMemory => None,
        }
    }
}

impl fmt::Display for CheckRefused {
    ghost use Rattle.std.specs.Prelude.{Some};
    ghost use Rattle.checkpoints.specs.Checkpoint.{refusal_text};

    ghost output = { λ refusal. Some (refusal_text refusal) };

    fn fmt<W: fmt::Write>(&self, f: &mut fmt::Formatter<W>) -> fmt::Result {
        match self {
            CheckRefused::Order => write!(f, "the checkpoint is out of order"),
            CheckRefused::Final => write!(f, "the final checkpoint was added before"),
            CheckRefused::NoMemory => write!(f, "memory ran out"),
        }
    }
}

impl Error for CheckRefused {}

impl<T: Drop> From<AllocFailed<T>> for CheckRefused {
    ghost use Rattle.checkpoints.specs.declared.checkpoint.CheckRefused.TheVariants.{NoMemory};
    ghost use Rattle.std.specs.Prelude.{◌≡◌};

    ghost from_gives = { λ _ refusal. refusal ≡ NoMemory };

    fn from(_refused: AllocFailed<T>) -> Self {
        CheckRefused::NoMemory
    }
}
