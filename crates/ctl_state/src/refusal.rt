//! Why a record is refused, with the number and the text of each reason.
ghost use Rattle.std.specs.Prelude.{◌≡◌};
ghost use Rattle.ctl_state.specs.Refusal.{refusal_number};

use basics::NoMemory;
use std::alloc::AllocFailed;
use std::error::Error;
use std::fmt;

/// Why a record is refused. A refused record changes nothing.
#[derive(Clone, Copy, Debug, PartialEq, Eq)]
pub enum StateRefused {
    /// The record may not stand after those before it.
    Strange,
    /// Memory ran out.
    NoMemory,
}

impl StateRefused {
    /// The number of the refusal, 1. Want of memory has none.
    pub fn number(&self) -> Option<u8>
        ensures { result ≡ refusal_number self.now }
    {
        match self {
            StateRefused::Strange => Some(1),
            StateRefused::NoMemory => None,
        }
    }
}

impl fmt::Display for StateRefused {
    ghost use Rattle.std.specs.Prelude.{Some};
    ghost use Rattle.ctl_state.specs.Refusal.{refusal_text};

    ghost output = { λ refusal. Some (refusal_text refusal) };

    fn fmt<W: fmt::Write>(&self, f: &mut fmt::Formatter<W>) -> fmt::Result {
        match self {
            StateRefused::Strange => write!(f, "the record may not stand after those before it"),
            StateRefused::NoMemory => write!(f, "memory ran out"),
        }
    }
}

impl Error for StateRefused {}

impl From<NoMemory> for StateRefused {
    ghost use Rattle.ctl_state.specs.declared.refusal.StateRefused.TheVariants.{NoMemory};
    ghost use Rattle.std.specs.Prelude.{◌≡◌};

    ghost from_gives = { λ _ refusal. refusal ≡ NoMemory };

    fn from(_refused: NoMemory) -> Self {
        StateRefused::NoMemory
    }
}

impl<T: Drop> From<AllocFailed<T>> for StateRefused {
    ghost use Rattle.ctl_state.specs.declared.refusal.StateRefused.TheVariants.{NoMemory};
    ghost use Rattle.std.specs.Prelude.{◌≡◌};

    ghost from_gives = { λ _ refusal. refusal ≡ NoMemory };

    fn from(_refused: AllocFailed<T>) -> Self {
        StateRefused::NoMemory
    }
}
