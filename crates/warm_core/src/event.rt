//! What may happen to the world of one disk, a stop of the copying process too, and why a step is
//! refused.
ghost use Rattle.std.specs.Prelude.{◌≡◌};
ghost use Rattle.warm_core.specs.DiskWorld.{refusal_number};

use log_model::Entry;
use sector_model::{NoMemory, Run, SectorList};
use std::error::Error;
use std::fmt;

/// What happens to the world of one disk.
#[derive(Debug, Drop)]
pub enum Event {
    /// An entry is added to the machine's log.
    Machine(Entry),
    /// A stage begins.
    Begin {
        /// The snapshot that it copies.
        snap: u32,
        /// Whether this is the last snapshot.
        last: bool,
    },
    /// The page from `covered` on is answered.
    PageAnswered,
    /// It is refused, since the identifier of the base isn't known any more.
    PageRefused,
    /// The sectors of a run are copied from the snapshot.
    Copied(Run),
    /// The sectors of a run are zeroed.
    Zeroed(Run),
    /// The volume is flushed.
    Flushed,
    /// The stage is finished, and its snapshot becomes the base.
    StageDone,
    /// The process stops. The loose sectors take these sectors, in order: any bytes.
    Stop(SectorList),
    /// It is started anew.
    Restart,
    /// The migration is cancelled.
    Cancel,
    /// It completes.
    Complete,
}

/// Why a step is refused.
#[derive(Clone, Copy, Debug, PartialEq, Eq)]
pub enum CoreRefused {
    /// The event may not happen to this world.
    NotNow,
    /// Memory ran out.
    NoMemory,
}

impl CoreRefused {
    /// The number of the refusal. Want of memory has none.
    pub fn number(&self) -> Option<u8>
        ensures { result ≡ refusal_number self.now }
    {
        match self {
            CoreRefused::NotNow => Some(1),
            CoreRefused::NoMemory => None,
        }
    }
}

impl fmt::Display for CoreRefused {
    ghost use Rattle.std.specs.Prelude.{Some};
    ghost use Rattle.warm_core.specs.DiskWorld.{refusal_text};

    ghost output = { λ refusal. Some (refusal_text refusal) };

    fn fmt<W: fmt::Write>(&self, f: &mut fmt::Formatter<W>) -> fmt::Result {
        match self {
            CoreRefused::NotNow => write!(f, "not now"),
            CoreRefused::NoMemory => write!(f, "no memory"),
        }
    }
}

impl Error for CoreRefused {}

impl From<NoMemory> for CoreRefused {
    ghost use Rattle.std.specs.Prelude.{◌≡◌};
    ghost use Rattle.warm_core.specs.declared.event.CoreRefused.TheVariants.{NoMemory};

    ghost from_gives = { λ _ e. e ≡ NoMemory };

    fn from(_refused: NoMemory) -> Self {
        CoreRefused::NoMemory
    }
}
