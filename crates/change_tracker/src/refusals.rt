//! Why a tracker refuses a call. Where more than one of these stands, a query tells the first.
use change_id::ChangeId;
use sector_model::NoMemory;
use std::error::Error;
use std::fmt;

/// Why a call is refused. A refused call changes nothing.
#[derive(Clone, Copy, Debug, PartialEq, Eq)]
pub enum TrackRefused {
    /// No snapshot was frozen under the id.
    UnknownSnap,
    /// The run is empty or passes the capacity, or the page starts at or past it.
    Range,
    /// The identifier is none of the present epoch up to the snapshot. It tells the one in force.
    Strange(Option<ChangeId>),
    /// Memory ran out.
    NoMemory,
}

impl From<NoMemory> for TrackRefused {
    ghost use Rattle.std.specs.Prelude.{◌≡◌};
    ghost use Rattle.change_tracker.specs.declared.refusals.TrackRefused.TheVariants.{NoMemory};

    ghost from_gives = { λ _ e. e ≡ NoMemory };

    fn from(_refused: NoMemory) -> Self {
        TrackRefused::NoMemory
    }
}

impl fmt::Display for TrackRefused {
    fn fmt<W: fmt::Write>(&self, f: &mut fmt::Formatter<W>) -> fmt::Result {
        match self {
            TrackRefused::UnknownSnap => write!(f, "no snapshot was frozen under that id"),
            TrackRefused::Range => write!(
                f,
                "the range is empty or passes the disk's end, or starts at it"
            ),
            TrackRefused::Strange(_) => write!(
                f,
                "the identifier is none of this epoch up to the snapshot"
            ),
            TrackRefused::NoMemory => write!(f, "out of memory"),
        }
    }
}

impl Error for TrackRefused {}
