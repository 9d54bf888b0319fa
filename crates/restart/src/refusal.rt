//! Why a controller isn't reopened, with the number and the text of each reason.
ghost use Rattle.std.specs.Prelude.{◌≡◌};
ghost use Rattle.restart.specs.Refusal.{refusal_number};

use basics::NoMemory;
use journal::JournalRefused;
use std::error::Error;
use std::fmt;

/// Why a controller isn't reopened. Nothing of the journal's records is lost.
#[derive(Clone, Copy, Debug, PartialEq, Eq)]
pub enum ReopenRefused {
    /// The journal can't be opened: its disk failed, the file is no journal, or a record of it is
    /// bad.
    Journal(JournalRefused),
    /// The record of this number, from 1 on, contradicts those before it or what the fleet says; or
    /// it is the last one, and the current snapshot of a live migration is gone.
    Strange(u64),
    /// Memory ran out.
    NoMemory,
}

impl ReopenRefused {
    /// The number of the refusal, 1 or 2. Want of memory has none.
    pub fn number(&self) -> Option<u8>
        ensures { result ≡ refusal_number self.now }
    {
        match self {
            ReopenRefused::Journal(_) => Some(1),
            ReopenRefused::Strange(_) => Some(2),
            ReopenRefused::NoMemory => None,
        }
    }
}

impl fmt::Display for ReopenRefused {
    fn fmt<W: fmt::Write>(&self, f: &mut fmt::Formatter<W>) -> fmt::Result {
        match self {
            ReopenRefused::Journal(why) => write!(f, "{why}"),
            ReopenRefused::Strange(number) => {
                write!(f, "record {number} of the journal is strange to the fleet")
            }
            ReopenRefused::NoMemory => write!(f, "memory ran out"),
        }
    }
}

impl Error for ReopenRefused {}

impl From<NoMemory> for ReopenRefused {
    ghost use Rattle.std.specs.Prelude.{◌≡◌};
    ghost use Rattle.restart.specs.declared.refusal.ReopenRefused.TheVariants.{NoMemory as Wanted};

    ghost from_gives = { λ _ refusal. refusal ≡ Wanted };

    fn from(_refused: NoMemory) -> Self {
        ReopenRefused::NoMemory
    }
}

impl From<JournalRefused> for ReopenRefused {
    ghost use Rattle.std.specs.Prelude.{◌≡◌};
    ghost use Rattle.restart.specs.Refusal.{told_of};

    ghost from_gives = { λ why refusal. refusal ≡ told_of why };

    fn from(why: JournalRefused) -> Self {
        match why {
            JournalRefused::NoMemory => ReopenRefused::NoMemory,
            JournalRefused::DiskFault { .. }
            | JournalRefused::NotAJournal
            | JournalRefused::BadRecord(_)
            | JournalRefused::Full { .. } => ReopenRefused::Journal(why),
        }
    }
}
