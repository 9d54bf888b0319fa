//! Why a journal isn't opened or takes no record. Each refusal tells the place in the file that is
//! to blame, where there is one.
ghost use Rattle.std.specs.Prelude.{◌≡◌};
ghost use Rattle.journal.specs.Refusal.{refusal_number};

use record_codec::NoMemory;
use std::alloc::{AllocError, AllocFailed};
use std::error::Error;
use std::fmt;

/// Why a journal can't be opened, or a record isn't taken.
#[derive(Clone, Copy, Debug, PartialEq, Eq)]
pub enum JournalRefused {
    /// The disk failed. For a read, a write or a cut `at` is the offset where it was to be done.
    /// For a sync, or where the length could not be had, it is how long the file was by then, as
    /// far as that was known, or else 0.
    DiskFault { at: u64 },
    /// The file has more than [`crate::EMPTY_BYTES`] bytes and doesn't begin as a journal, or has
    /// more than [`crate::MAX_BYTES`].
    NotAJournal,
    /// The record with this number, from 1, has an open gate and runs past the file's end, or its
    /// bytes are no record.
    BadRecord(u64),
    /// The file of this length would be longer than [`crate::MAX_BYTES`] with the record.
    Full { length: u64 },
    /// Memory ran out.
    NoMemory,
}

impl JournalRefused {
    /// The number of the refusal, 1 to 4. Want of memory has none.
    pub fn number(&self) -> Option<u8>
        ensures { result ≡ refusal_number self.now }
    {
        match self {
            JournalRefused::DiskFault { .. } => Some(1),
            JournalRefused::NotAJournal => Some(2),
            JournalRefused::BadRecord(_) => Some(3),
            JournalRefused::Full { .. } => Some(4),
            JournalRefused::NoMemory => None,
        }
    }
}

impl fmt::Display for JournalRefused {
    fn fmt<W: fmt::Write>(&self, f: &mut fmt::Formatter<W>) -> fmt::Result {
        match self {
            JournalRefused::DiskFault { at } => {
                write!(f, "the disk of the journal failed at offset {at}")
            }
            JournalRefused::NotAJournal => write!(f, "the file is no journal"),
            JournalRefused::BadRecord(number) => {
                write!(f, "record {number} of the journal is cut or no record")
            }
            JournalRefused::Full { length } => {
                write!(
                    f,
                    "the journal of {length} bytes has no room for the record"
                )
            }
            JournalRefused::NoMemory => write!(f, "memory ran out"),
        }
    }
}

impl Error for JournalRefused {}

impl From<AllocError> for JournalRefused {
    ghost use Rattle.std.specs.Prelude.{◌≡◌};
    ghost use Rattle.journal.specs.declared.refusal.JournalRefused.TheVariants.{NoMemory};

    ghost from_gives = { λ _ refusal. refusal ≡ NoMemory };

    fn from(_refused: AllocError) -> Self {
        JournalRefused::NoMemory
    }
}

impl<T: Drop> From<AllocFailed<T>> for JournalRefused {
    ghost use Rattle.std.specs.Prelude.{◌≡◌};
    ghost use Rattle.journal.specs.declared.refusal.JournalRefused.TheVariants.{NoMemory};

    ghost from_gives = { λ _ refusal. refusal ≡ NoMemory };

    fn from(_refused: AllocFailed<T>) -> Self {
        JournalRefused::NoMemory
    }
}

impl From<NoMemory> for JournalRefused {
    ghost use Rattle.std.specs.Prelude.{◌≡◌};
    ghost use Rattle.journal.specs.declared.refusal.JournalRefused.TheVariants.{NoMemory as Wanted};

    ghost from_gives = { λ _ refusal. refusal ≡ Wanted };

    fn from(_refused: NoMemory) -> Self {
        JournalRefused::NoMemory
    }
}
