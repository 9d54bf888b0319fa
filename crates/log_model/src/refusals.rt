//! Why calls of a machine are refused. A refused call adds no entry to the machine's log.
ghost use Rattle.std.specs.Prelude.{◌≡◌};
ghost use Rattle.log_model.specs.Refusals.{refusal_number, write_refusal_number};

use change_id::ChangeId;
use std::error::Error;
use std::fmt;

/// Why a call of a [`Link`](crate::Link) is refused. A refused call adds no entry.
#[derive(Clone, Copy, Debug, PartialEq, Eq)]
pub enum LinkRefused {
    /// The snapshot isn't live.
    UnknownSnap,
    /// The machine has to be off, and is on.
    Running,
    /// The identifier isn't one that the disk's tracking can answer from. It tells the one in
    /// force.
    Strange(Option<ChangeId>),
    /// The disk is unknown, or the sectors aren't all on it.
    Range,
    /// The machine is off already.
    AlreadyOff,
    /// The machine is on already.
    AlreadyOn,
    /// The log holds [`MAX_LOG_ENTRIES`](crate::MAX_LOG_ENTRIES) entries.
    Spent,
    /// The snapshot is another owner's, or a migration's and the caller isn't the one that may
    /// remove it.
    Owned,
    /// Tracking was enabled before.
    AlreadyEnabled,
    /// Memory ran out.
    NoMemory,
}

impl LinkRefused {
    /// The number of the refusal, 1 to 9. Want of memory has none.
    pub fn number(&self) -> Option<u8>
        ensures { result ≡ refusal_number self.now }
    {
        let number = match self {
            LinkRefused::UnknownSnap => 1,
            LinkRefused::Running => 2,
            LinkRefused::Strange(_) => 3,
            LinkRefused::Range => 4,
            LinkRefused::AlreadyOff => 5,
            LinkRefused::AlreadyOn => 6,
            LinkRefused::Spent => 7,
            LinkRefused::Owned => 8,
            LinkRefused::AlreadyEnabled => 9,
            LinkRefused::NoMemory => return None,
        };
        Some(number)
    }
}

impl fmt::Display for LinkRefused {
    fn fmt<W: fmt::Write>(&self, f: &mut fmt::Formatter<W>) -> fmt::Result {
        match self {
            LinkRefused::UnknownSnap => write!(f, "the snapshot isn't live"),
            LinkRefused::Running => write!(f, "the machine is on"),
            LinkRefused::Strange(_) => write!(f, "the identifier isn't one to ask this snapshot"),
            LinkRefused::Range => write!(f, "no such disk or sectors"),
            LinkRefused::AlreadyOff => write!(f, "the machine is off already"),
            LinkRefused::AlreadyOn => write!(f, "the machine is on already"),
            LinkRefused::Spent => write!(f, "the log is full"),
            LinkRefused::Owned => write!(f, "the snapshot isn't the caller's to remove"),
            LinkRefused::AlreadyEnabled => write!(f, "change tracking is enabled already"),
            LinkRefused::NoMemory => write!(f, "out of memory"),
        }
    }
}

impl Error for LinkRefused {}

/// Why a guest's write is refused. A refused write adds no entry.
#[derive(Clone, Copy, Debug, PartialEq, Eq)]
pub enum WriteRefused {
    /// The machine is off.
    Off,
    /// The disk is unknown, the sectors are none or more than one write may have
    /// ([`MAX_WRITE_SECTORS`](basics::MAX_WRITE_SECTORS)), or the range passes the capacity.
    Range,
    /// The sectors of all writes would pass
    /// [`MAX_LOGGED_SECTORS`](basics::MAX_LOGGED_SECTORS), or the log holds
    /// [`MAX_LOG_ENTRIES`](crate::MAX_LOG_ENTRIES) entries.
    LogFull,
    /// Memory ran out.
    NoMemory,
}

impl WriteRefused {
    /// The number of the refusal, 1 to 3. Want of memory has none.
    pub fn number(&self) -> Option<u8>
        ensures { result ≡ write_refusal_number self.now }
    {
        match self {
            WriteRefused::Off => Some(1),
            WriteRefused::Range => Some(2),
            WriteRefused::LogFull => Some(3),
            WriteRefused::NoMemory => None,
        }
    }
}

impl fmt::Display for WriteRefused {
    fn fmt<W: fmt::Write>(&self, f: &mut fmt::Formatter<W>) -> fmt::Result {
        match self {
            WriteRefused::Off => write!(f, "the machine is off"),
            WriteRefused::Range => write!(f, "no such disk or sectors"),
            WriteRefused::LogFull => write!(f, "the log is full"),
            WriteRefused::NoMemory => write!(f, "out of memory"),
        }
    }
}

impl Error for WriteRefused {}
