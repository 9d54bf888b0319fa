//! Why a host or a machine isn't added. The calls say in which order they look for these.
ghost use Rattle.std.specs.Prelude.{◌≡◌};
ghost use Rattle.fleet.specs.Refusals.{refusal_number};
ghost use Rattle.fleet.specs.declared.refusals.FleetRefused.TheVariants.{NoMemory as Wanted};

use sector_model::NoMemory;
use std::error::Error;
use std::fmt;

/// Why a host or a machine isn't added. A refused call changes nothing.
#[derive(Clone, Copy, Debug, PartialEq, Eq)]
pub enum FleetRefused {
    /// A host, or a machine, of that name is there.
    NameTaken,
    /// No host has that name.
    UnknownHost,
    /// There are [`MAX_HOSTS`](crate::MAX_HOSTS) hosts, or [`MAX_VMS`](crate::MAX_VMS) machines.
    TooMany,
    /// There are no disks or more than [`MAX_DISKS`](basics::MAX_DISKS), or one has no sectors or
    /// more than [`MAX_DISK_SECTORS`](basics::MAX_DISK_SECTORS).
    BadSize,
    /// Memory ran out.
    NoMemory,
}

impl FleetRefused {
    /// The number of the refusal, 1 to 4. Want of memory has none.
    pub fn number(&self) -> Option<u8>
        ensures { result ≡ refusal_number self.now }
    {
        match self {
            FleetRefused::NameTaken => Some(1),
            FleetRefused::UnknownHost => Some(2),
            FleetRefused::TooMany => Some(3),
            FleetRefused::BadSize => Some(4),
            FleetRefused::NoMemory => None,
        }
    }
}

impl fmt::Display for FleetRefused {
    fn fmt<W: fmt::Write>(&self, f: &mut fmt::Formatter<W>) -> fmt::Result {
        match self {
            FleetRefused::NameTaken => write!(f, "the name is taken"),
            FleetRefused::UnknownHost => write!(f, "no such host"),
            FleetRefused::TooMany => write!(f, "the fleet is full"),
            FleetRefused::BadSize => write!(f, "no such number or size of disks"),
            FleetRefused::NoMemory => write!(f, "out of memory"),
        }
    }
}

impl Error for FleetRefused {}

impl From<NoMemory> for FleetRefused {
    ghost from_gives = { λ _ refusal. refusal ≡ Wanted };

    fn from(_refused: NoMemory) -> Self {
        FleetRefused::NoMemory
    }
}
