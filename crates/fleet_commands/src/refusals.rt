//! What a command is refused as where a fleet, a machine or a write refuses it.
ghost use Rattle.std.specs.Prelude.{◌≡◌};
ghost use Rattle.fleet_commands.specs.Refusals.{link_told, write_told, fleet_told};

use answers::Refusal;
use fleet::FleetRefused;
use log_model::{LinkRefused, WriteRefused};

/// What a machine's refusal is told as. None for want of memory, and where the machine has to
/// be off, which no command asks for.
pub fn link_told(why: LinkRefused) -> Option<Refusal>
    ensures { result ≡ link_told why }
{
    let told = match why {
        LinkRefused::UnknownSnap => Refusal::UnknownSnapshot,
        LinkRefused::Strange(id) => Refusal::Strange(id),
        LinkRefused::Range => Refusal::Range,
        LinkRefused::AlreadyOff => Refusal::AlreadyOff,
        LinkRefused::AlreadyOn => Refusal::AlreadyOn,
        LinkRefused::Spent => Refusal::Spent,
        LinkRefused::Owned => Refusal::Owned,
        LinkRefused::AlreadyEnabled => Refusal::AlreadyEnabled,
        LinkRefused::Running | LinkRefused::NoMemory => return None,
    };
    Some(told)
}

/// What the refusal of a write is told as. None for want of memory.
pub(crate) fn write_told(why: WriteRefused) -> Option<Refusal>
    ensures { result ≡ write_told why }
{
    match why {
        WriteRefused::Off => Some(Refusal::Off),
        WriteRefused::Range => Some(Refusal::Range),
        WriteRefused::LogFull => Some(Refusal::LogFull),
        WriteRefused::NoMemory => None,
    }
}

/// What a fleet's refusal is told as. None for want of memory.
pub(crate) fn fleet_told(why: FleetRefused) -> Option<Refusal>
    ensures { result ≡ fleet_told why }
{
    match why {
        FleetRefused::NameTaken => Some(Refusal::NameTaken),
        FleetRefused::UnknownHost => Some(Refusal::UnknownHost),
        FleetRefused::TooMany => Some(Refusal::TooMany),
        FleetRefused::BadSize => Some(Refusal::BadSize),
        FleetRefused::NoMemory => None,
    }
}
