//! Why a line is no command: the refusals in the order in which they are tested.
ghost use Rattle.std.specs.Prelude.{◌≡◌};
ghost use Rattle.cmd_json.specs.Refusal.{refusal_number};

use crate::Text;
use basics::NoMemory;
use std::error::Error;
use std::fmt;

/// Why a line is no command.
#[derive(Debug, Drop)]
pub enum CmdRefused {
    /// The line isn't JSON in UTF-8, or nests deeper than 127.
    Json,
    /// It isn't an object whose member `cmd` is the name of a command that is built.
    Command,
    /// The member of this name is missing, of the wrong kind or no name, has such a fault within
    /// its list, or isn't one that the command has.
    Field(Text),
    /// The member of this name has a number or a moment that it may not have, in its list too.
    Number(Text),
    /// Memory ran out.
    NoMemory,
}

impl CmdRefused {
    /// The number of the refusal, 1 to 4. Want of memory has none.
    pub fn number(&self) -> Option<u8>
        ensures { result ≡ refusal_number self.now }
    {
        match self {
            CmdRefused::Json => Some(1),
            CmdRefused::Command => Some(2),
            CmdRefused::Field(_) => Some(3),
            CmdRefused::Number(_) => Some(4),
            CmdRefused::NoMemory => None,
        }
    }
}

impl fmt::Display for CmdRefused {
    ghost use Rattle.std.specs.Prelude.{Some};
    ghost use Rattle.cmd_json.specs.Refusal.{refusal_text};

    ghost output = { λ refusal. Some (refusal_text refusal) };

    fn fmt<W: fmt::Write>(&self, f: &mut fmt::Formatter<W>) -> fmt::Result {
        match self {
            CmdRefused::Json => write!(f, "the line isn't JSON"),
            CmdRefused::Command => write!(f, "there is no such command"),
            CmdRefused::Field(name) => write!(f, "missing, wrong or unknown: {}", name.as_str()),
            CmdRefused::Number(name) => write!(f, "not in its range: {}", name.as_str()),
            CmdRefused::NoMemory => write!(f, "memory ran out"),
        }
    }
}

impl Error for CmdRefused {}

impl From<NoMemory> for CmdRefused {
    ghost use Rattle.cmd_json.specs.declared.refusal.CmdRefused.TheVariants.{NoMemory};
    ghost use Rattle.std.specs.Prelude.{◌≡◌};

    ghost from_gives = { λ _ refusal. refusal ≡ NoMemory };

    fn from(_refused: NoMemory) -> Self {
        CmdRefused::NoMemory
    }
}
