//! Why a record isn't kept, with the text of each reason.
use basics::NoMemory;
use std::error::Error;
use std::fmt;

/// Why a record isn't kept. Those before it are.
#[derive(Clone, Copy, Debug, PartialEq, Eq)]
pub enum NotKept {
    /// The journal's disk failed. The record may be on it or not, and no later one is kept before
    /// the journal is opened again.
    Fault,
    /// The journal has no room for it.
    Full,
    /// Memory ran out. The record may be kept or not.
    NoMemory,
}

impl fmt::Display for NotKept {
    ghost use Rattle.std.specs.Prelude.{Some};
    ghost use Rattle.record_keeping.specs.Refusal.{refusal_text};

    ghost output = { λ why. Some (refusal_text why) };

    fn fmt<W: fmt::Write>(&self, f: &mut fmt::Formatter<W>) -> fmt::Result {
        match self {
            NotKept::Fault => write!(f, "the journal's disk failed"),
            NotKept::Full => write!(f, "the journal has no room for the record"),
            NotKept::NoMemory => write!(f, "memory ran out"),
        }
    }
}

impl Error for NotKept {}

impl From<NoMemory> for NotKept {
    ghost use Rattle.std.specs.Prelude.{◌≡◌};
    ghost use Rattle.record_keeping.specs.declared.refusal.NotKept.TheVariants.{NoMemory};

    ghost from_gives = { λ _ why. why ≡ NoMemory };

    fn from(_refused: NoMemory) -> NotKept {
        NotKept::NoMemory
    }
}
