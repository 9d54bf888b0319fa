//! The reading of records. Everything that can be wrong with a body is looked at before memory is
//! taken, so want of memory is answered of spellings alone.
ghost use Rattle.std.specs.Prelude.{◌≡◌, ◌↔◌, ◌∷◌, Err};
ghost use Rattle.record_codec.specs.declared.record.Record.{Record};
ghost use Rattle.record_codec.specs.Record.{kind_byte, Spells};
ghost use Rattle.record_codec.specs.Decoded.{IsDecoded, refusal_number};

use crate::fixed::fixed;
use crate::variable::{ids_stored, plan_made};
use crate::{Kind, Record};
use std::alloc::{AllocError, Global};
use std::error::Error;
use std::fmt;

/// Why a body isn't read.
#[derive(Clone, Copy, Debug, PartialEq, Eq)]
pub enum CodecRefused {
    /// The body is the spelling of no record.
    Bad,
    /// Memory ran out.
    NoMemory,
}

impl CodecRefused {
    /// The number of the refusal, 1. Want of memory has none.
    pub fn number(&self) -> Option<u8>
        ensures { result ≡ refusal_number self.now }
    {
        match self {
            CodecRefused::Bad => Some(1),
            CodecRefused::NoMemory => None,
        }
    }
}

impl fmt::Display for CodecRefused {
    fn fmt<W: fmt::Write>(&self, f: &mut fmt::Formatter<W>) -> fmt::Result {
        match self {
            CodecRefused::Bad => write!(f, "the bytes are the spelling of no record"),
            CodecRefused::NoMemory => write!(f, "memory ran out"),
        }
    }
}

impl Error for CodecRefused {}

impl From<AllocError> for CodecRefused {
    ghost use Rattle.std.specs.Prelude.{◌≡◌};
    ghost use Rattle.record_codec.specs.declared.parse.CodecRefused.TheVariants.{NoMemory};

    ghost from_gives = { λ _ refusal. refusal ≡ NoMemory };

    fn from(_refused: AllocError) -> Self {
        CodecRefused::NoMemory
    }
}

impl From<basics::NoMemory> for CodecRefused {
    ghost use Rattle.std.specs.Prelude.{◌≡◌};
    ghost use Rattle.record_codec.specs.declared.parse.CodecRefused.TheVariants.{NoMemory};

    ghost from_gives = { λ _ refusal. refusal ≡ NoMemory };

    fn from(_refused: basics::NoMemory) -> Self {
        CodecRefused::NoMemory
    }
}

/// The record whose spelling the body is. [`CodecRefused::Bad`] exactly where it is the spelling of
/// no record: another kind, a field that is cut or out of its range, bytes left over, a rule that
/// is broken. [`CodecRefused::NoMemory`] only for a spelling.
pub fn decode(alloc: Global, body: &[u8]) -> Result<Record, CodecRefused>
    ensures decoded { IsDecoded body.now result }
    ensures bad { (result ≡ Err CodecRefused.Bad) ↔ ((r : Record) → ¬ (Spells body.now r)) }
{
    let Some((byte, fields)) = body.split_first() else {
        return Err(CodecRefused::Bad);
    };
    let Some(kind) = Kind::of(*byte) else {
        return Err(CodecRefused::Bad);
    };
    read_fields(alloc, kind, fields)
}

/// The record of this kind whose fields these bytes are.
fn read_fields(alloc: Global, kind: Kind, bytes: &[u8]) -> Result<Record, CodecRefused>
    ensures { IsDecoded (kind_byte kind ∷ bytes.now) result }
{
    match kind {
        Kind::PlanMade => plan_made(alloc, bytes),
        Kind::IdsStored => ids_stored(alloc, bytes),
        _ => fixed(kind, bytes).ok_or(CodecRefused::Bad),
    }
}
