//! What the value of a member may be.
use basics::NoMemory;
use json::Value;
use std::alloc::{AllocFailed, Global};

/// Why a value isn't one of a kind.
#[derive(Clone, Copy, Debug, PartialEq, Eq)]
pub(crate) enum Misfit {
    /// It isn't such a value.
    Field,
    /// It is a number or the text of a moment, and not one of the kind.
    Number,
    /// Memory ran out.
    NoMemory,
}

impl From<NoMemory> for Misfit {
    ghost use Rattle.cmd_json.specs.declared.kind.Misfit.TheVariants.{NoMemory};
    ghost use Rattle.std.specs.Prelude.{◌≡◌};

    ghost from_gives = { λ _ misfit. misfit ≡ NoMemory };

    fn from(_refused: NoMemory) -> Self {
        Misfit::NoMemory
    }
}

impl<T: Drop> From<AllocFailed<T>> for Misfit {
    ghost use Rattle.cmd_json.specs.declared.kind.Misfit.TheVariants.{NoMemory};
    ghost use Rattle.std.specs.Prelude.{◌≡◌};

    ghost from_gives = { λ _ misfit. misfit ≡ NoMemory };

    fn from(_refused: AllocFailed<T>) -> Self {
        Misfit::NoMemory
    }
}

/// A kind of value that a member may have.
pub(crate) trait Kind: Drop {
    ghost use Rattle.std.specs.Prelude.{Result, IfOk};
    ghost use Rattle.serde_json.specs.Data.{Data};
    ghost use Rattle.cmd_json.specs.Members.{Gives};
    ghost use Rattle.cmd_json.specs.Tree.{value_data};
    ghost use Rattle.cmd_json.specs.declared.kind.Misfit.{Misfit};
    ghost use Rattle.cmd_json.specs.declared.kind.Misfit.TheVariants as misfit;

    /// What a value of the kind says.
    type Said: Drop;

    ghost says: { Self → Data → Result Self.Said Misfit };

    ghost known: { Self → Self.Said → Type 0 };

    /// What a value says, or why it isn't one of the kind.
    fn read(&self, alloc: Global, value: Value<'_>) -> Result<Self::Said, Misfit>
        ensures said { Gives misfit.NoMemory (says self.now (value_data value.entry)) result }
        ensures known { IfOk result (known self.now) };
}
