//! The phases that a migration goes through, one by one. What comes after each stands in the table
//! of edges; here is what they are called and which of them end a migration.
ghost use Rattle.std.specs.Prelude.{◌≡◌};
ghost use Rattle.phase_table.specs.Phases.{phase_number, phase_name, is_end};

use std::fmt;

/// What a migration is at. The last three are its ends.
#[derive(Clone, Copy, Debug, PartialEq, Eq)]
pub enum Phase {
    /// The migration was made. Nothing is copied yet.
    Started,
    /// The first snapshot is taken.
    CreateInitialSnapshot,
    /// The change identifiers of the disks at the first snapshot are kept.
    StoreInitialIds,
    /// A target volume is made for each disk.
    CreateVolumes,
    /// The first checkpoint is added.
    AddFirstCheckpoint,
    /// What a checkpoint brings is copied, each disk for itself.
    CopyDisks,
    /// A checkpoint is copied. The migration waits until something is due.
    CopyingPaused,
    /// The snapshot of the last checkpoint is removed.
    RemovePreviousSnapshot,
    /// The next snapshot is taken.
    CreateSnapshot,
    /// The change identifiers of the disks at that snapshot are kept.
    StoreIds,
    /// Its checkpoint is added.
    AddCheckpoint,
    /// Before the cutover: whether the machine is on is kept.
    StorePowerState,
    /// The machine is powered off.
    PowerOffSource,
    /// Whether it is off is looked at.
    WaitForPowerOff,
    /// The snapshot of the last checkpoint is removed.
    RemovePenultimateSnapshot,
    /// The final snapshot is taken, of a machine that is off.
    CreateFinalSnapshot,
    /// The final checkpoint is added.
    AddFinalCheckpoint,
    /// What the final checkpoint brings is copied.
    CopyFinal,
    /// The final snapshot is removed.
    RemoveFinalSnapshot,
    /// The volumes hold what the machine had when it was powered off.
    Completed,
    /// The migration was cancelled.
    Cancelled,
    /// The migration failed.
    Failed,
}

impl Phase {
    /// The number of the phase, 1 to 22.
    pub fn number(self) -> u8
        ensures { result ≡ phase_number self }
    {
        1 + self as u8
    }

    /// Whether a migration in this phase has ended: completed, cancelled or failed.
    pub fn is_end(self) -> bool
        ensures { result ≡ is_end self }
    {
        matches!(self, Phase::Completed | Phase::Cancelled | Phase::Failed)
    }

    /// The name of the phase, as replies show it.
    pub fn name(self) -> &'static str
        ensures { result.now ≡ phase_name self }
    {
        macro_rules! names {
            ($($phase:ident)*) => {
                match self {
                    $(Phase::$phase => stringify!($phase),)*
                }
            };
        }
        names! {
            Started CreateInitialSnapshot StoreInitialIds CreateVolumes AddFirstCheckpoint
            CopyDisks CopyingPaused
            RemovePreviousSnapshot CreateSnapshot StoreIds AddCheckpoint
            StorePowerState PowerOffSource WaitForPowerOff RemovePenultimateSnapshot
            CreateFinalSnapshot AddFinalCheckpoint CopyFinal RemoveFinalSnapshot
            Completed Cancelled Failed
        }
    }
}

impl fmt::Display for Phase {
    ghost use Rattle.std.specs.Prelude.{Some};
    ghost use Rattle.phase_table.specs.Phases.{phase_name};

    ghost output = { λ phase. Some (phase_name phase) };

    fn fmt<W: fmt::Write>(&self, f: &mut fmt::Formatter<W>) -> fmt::Result {
        write!(f, "{}", self.name())
    }
}
