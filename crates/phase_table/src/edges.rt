//! What comes after each phase of a migration: the table of edges as two functions, made from one
//! line a phase.
ghost use Rattle.std.specs.Prelude.{◌≡◌};
ghost use Rattle.phase_table.specs.Edges.{all_rows, back_edge_of};
ghost use Rattle.phase_table.specs.Table.{successor_in};

use crate::{Fact, Phase};

/// The phase that a migration in `phase` is in after it has seen `fact`. None where `phase` is an
/// end, and where `fact` isn't one that leads out of it.
pub fn next(phase: Phase, fact: Fact) -> Option<Phase>
    ensures { result ≡ successor_in all_rows phase fact }
{
    macro_rules! successors {
        ($($phase:ident: $($fact:ident => $successor:ident),+;)*) => {
            match phase {
                $(Phase::$phase => match fact {
                    $(Fact::$fact => Some(Phase::$successor),)+
                    Fact::Cancelled => Some(Phase::Cancelled),
                    Fact::Failed => Some(Phase::Failed),
                    _ => None,
                },)*
                Phase::Completed | Phase::Cancelled | Phase::Failed => None,
            }
        };
    }
    successors! {
        Started: Done => CreateInitialSnapshot;
        CreateInitialSnapshot: Done => StoreInitialIds;
        StoreInitialIds: Done => CreateVolumes;
        CreateVolumes: Done => AddFirstCheckpoint;
        AddFirstCheckpoint: Done => CopyDisks;
        CopyDisks: Done => CopyingPaused;
        CopyingPaused: Precopy => RemovePreviousSnapshot, Cutover => StorePowerState;
        RemovePreviousSnapshot: Done => CreateSnapshot;
        CreateSnapshot: Done => StoreIds;
        StoreIds: Done => AddCheckpoint;
        AddCheckpoint: Done => CopyDisks;
        StorePowerState: Done => PowerOffSource;
        PowerOffSource: Done => WaitForPowerOff;
        WaitForPowerOff: Done => RemovePenultimateSnapshot, Running => PowerOffSource;
        RemovePenultimateSnapshot: Done => CreateFinalSnapshot;
        CreateFinalSnapshot: Done => AddFinalCheckpoint, Running => PowerOffSource;
        AddFinalCheckpoint: Done => CopyFinal;
        CopyFinal: Done => RemoveFinalSnapshot;
        RemoveFinalSnapshot: Done => Completed;
    }
}

/// The phase that a migration goes back to where its machine, which should be off, is on. None
/// where the phase has no such edge.
pub fn back_edge(phase: Phase) -> Option<Phase>
    ensures { result ≡ back_edge_of phase }
{
    macro_rules! back_edges {
        ($($phase:ident => $earlier:ident;)*) => {
            match phase {
                $(Phase::$phase => Some(Phase::$earlier),)*
                _ => None,
            }
        };
    }
    back_edges! {
        WaitForPowerOff => PowerOffSource;
        CreateFinalSnapshot => PowerOffSource;
    }
}
