//! Laws of the table of successors. Each function's contract is the law, and its body does nothing.
ghost use Rattle.phase_table.specs.Laws.{SuccessorsAreThose, EndsHaveNoSuccessor, FitsMeans, NoneWhereNoRowFits, NumbersDiffer, TestsHoldOfSteps, FrontsArePaths, PathsGrow, FinalSnapshotIsPassed, OnlyTheFinalSnapshotLeadsOn, NoBackEdgeAfter, PhasesRiseAfter};

/// A phase comes after another by a fact exactly where it is listed, with that fact, among that
/// phase's successors. The ends of a migration are the phases that have none.
pub fn successors_are_those()
    ensures each { SuccessorsAreThose }
    ensures ends { EndsHaveNoSuccessor }
{}

/// A row counts where it is of the phase and the fact that were asked for, a table gives none
/// exactly where no row counts, and the numbers of phases tell them apart.
pub fn rows_are_told_apart()
    ensures fits { FitsMeans }
    ensures none { NoneWhereNoRowFits }
    ensures numbers { NumbersDiffer }
{}

/// A test that passes for each row of a table, whatever rows it has, passes for each step through
/// it. So a rule of the table of migrations is proved once, by a test of its rows that computes.
pub fn steps_are_rows()
    ensures { TestsHoldOfSteps }
{}

/// A front of a path is a path, and a path goes on with whatever follows its last phase.
pub fn paths_grow()
    ensures fronts { FrontsArePaths }
    ensures grow { PathsGrow }
{}

/// Every path from the start to completion, and to each phase on the way from the final snapshot
/// there, goes from taking the final snapshot to adding its checkpoint, and takes no back edge from
/// there on. No other step leads into these phases.
pub fn final_snapshot_is_passed()
    ensures passed { FinalSnapshotIsPassed }
    ensures only { OnlyTheFinalSnapshotLeadsOn }
{}

/// After the final snapshot was taken, on whatever path, there is no back edge, and no phase has a
/// number that isn't above the one before it.
pub fn no_way_back()
    ensures no_back_edge { NoBackEdgeAfter }
    ensures rising { PhasesRiseAfter }
{}
