//! Laws of the states of a data volume. Each function's contract is the law, and its body does
//! nothing.
ghost use Rattle.checkpoints.specs.Laws.{NewIsSound, AddKeepsSound, DoneKeepsSound, LastIsAdded, LastIsFinished, OnlyTheLastIsFinished, AddLeavesTheCount, DoneAddsOne, NeighboursJoin, SnapshotsRise, AddedIsInProgress, FinishedIsPausedOrSucceeded, SucceededStays};

/// A data volume is sound from the beginning, and stays so: each checkpoint goes on from the one
/// before it, which is done, and there is one where the final one was added.
pub fn calls_keep_it_sound()
    ensures new { NewIsSound }
    ensures add { AddKeepsSound }
    ensures done { DoneKeepsSound }
{}

/// What was added is the last one, and finishing turns that one alone.
pub fn finishing_turns_the_last()
    ensures added { LastIsAdded }
    ensures last { LastIsFinished }
    ensures only { OnlyTheLastIsFinished }
{}

/// Adding leaves the number of finished checkpoints, and finishing the last raises it by one.
pub fn finishing_counts_one()
    ensures added { AddLeavesTheCount }
    ensures done { DoneAddsOne }
{}

/// A checkpoint goes on from the snapshot of the one before it, which is finished, and the
/// snapshots of checkpoints rise.
pub fn neighbours_join()
    ensures join { NeighboursJoin }
    ensures rise { SnapshotsRise }
{}

/// An import is in progress once a checkpoint was added, and has succeeded or waits once it is
/// done. One that has succeeded refuses every call.
pub fn calls_move_the_phase()
    ensures added { AddedIsInProgress }
    ensures done { FinishedIsPausedOrSucceeded }
    ensures end { SucceededStays }
{}
