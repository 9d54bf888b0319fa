//! Laws of the definitions. Each function's contract is the law, and its body does nothing.
ghost use Rattle.std.specs.Prelude.{ℕ};
ghost use Rattle.sector_model.specs.Laws.{FoldsJoin, TouchedAreMet, RunsAreSpaced, RunsAreExact, RunsEndWithin, PagesJoin, AreaPagesJoin, PageThenRest, AreasFromAreExact, PagesAreExact, PagesLieWithin, VolumesKeepTheirSize, StopLeavesFlushed, StopLeavesOthers, EachIsAStop, FoundAreRead, DiffersInARow, LooseThen, FlushedIsNoneLoose, BrokenIsWritten, BrokenIsZeroed};
ghost use Rattle.sector_model.specs.VolumeContents.{VolumeContents, IsSized};

/// What a list of writes leaves is what its later part leaves of what its earlier part left.
pub fn folds_join()
    ensures { FoldsJoin }
{}

/// The blocks that writes touch are those that the writes' ranges meet.
pub fn touched_blocks_are_met()
    ensures { TouchedAreMet }
{}

/// The maximal runs of the sectors that pass a test are spaced, and have exactly these sectors.
pub fn runs_are_exact()
    ensures spaced { RunsAreSpaced }
    ensures members { RunsAreExact }
    ensures within { RunsEndWithin }
{}

/// The pages of a list of areas, each taken from the end of the one before, tell all of it; and
/// each has exactly the sectors of the areas that it speaks of.
pub fn pages_join()
    ensures all { PagesJoin }
    ensures areas { AreaPagesJoin }
    ensures rest { PageThenRest }
    ensures from_start { AreasFromAreExact }
    ensures sectors { PagesAreExact }
{}

/// A page that starts below the capacity ends above its start and within the capacity, and its
/// areas lie in it, none empty, ascending and apart.
pub fn pages_lie_within()
    ensures { PagesLieWithin }
{}

/// A write, a zeroing, a flush, a stop and a failed write keep the size of what a volume holds.
pub fn volumes_keep_their_size()
    ensures { (capacity : ℕ) (v : VolumeContents) → IsSized capacity v
        → VolumesKeepTheirSize capacity v }
{}

/// What a stop may leave is exactly what differs from a volume's contents in loose sectors alone.
pub fn volume_stops()
    ensures nothing { StopLeavesFlushed }
    ensures others { StopLeavesOthers }
    ensures each { EachIsAStop }
    ensures in_order { FoundAreRead }
    ensures in_a_row { (a b c : VolumeContents) → DiffersInARow a b c }
{}

/// Which sectors are loose after a write, a zeroing, a flush, a stop and a failed write, and that a
/// volume is flushed exactly where none is.
pub fn loose_sectors_after()
    ensures each { (capacity : ℕ) (v : VolumeContents) (s : ℕ) → IsSized capacity v
        → LooseThen capacity v s }
    ensures none { (capacity : ℕ) (v : VolumeContents) → IsSized capacity v
        → FlushedIsNoneLoose capacity v }
{}

/// A write or a zeroing that failed leaves what the whole one would, but for loose sectors.
pub fn broken_volumes()
    ensures written { BrokenIsWritten }
    ensures zeroed { BrokenIsZeroed }
{}
