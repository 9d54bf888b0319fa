//! What a disk that stands for a log holds. Each contract is the law, and the body does nothing but
//! call the laws of the disk's parts on which it rests.
ghost use Rattle.source_disk.specs.Laws.{StandingHolds, NextIsFree, OthersPass, RoomIsNoPart, UntouchedIsZero};

/// A disk that stands for a log holds what the log says: its contents now and at each live
/// snapshot, which snapshots these are, what was touched before each, and its epoch.
pub fn standing_holds()
    ensures { StandingHolds }
{}

/// The number that the next snapshot of a legal log gets is free.
pub fn next_is_free()
    ensures { NextIsFree }
{}

/// An act that doesn't concern the disk, as a write to another one, leaves what it stands for.
pub fn others_pass()
    ensures { OthersPass }
{}

/// A reserve and a refused call leave what the disk stands for.
pub fn room_is_no_part()
    ensures { RoomIsNoPart }
{
    snapshot_chain::room_is_no_part();
    change_tracker::room_is_no_part();
}

/// A sector that no write before a snapshot came near is zero at it: one of none of the areas that
/// [`SourceDisk::allocated`](crate::SourceDisk::allocated) tells.
pub fn untouched_is_zero()
    ensures { UntouchedIsZero }
{}
