//! What a chain holds that stands for a history. Each contract is the law, and the body
//! does nothing.
ghost use Rattle.snapshot_chain.specs.Laws.{ReadsTheFold, RoomIsNoPart};

/// Reads give what the history leaves, now and at each live snapshot, and no other snapshot is
/// live.
pub fn reads_the_fold()
    ensures { ReadsTheFold }
{}

/// A reserve and a refused call leave what the chain stands for.
pub fn room_is_no_part()
    ensures { RoomIsNoPart }
{}
