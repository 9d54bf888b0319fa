//! What the definitions say together. Each contract is the law, and the body does nothing.
ghost use Rattle.change_tracker.specs.Laws.{RoomIsNoPart, AnswerPagesJoin};

/// A reserve leaves what the tracker stands for.
pub fn room_is_no_part()
    ensures { RoomIsNoPart }
{}

/// The pages of an answer tell all of it, in order and once.
pub fn answer_pages_join()
    ensures { AnswerPagesJoin }
{}
