//! Laws of the definitions. Each function's contract is the law, and its body does nothing.
ghost use Rattle.warm_core.specs.Laws.{StagesAreAnswered, StageNumbersStay, StagesWithVolumesStay, NumbersBegin, StagesBegin, WrittenAtEnd, GroundsStay, EntriesStay, LaterSnapshotsStay, FinishedSnapshotsGo, FinishedIsWhole, WholeAtOffPlace, FillingsStay, PiecesMayBeNext, StagesEnd, StartsAreSound, EventsKeepSound, EntriesKeepSound, LawOfTheCore};

/// What is known of a stage and of its volume stays so under each of its steps and under entries of
/// the machine's log. A finished stage leaves a base, and has written what it had to; a piece that
/// broke leaves what a later stage begins with.
pub fn stages_stay()
    ensures begun { StagesBegin }
    ensures numbers_begun { NumbersBegin }
    ensures numbers { StageNumbersStay }
    ensures volumes { StagesWithVolumesStay }
    ensures ended { WrittenAtEnd }
    ensures ground { GroundsStay }
{}

/// What is known of a volume between stages stays so under entries of the machine's log, under a
/// later snapshot that becomes the current one, and where a finished snapshot goes.
pub fn staged_stays()
    ensures entries { EntriesStay }
    ensures later { LaterSnapshotsStay }
    ensures gone { FinishedSnapshotsGo }
{}

/// Where the current snapshot is finished, the volume is just what the log up to its mark leaves,
/// which is also what the log up to its power-off leaves, and nothing of it is loose.
pub fn finished_is_whole()
    ensures whole { FinishedIsWhole }
    ensures off { WholeAtOffPlace }
{}

/// A query answers a stage the areas of the blocks that it asks for, in pages that lie within the
/// disk; or it is refused, exactly where the disk was reset since the base of a partial one.
pub fn stages_are_answered()
    ensures { StagesAreAnswered }
{}

/// Whatever the loose sectors of a volume hold, what is known of it between stages stays so.
pub fn fillings_stay()
    ensures { FillingsStay }
{}

/// What a stage does next may be done, at a page of the areas that it asks for.
pub fn pieces_may_be_next()
    ensures { PiecesMayBeNext }
{}

/// Each step of a stage leaves it less to go, a refused page too.
pub fn stages_end()
    ensures { StagesEnd }
{}

/// A world in which nothing was done is sound, and all that may happen to a sound world leaves it
/// sound.
pub fn worlds_stay_sound()
    ensures start { StartsAreSound }
    ensures events { EventsKeepSound }
    ensures entries { EntriesKeepSound }
{}

/// Whatever happens in a row to a sound world, it stays sound, and one that was complete stays so,
/// with just what the log up to that place leaves.
pub fn whatever_happens()
    ensures { LawOfTheCore }
{}
