//! Laws of the definitions. Each function's contract is the law, and its body does nothing.
ghost use Rattle.std.specs.Prelude.{◌≡◌, ℕ, List, true};
ghost use Rattle.change_id.specs.declared.ChangeId.{ChangeId};
ghost use Rattle.log_model.specs.declared.entry.Entry.{Entry};
ghost use Rattle.log_model.specs.Link.{LinkState};
ghost use Rattle.log_model.specs.Laws.{AcceptedMayStand, PrefixesAreLegal, LegalGrows, LegalGrew, LegalForEachDisk, NoWriteWhileOff, OffHasPlace, OffIsFrozen, NumbersHaveNoGap, NumbersDiffer, NumberedPlaceGives, LaterEntriesKeep, LaterEntriesKeepPlaces, SnapsHaveTheirMarks, EachWasTaken, MarksAscend, LiveWasTaken, SnapshotsHaveIds, NextHasId, ActiveIsEnabled, MigrationsKeepTheirs, MigrationsGetNone, OthersLeaveMigrations, AnswersStay, IdsAnswerBetween, NumberedPlaceIsMark, MarksOfIds, TouchedJoins, UntouchedStays, ContentsAreSized, AnswersAreAreas, AnswerPagesJoin, AllPagesAreTheAnswer, CallsFollow, ReadsArePart, CallsAlone};

/// A legal log stays legal under its prefixes, and under an entry more that may stand after it. One
/// that is legal for a machine is legal for each of its disks alone.
pub fn legal_logs()
    ensures prefixes { PrefixesAreLegal }
    ensures grows { LegalGrows }
    ensures grew { LegalGrew }
    ensures each_disk { LegalForEachDisk }
{}

/// What a call doesn't refuse may stand after the log.
pub fn accepted_may_stand()
    ensures { (capacities : List ℕ) (log : List Entry) (who : ℕ)
        → AcceptedMayStand capacities log who }
{}

/// A machine that is off has a power-off place. No write stands between that of a snapshot and the
/// snapshot, so what the log up to it leaves is what the snapshot froze.
pub fn off_is_frozen()
    ensures place { OffHasPlace }
    ensures no_write { NoWriteWhileOff }
    ensures same { OffIsFrozen }
{}

/// The sequence numbers of one epoch of a disk are 1, 2 and so on, without a gap.
pub fn numbers_have_no_gap()
    ensures each { NumbersHaveNoGap }
    ensures once { NumbersDiffer }
    ensures place { NumberedPlaceGives }
{}

/// Entries that come after a snapshot was taken leave what it froze and the identifiers that it
/// has, and what lies before a place of the log.
pub fn later_entries_keep()
    ensures snapshots { LaterEntriesKeep }
    ensures places { LaterEntriesKeepPlaces }
{}

/// The place of each Snap entry is its snapshot's mark; marks ascend with the numbers, of which
/// none is left out; and a live snapshot was taken.
pub fn snapshots_have_their_marks()
    ensures marks { SnapsHaveTheirMarks }
    ensures each { EachWasTaken }
    ensures ascend { MarksAscend }
    ensures live { LiveWasTaken }
{}

/// A snapshot has an identifier for each disk exactly where an Enable entry stands before it.
pub fn ids_exist()
    ensures taken { SnapshotsHaveIds }
    ensures next { NextHasId }
    ensures active { ActiveIsEnabled }
{}

/// A migration loses and gets live snapshots by entries under [`MIGRATION_CALLER`] alone.
///
/// [`MIGRATION_CALLER`]: crate::MIGRATION_CALLER
pub fn migrations_keep_theirs()
    ensures kept { MigrationsKeepTheirs }
    ensures none_new { MigrationsGetNone }
    ensures others { OthersLeaveMigrations }
{}

/// What a query has answered it answers again, or says that the identifier is strange, whatever
/// entries follow.
pub fn answers_stay()
    ensures { AnswersStay }
{}

/// The identifier of a snapshot answers what changed between its mark and that of a snapshot that
/// isn't earlier, and is strange exactly where the disk was reset after it.
pub fn ids_answer_between()
    ensures between { IdsAnswerBetween }
    ensures same_place { NumberedPlaceIsMark }
{}

/// An identifier leads to the mark of the one snapshot that has it, and later entries leave that.
pub fn marks_of_ids()
    ensures { (machine disk : ℕ) (id : ChangeId) (log : List Entry)
        → MarksOfIds machine disk id log }
{}

/// The blocks that are touched between two places are those touched up to a place between them and
/// those touched from there on. A sector of none of them is the same before and after. What a log
/// leaves of a disk has its capacity.
pub fn touched_blocks_join()
    ensures join { TouchedJoins }
    ensures untouched { UntouchedStays }
    ensures sized { ContentsAreSized }
{}

/// The areas of an answer are ascending and apart and lie within the capacity, and its pages tell
/// all of it.
pub fn answer_pages_join()
    ensures areas { AnswersAreAreas }
    ensures from_start { AnswerPagesJoin }
    ensures whole { AllPagesAreTheAnswer }
{}

/// Calls of a link in a row only go on: the same machine, a longer log, and what is new in it under
/// the caller's number is what its own entries gained. One that only reads is part of the next.
pub fn calls_follow()
    ensures in_a_row { (a b : LinkState) → CallsFollow a b }
    ensures reads { ReadsArePart }
{}

/// A call of a link to a machine that nobody else reaches meets the log as its caller has last seen
/// it. What it adds stands behind that log and behind the caller's own entries, and a call that
/// only reads leaves the link as it was.
pub fn calls_alone()
    ensures { (a b : LinkState) → a.unshared ≡ true → CallsAlone a b }
{}
