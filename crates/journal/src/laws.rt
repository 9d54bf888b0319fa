//! Laws of files, and of journals across openings and crashes. Each function's contract is the law,
//! and its body does nothing.
ghost use Rattle.journal.specs.Laws.{StandsForAtMostOne, OpensOneOf, ReadsOneOf, ReadsKeep, RefusesKeep, CrashesKeep, NeverStrange};

/// No file stands for two things: its records, or why it has none, are its own.
pub fn a_file_stands_for_one_thing()
    ensures { StandsForAtMostOne }
{}

/// Where each image has one of some lists of records, an opening gives one of them.
pub fn an_opening_gives_one_of_them()
    ensures { OpensOneOf }
{}

/// And so does a reading.
pub fn a_reading_gives_one_of_them()
    ensures { ReadsOneOf }
{}

/// A file that was only read has them still.
pub fn a_reading_keeps_them()
    ensures { ReadsKeep }
{}

/// A refused opening leaves them so.
pub fn a_refused_opening_keeps_them()
    ensures { RefusesKeep }
{}

/// And so does a crash.
pub fn a_crash_keeps_them()
    ensures { CrashesKeep }
{}

/// Such a disk is never refused for what its file holds.
pub fn their_file_is_a_journal()
    ensures { NeverStrange }
{}
