//! Laws of records and their bytes. Each function's contract is the law, and its body does nothing.
ghost use Rattle.record_codec.specs.Laws.{SpellingsDiffer, SpelledIsRead, SpellingsHaveTheirSize};

/// No two records share a spelling.
pub fn spellings_differ()
    ensures { SpellingsDiffer }
{}

/// A spelling is read as the record that it is of, and as nothing else.
pub fn spelled_is_read()
    ensures { SpelledIsRead }
{}

/// A spelling has the bytes that its fields take, and one for the kind.
pub fn spellings_have_their_size()
    ensures { SpellingsHaveTheirSize }
{}
