//! Laws of the definitions. The function's contract is the law, and its body does nothing.
ghost use Rattle.record_keeping.specs.Keeping.{OneMayBeKept, FrontsMayBeKept};

/// A record that may stand and keeps its rule may be kept.
pub fn one_may_be_kept()
    ensures { OneMayBeKept }
{}

/// The first of records that may be kept may be kept without the others.
pub fn fronts_may_be_kept()
    ensures { FrontsMayBeKept }
{}
