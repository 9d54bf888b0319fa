//! Laws of the fold of records. Each function's contract is the law, and its body does nothing.
ghost use Rattle.ctl_state.specs.Laws.{ListsJoin, GoesOn, StopsAtStrange, OtherMigrationsStay};

/// A list of records goes on from what a front of it came to.
pub fn lists_join()
    ensures { ListsJoin }
{}

/// Where a state is that of some records, it goes on with each record that may stand, and with
/// every other one the list is strange there.
pub fn states_go_on()
    ensures on { GoesOn }
    ensures stop { StopsAtStrange }
{}

/// A record that may stand changes its own migration alone.
pub fn records_change_their_own()
    ensures { OtherMigrationsStay }
{}
