//! Laws of plans, of what is due and of moments. Each function's contract is the law, and its body
//! does nothing.
ghost use Rattle.plan_model.specs.Laws.{AcceptedIsPossible, AcceptedMachinesDiffer, NothingIsDueTwice, DaysAreThose, MomentsDiffer};

/// No reason to refuse a plan stands exactly where its name is new, it lists a machine or more,
/// none of them twice, and each is known, in no plan and tracked. Where different names have
/// different numbers, so have the machines of the plan.
pub fn accepted_plans()
    ensures possible { AcceptedIsPossible }
    ensures machines { AcceptedMachinesDiffer }
{}

/// With an interval of a minute or more, what was copied at a moment isn't due again at it.
pub fn nothing_is_due_twice()
    ensures { NothingIsDueTwice }
{}

/// Days are counted as jiff counts them from 1970 on, and no two texts are of one moment.
pub fn moments_are_written_one_way()
    ensures days { DaysAreThose }
    ensures once { MomentsDiffer }
{}
