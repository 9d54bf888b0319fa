//! Laws of the definitions. Each function's contract is the law, and its body does nothing.
ghost use Rattle.restart.specs.Laws.{StrangeAtOne, StrangeAmongThem, TakenAreNotStrange, AgreeingAreNotStrange, AgreeingAreTaken, TakenAgree};

/// Records are strange to a fleet at one number at most, which is that of one of them, and at none
/// where they are taken.
pub fn strange_at_one_record()
    ensures one { StrangeAtOne }
    ensures among { StrangeAmongThem }
    ensures none { TakenAreNotStrange }
{}

/// Records are taken over a fleet that agrees with them, and strange to it nowhere; and one over
/// which they are taken agrees with them, but for what volumes hold.
pub fn agreeing_records_are_taken()
    ensures none { AgreeingAreNotStrange }
    ensures taken { AgreeingAreTaken }
    ensures agree { TakenAgree }
{}
