//! Laws of the definitions. Each function's contract is the law, and its body does nothing.
ghost use Rattle.std.specs.Prelude.{ℕ};
ghost use Rattle.source_vm.specs.Machine.{MachineState};
ghost use Rattle.source_vm.specs.Laws.{AdditionsFollow};

/// What a machine adds under a caller's number is a call of that caller's link: the link goes on
/// from where it was. So it does where the machine adds nothing.
pub fn additions_follow()
    ensures { (who : ℕ) (old new : MachineState) → AdditionsFollow who old new }
{}
