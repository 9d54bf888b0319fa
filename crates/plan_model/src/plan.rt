//! A plan, what is known of a machine that may be put into one, and why it is refused.
ghost use Rattle.std.specs.Prelude.{◌≡◌};
ghost use Rattle.plan_model.specs.Plans.{plan_refusal_number};

use basics::{Name, NoMemory, NumberList};
use std::alloc::AllocError;
use std::error::Error;
use std::fmt;

/// Machines that migrate together.
#[derive(Debug, PartialEq, Eq, Drop)]
pub struct Plan {
    /// The number of the plan, from 1.
    pub number: u32,
    /// The name, which no other plan has.
    pub name: Name,
    /// The minutes between copies, 1 to [`MAX_INTERVAL`](basics::MAX_INTERVAL).
    pub interval: u32,
    /// The numbers of its machines, in the order in which they were listed.
    pub vms: NumberList,
}

/// What is known of a machine.
#[derive(Debug, Drop)]
pub struct VmFact {
    /// The name of the machine.
    pub name: Name,
    /// Its number.
    pub number: u32,
    /// Whether a plan names it whose migration of it hasn't begun or hasn't ended.
    pub in_plan: bool,
    /// Whether its changes are tracked.
    pub tracking: bool,
}

/// Why a plan is refused. A refused plan leaves everything as it was.
#[derive(Debug, PartialEq, Eq, Drop)]
pub enum PlanRefused {
    /// It names no machine.
    Empty,
    /// There is no machine of this name.
    UnknownVm(Name),
    /// The machine is in a plan that hasn't ended for it.
    InPlan(Name),
    /// The changes of the machine aren't tracked.
    NoTracking(Name),
    /// Another plan has the name.
    NameTaken,
    /// The machine is named twice.
    Doubled(Name),
    /// Memory ran out.
    NoMemory,
}

impl PlanRefused {
    /// The number of the refusal, 1 to 6. Want of memory has none.
    pub fn number(&self) -> Option<u8>
        ensures { result ≡ plan_refusal_number self.now }
    {
        match self {
            PlanRefused::Empty => Some(1),
            PlanRefused::UnknownVm(_) => Some(2),
            PlanRefused::InPlan(_) => Some(3),
            PlanRefused::NoTracking(_) => Some(4),
            PlanRefused::NameTaken => Some(5),
            PlanRefused::Doubled(_) => Some(6),
            PlanRefused::NoMemory => None,
        }
    }
}

impl fmt::Display for PlanRefused {
    ghost use Rattle.std.specs.Prelude.{Some};
    ghost use Rattle.plan_model.specs.Plans.{plan_refusal_text};

    ghost output = { λ refusal. Some (plan_refusal_text refusal) };

    fn fmt<W: fmt::Write>(&self, f: &mut fmt::Formatter<W>) -> fmt::Result {
        match self {
            PlanRefused::Empty => write!(f, "a plan names a machine or more"),
            PlanRefused::UnknownVm(vm) => write!(f, "there is no machine {}", vm.as_str()),
            PlanRefused::InPlan(vm) => write!(f, "{} is in another plan", vm.as_str()),
            PlanRefused::NoTracking(vm) => {
                write!(f, "the changes of {} aren't tracked", vm.as_str())
            }
            PlanRefused::NameTaken => write!(f, "another plan has the name"),
            PlanRefused::Doubled(vm) => write!(f, "{} is named twice", vm.as_str()),
            PlanRefused::NoMemory => write!(f, "memory ran out"),
        }
    }
}

impl Error for PlanRefused {}

impl From<NoMemory> for PlanRefused {
    ghost use Rattle.plan_model.specs.declared.plan.PlanRefused.TheVariants.{NoMemory};
    ghost use Rattle.std.specs.Prelude.{◌≡◌};

    ghost from_gives = { λ _ refusal. refusal ≡ NoMemory };

    fn from(_refused: NoMemory) -> Self {
        PlanRefused::NoMemory
    }
}

impl From<AllocError> for PlanRefused {
    ghost use Rattle.plan_model.specs.declared.plan.PlanRefused.TheVariants.{NoMemory};
    ghost use Rattle.std.specs.Prelude.{◌≡◌};

    ghost from_gives = { λ _ refusal. refusal ≡ NoMemory };

    fn from(_refused: AllocError) -> Self {
        PlanRefused::NoMemory
    }
}
