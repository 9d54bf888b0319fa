//! The state of the controller: plans, how far each is, and migrations, in order of their numbers.
//! Beside them stand maps of the plans' names and of the machines at work, which say nothing more.
ghost use Rattle.std.specs.Prelude.{◌≡◌, option_copied};
ghost use Rattle.ctl_state.specs.Value.{no_records, migration_in, plan_in, course_in, plan_named, is_at_work, live_on};

use crate::{Migration, PlanCourse};
use plan_model::{Name, Plan};
use std::alloc::Global;
use std::collections::BTreeMap;
use std::marker::Model;

/// What the records so far come to.
#[derive(Debug, Drop)]
pub struct CtlState {
    pub(crate) plans: Vec<Plan>,
    pub(crate) courses: Vec<PlanCourse>,
    pub(crate) migrations: Vec<Migration>,
    pub(crate) names: BTreeMap<Name, u32>,
    pub(crate) work: BTreeMap<u32, Option<u32>>,
    pub(crate) alloc: Global,
}

impl Model for CtlState {
    ghost use Rattle.ctl_state.specs.Value.{CtlValue};

    ghost Value = { CtlValue };

    ghost use Rattle.ctl_state.specs.Lookups.{IsKept};

    ghost view = { λ s. record {
      plans = s.plans.items;
      courses = s.courses.items;
      migrations = s.migrations.items;
    } };

    ghost invariant = { λ s. IsKept s.plans.items s.courses.items s.migrations.items
        s.names s.work };
}

impl CtlState {
    /// The state without a record. What it keeps later is kept on `alloc`.
    pub fn empty(alloc: Global) -> CtlState
        ensures { result ≡ no_records }
    {
        CtlState {
            plans: Vec::new(alloc),
            courses: Vec::new(alloc),
            migrations: Vec::new(alloc),
            names: BTreeMap::new(alloc),
            work: BTreeMap::new(alloc),
            alloc,
        }
    }

    /// The migration of a number. None exactly where there is none.
    pub fn status(&self, mig: u32) -> Option<&Migration>
        ensures { option_copied result ≡ migration_in self.now mig }
    {
        let place = mig.checked_sub(1)?;
        self.migrations.get(place as usize)
    }

    /// The plans, in order of their numbers.
    pub fn plans(&self) -> &[Plan]
        ensures { result.now ≡ self.now.plans }
    {
        self.plans.as_slice()
    }

    /// The plan of a number. None exactly where there is none.
    pub fn plan(&self, plan: u32) -> Option<&Plan>
        ensures { option_copied result ≡ plan_in self.now plan }
    {
        let place = plan.checked_sub(1)?;
        self.plans.get(place as usize)
    }

    /// How far the plan of a number is. None exactly where there is no such plan.
    pub fn course(&self, plan: u32) -> Option<&PlanCourse>
        ensures { option_copied result ≡ course_in self.now plan }
    {
        let place = plan.checked_sub(1)?;
        self.courses.get(place as usize)
    }

    /// The number of the plan of this name. None exactly where there is none.
    pub fn plan_named(&self, name: &Name) -> Option<u32>
        ensures { result ≡ plan_named self.now.plans name.now }
    {
        self.names.get(name).copied()
    }

    /// Whether the machine is in some plan's unfinished work: it waits there for its migration, or
    /// that hasn't ended.
    pub fn is_at_work(&self, vm: u32) -> bool
        ensures { result ≡ is_at_work self.now vm }
    {
        self.work.contains_key(&vm)
    }

    /// The number of the machine's live migration. None exactly where it has none.
    pub fn live_on(&self, vm: u32) -> Option<u32>
        ensures { result ≡ live_on self.now.migrations vm }
    {
        match self.work.get(&vm) {
            Some(live) => *live,
            None => None,
        }
    }

    /// The migrations, in order of their numbers.
    pub fn migrations(&self) -> &[Migration]
        ensures { result.now ≡ self.now.migrations }
    {
        self.migrations.as_slice()
    }
}
