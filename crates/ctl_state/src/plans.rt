//! How far a plan is, and what the records change in that.
ghost use Rattle.std.specs.Prelude.{◌≡◌, ◌+◌, ◌<◌, ◌^◌, [], ◌∷◌, ◌++◌, false, OnOk, OnErr};
ghost use Rattle.std.specs.Bool.{OnTrue};
ghost use Rattle.plan_model.specs.Plans.{is_taken};
ghost use Rattle.ctl_state.specs.Value.{change_numbered, new_course};
ghost use Rattle.ctl_state.specs.MayStand.{is_next_of};
ghost use Rattle.ctl_state.specs.Fold.{plan_of, with_started, with_ended, with_cutover, cutover_of};
ghost use Rattle.ctl_state.specs.Lookups.{AreCourses, AreNames, HasRoom};

use basics::NoMemory;
use plan_model::{Cutover, Moment, Name, NumberList, Plan};
use std::collections::BTreeMap;

/// How far a plan is.
#[derive(Clone, Copy, Debug, PartialEq, Eq)]
pub struct PlanCourse {
    /// Its cutover, once one is set.
    pub cutover: Option<Cutover>,
    /// How many of its machines, from the first one on, have their migration: up to all of them.
    pub started: usize,
    /// How many of these migrations haven't ended: up to all of them.
    pub live: usize,
}

impl PlanCourse {
    const NEW: PlanCourse = PlanCourse {
        cutover: None,
        started: 0,
        live: 0,
    };
}

/// Adds a plan whose name is new, or nothing for want of memory.
pub(crate) fn add_plan(
    plans: &mut Vec<Plan>,
    courses: &mut Vec<PlanCourse>,
    names: &mut BTreeMap<Name, u32>,
    plan: u32,
    name: &Name,
    interval: u32,
    vms: &NumberList,
) -> Result<(), NoMemory>
    requires new { is_taken name.now plans.old.items ≡ false }
    requires named { AreNames plans.old.items names.old }
    ensures plan { OnOk result (plans.new.items
        ≡ plans.old.items ++ plan_of plan name.now interval vms.now ∷ []) }
    ensures course { OnOk result (courses.new.items ≡ courses.old.items ++ new_course ∷ []) }
    ensures names { AreNames plans.new.items names.new }
    ensures plans_kept { OnErr result (plans.new.items ≡ plans.old.items) }
    ensures courses_kept { OnErr result (courses.new.items ≡ courses.old.items) }
{
    let key = name.clone()?;
    let made = Plan {
        number: plan,
        name: name.clone()?,
        interval,
        vms: vms.clone()?,
    };
    plans.reserve(1)?;
    courses.reserve(1)?;
    names.insert(key, plan)?;
    plans.push(made)?;
    courses.push(PlanCourse::NEW)?;
    Ok(())
}

/// Whether the machine is the next of the plan that gets a migration.
pub(crate) fn is_next_of(vm: u32, plan: &Plan, course: &PlanCourse) -> bool
    ensures value { result ≡ is_next_of vm plan.now course.now }
    ensures room { OnTrue result (course.now.started + 1 < 2 ^ 64) }
{
    match plan.vms.as_slice().get(course.started) {
        None => false,
        Some(next) => *next == vm,
    }
}

/// One more machine of the plan has its migration.
pub(crate) fn start_one(courses: &mut Vec<PlanCourse>, plan: u32)
    requires started { HasRoom courses.old.items plan }
    requires live { AreCourses courses.old.items }
    ensures { courses.new.items ≡ change_numbered courses.old.items plan with_started }
{
    if plan != 0 && plan as usize - 1 < courses.len() {
        let course = &mut courses[plan as usize - 1];
        course.started += 1;
        course.live += 1;
    }
}

/// One migration of the plan ended.
pub(crate) fn end_in(courses: &mut Vec<PlanCourse>, plan: u32)
    ensures { courses.new.items ≡ change_numbered courses.old.items plan with_ended }
{
    if plan != 0 && plan as usize - 1 < courses.len() {
        let course = &mut courses[plan as usize - 1];
        course.live = course.live.saturating_sub(1);
    }
}

/// The cutover of the plan is set.
pub(crate) fn cut_over(courses: &mut Vec<PlanCourse>, plan: u32, cutover: Cutover)
    ensures { courses.new.items ≡ change_numbered courses.old.items plan (with_cutover cutover) }
{
    if plan != 0 && plan as usize - 1 < courses.len() {
        courses[plan as usize - 1].cutover = Some(cutover);
    }
}

/// The cutover that a record sets.
pub(crate) fn cutover_of(has: bool, at: u64) -> Cutover
    ensures { result ≡ cutover_of has at }
{
    Cutover {
        at: if has { Some(Moment(at)) } else { None },
    }
}
