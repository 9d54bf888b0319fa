//! Whether machines may be put into a plan of a name, and the plan that this makes.
ghost use Rattle.std.specs.Prelude.{◌≡◌, ◌<◌, ◌≤◌, IfOk, length, map};
ghost use Rattle.basics.specs.Spelled.{IsName};
ghost use Rattle.basics.specs.Refusal.{IsRefusedWhere};
ghost use Rattle.plan_model.specs.Plans.{is_taken, list_refusal, vm_number, plan_refusal, next_plan, keeps_name};

use crate::book::{
    book_of, doubles_of, first_doubled, first_in_plan, first_unknown, first_untracked, numbers_of,
};
use crate::{MAX_INTERVAL, Name, NumberList, Plan, PlanRefused, VmFact};
use std::alloc::Global;

/// The plan of the machines `vms` under `name`, with `interval` minutes between copies, 1 to
/// [`MAX_INTERVAL`], where `known` is what is known of machines and `plans` are those so far.
/// It takes the number after them. The reasons to refuse are tested in this order:
/// [`PlanRefused::NameTaken`], [`PlanRefused::Empty`], [`PlanRefused::Doubled`] for a name that
/// stands again later, [`PlanRefused::UnknownVm`], [`PlanRefused::InPlan`],
/// [`PlanRefused::NoTracking`]. Those that keep a name keep the first of the list to which they
/// apply. Of several facts of one name the first counts. Names are looked up in maps, and a refusal
/// keeps a copy of its name, so [`PlanRefused::NoMemory`] may stand in place of the last four.
pub fn validate(
    alloc: Global,
    name: &str,
    vms: &[Name],
    known: &[VmFact],
    plans: &[Plan],
    interval: u32,
) -> Result<Plan, PlanRefused>
    requires named { IsName name.now }
    requires room { length plans.now < u32.MAX }
    requires some { 1 ≤ interval }
    requires week { interval ≤ MAX_INTERVAL }
    ensures refused { IsRefusedWhere (plan_refusal name.now vms.now known.now plans.now)
        PlanRefused.NoMemory keeps_name result }
    ensures made { IfOk result
        (λ plan. plan ≡ next_plan name.now vms.now known.now plans.now interval) }
{
    if is_taken(name, plans) {
        return Err(PlanRefused::NameTaken);
    }
    if vms.is_empty() {
        return Err(PlanRefused::Empty);
    }
    let vms = listed_numbers(alloc, vms, known)?;
    let name = Name::of(alloc, name)?;
    Ok(Plan {
        number: plans.len() as u32 + 1,
        name,
        interval,
        vms,
    })
}

fn is_taken(name: &str, plans: &[Plan]) -> bool
    ensures { result ≡ is_taken name.now plans.now }
{
    plans.iter().any(|plan| plan.name.as_str() == name)
}

// The numbers of the listed machines, if they may go into a plan together.
fn listed_numbers(alloc: Global, vms: &[Name], known: &[VmFact]) -> Result<NumberList, PlanRefused>
    ensures refused { IsRefusedWhere (list_refusal vms.now known.now)
        PlanRefused.NoMemory keeps_name result }
    ensures numbers { IfOk result (λ numbers. numbers ≡ map (vm_number known.now) vms.now) }
{
    let doubles = doubles_of(alloc, vms)?;
    if let Some(vm) = first_doubled(&doubles, vms) {
        return Err(PlanRefused::Doubled(vm.clone()?));
    }
    let book = book_of(alloc, known)?;
    if let Some(vm) = first_unknown(&book, vms) {
        return Err(PlanRefused::UnknownVm(vm.clone()?));
    }
    if let Some(vm) = first_in_plan(&book, vms) {
        return Err(PlanRefused::InPlan(vm.clone()?));
    }
    if let Some(vm) = first_untracked(&book, vms) {
        return Err(PlanRefused::NoTracking(vm.clone()?));
    }
    Ok(numbers_of(alloc, &book, vms)?)
}
