//! The command `start`: it asks for a record for each machine that still waits in the plan, and
//! tells the numbers of all of the plan's migrations.
ghost use Rattle.std.specs.Prelude.{◌≡◌, ◌+◌, ◌≤◌, ◌^◌, ◌++◌, true, IfOk, length, map};
ghost use Rattle.std.specs.List.{zip, range_with_len};
ghost use Rattle.plan_commands.specs.Asked.{IsDecidedBy};
ghost use Rattle.plan_commands.specs.commands.Start.{waiting_in, has_numbers_for, begun_by, numbers_in, start_refusal, start_records, start_reply};

use crate::Asked;
use crate::machines::disks_of;
use answers::Refusal;
use basics::{Name, NoMemory, Sequence};
use ctl_state::CtlState;
use fleet::Fleet;
use record_codec::Record;
use reply_json::Reply;
use std::alloc::Global;

/// Whether there are numbers left for the migrations that a start of the plan begins.
pub fn has_numbers_for(state: &CtlState, plan: &Name) -> bool
    ensures { result ≡ has_numbers_for plan.now state.now }
{
    let waiting = match state.plan_named(plan) {
        None => 0,
        Some(number) => waiting_in(state, number).len(),
    };
    state.migrations().len().saturating_add(waiting) < 1 << 32
}

/// A migration of each machine of the plan that has none there yet, in the plan's order, numbered
/// after all migrations so far; the reply has the numbers of all of the plan's migrations.
/// [`Refusal::UnknownPlan`] where no plan has the name, then [`Refusal::Started`] where each
/// machine has its migration. It answers want of memory too, in place of the records.
pub fn ask_start(
    alloc: Global,
    fleet: &Fleet,
    state: &CtlState,
    plan: &Name,
) -> Result<Result<Asked, Refusal>, NoMemory>
    requires room { has_numbers_for plan.now state.now ≡ true }
    ensures { IfOk result (λ answer. IsDecidedBy (start_refusal plan.now state.now)
        (start_records plan.now fleet.now state.now) (start_reply plan.now state.now) answer) }
{
    let Some(number) = state.plan_named(plan) else {
        return Ok(Err(Refusal::UnknownPlan));
    };
    let waiting = waiting_in(state, number);
    if waiting.is_empty() {
        return Ok(Err(Refusal::Started));
    }
    let first = state.migrations().len() as u32 + 1;
    let records = begun(alloc, fleet, number, first, waiting)?;
    let numbers = all_numbers(alloc, state, number, first, waiting.len() as u32)?;
    Ok(Ok(Asked {
        records,
        reply: Reply::Started(numbers),
    }))
}

/// The machines of a plan that have no migration in it.
fn waiting_in(state: &CtlState, plan: u32) -> &[u32]
    ensures { result.now ≡ waiting_in plan state.now }
{
    match (state.plan(plan), state.course(plan)) {
        (Some(plan), Some(course)) => plan.vms.as_slice().get(course.started..).unwrap_or(&[]),
        _ => &[],
    }
}

/// A record for each of these machines, by which its migration begins, numbered from `first` on.
fn begun(
    alloc: Global,
    fleet: &Fleet,
    plan: u32,
    first: u32,
    vms: &[u32],
) -> Result<Sequence<Record>, NoMemory>
    requires { first + length vms.now ≤ 2 ^ 32 }
    ensures { IfOk result (λ records. records ≡ map (begun_by plan fleet.now)
        (zip (range_with_len first (length vms.now)) vms.now)) }
{
    let mut records = Vec::new(alloc);
    for (place, vm) in vms.iter().enumerate() {
        records.push(Record::MigrationStarted {
            mig: first + place as u32,
            plan,
            vm: *vm,
            disks: disks_of(fleet, *vm),
        })?;
    }
    Ok(Sequence::from_vec(records))
}

/// The numbers of a plan's migrations, and so many behind them from `first` on.
fn all_numbers(
    alloc: Global,
    state: &CtlState,
    plan: u32,
    first: u32,
    count: u32,
) -> Result<Sequence<u32>, NoMemory>
    requires { first + count ≤ 2 ^ 32 }
    ensures { IfOk result
        (λ numbers. numbers ≡ numbers_in plan state.now ++ range_with_len first count) }
{
    let mut numbers = numbers_in(alloc, state, plan)?;
    for place in 0..count {
        numbers.push(first + place)?;
    }
    Ok(Sequence::from_vec(numbers))
}

/// The numbers of a plan's migrations so far.
fn numbers_in(alloc: Global, state: &CtlState, plan: u32) -> Result<Vec<u32>, NoMemory>
    ensures { IfOk result (λ numbers. numbers.items ≡ numbers_in plan state.now) }
{
    let migrations = state.migrations().iter().filter(|m| m.plan == plan);
    Ok(migrations.map(|m| m.number).collect(alloc)?)
}
