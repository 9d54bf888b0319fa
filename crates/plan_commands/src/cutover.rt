//! The command `cutover`: it asks for the one record that sets the moment, as long as a migration
//! of the plan has still to end.
ghost use Rattle.std.specs.Prelude.{◌≡◌, IfOk};
ghost use Rattle.plan_commands.specs.Asked.{IsDecidedBy};
ghost use Rattle.plan_commands.specs.commands.Cutover.{course_refusal, cutover_refusal_of, seconds_of, cutover_refusal, cutover_records, cutover_reply};

use crate::Asked;
use crate::asked::asked_once;
use answers::Refusal;
use basics::{Name, NoMemory};
use ctl_state::{CtlState, PlanCourse};
use plan_model::Moment;
use record_codec::Record;
use reply_json::Reply;
use std::alloc::Global;

/// The cutover of a plan from the moment `at` on, or as soon as possible, in place of one that was
/// set before. [`Refusal::UnknownPlan`] where no plan has the name, then [`Refusal::NotStarted`]
/// where no machine of it has its migration, then [`Refusal::Ended`] where each of its migrations
/// has ended. It answers want of memory too, in place of the record.
pub fn ask_cutover(
    alloc: Global,
    state: &CtlState,
    plan: &Name,
    at: Option<Moment>,
) -> Result<Result<Asked, Refusal>, NoMemory>
    ensures { IfOk result (λ answer. IsDecidedBy (cutover_refusal plan.now state.now)
        (cutover_records plan.now at state.now) cutover_reply answer) }
{
    let Some(number) = state.plan_named(plan) else {
        return Ok(Err(Refusal::UnknownPlan));
    };
    if let Some(why) = refusal_of(state, number) {
        return Ok(Err(why));
    }
    let record = Record::CutoverSet {
        plan: number,
        has: at.is_some(),
        at: seconds_of(at),
    };
    Ok(Ok(asked_once(alloc, record, Reply::Done)?))
}

/// Why the plan of a number takes no cutover.
fn refusal_of(state: &CtlState, plan: u32) -> Option<Refusal>
    ensures { result ≡ cutover_refusal_of plan state.now }
{
    match state.course(plan) {
        None => Some(Refusal::UnknownPlan),
        Some(course) => course_refusal(course),
    }
}

/// Why a plan that is so far takes no cutover.
fn course_refusal(course: &PlanCourse) -> Option<Refusal>
    ensures { result ≡ course_refusal course.now }
{
    if course.started == 0 {
        Some(Refusal::NotStarted)
    } else if course.live == 0 {
        Some(Refusal::Ended)
    } else {
        None
    }
}

/// A moment as a record keeps it, and 0 for none.
fn seconds_of(at: Option<Moment>) -> u64
    ensures { result ≡ seconds_of at }
{
    match at {
        None => 0,
        Some(moment) => moment.0,
    }
}
