//! The command `plan`: it asks for the one record by which a plan is made, or says why none may be.
ghost use Rattle.std.specs.Prelude.{◌≡◌, ◌<◌, IfOk, IfSome, length};
ghost use Rattle.basics.specs.Spelled.{IsName};
ghost use Rattle.basics.specs.declared.limits.TheConstants.{MAX_INTERVAL};
ghost use Rattle.cmd_json.specs.Range.{IsWithin};
ghost use Rattle.fleet.specs.Sound.{AllAreIn};
ghost use Rattle.plan_commands.specs.Asked.{IsDecidedBy};
ghost use Rattle.plan_commands.specs.commands.Plan.{made_by, plan_told, plan_refusal, plan_records, plan_reply};

use crate::Asked;
use crate::asked::asked_once;
use crate::machines::known_of;
use answers::Refusal;
use basics::{Name, NoMemory};
use ctl_state::CtlState;
use fleet::Fleet;
use plan_model::{Plan, PlanRefused, validate};
use record_codec::Record;
use reply_json::Reply;
use std::alloc::Global;

/// The minutes between copies where the line names no interval.
pub const DEFAULT_INTERVAL: u32 = 60;

/// A plan of these machines, with this interval in minutes or else [`DEFAULT_INTERVAL`]. In this
/// order: [`Refusal::NameTaken`] where a plan has the name, [`Refusal::Empty`],
/// [`Refusal::Doubled`], [`Refusal::UnknownListed`], [`Refusal::InPlan`], [`Refusal::NoTracking`],
/// each of the last four for the first machine of the list to which it applies. No machine of the
/// fleet may be out. It answers want of memory too, in place of any answer.
pub fn ask_plan(
    alloc: Global,
    fleet: &Fleet,
    state: &CtlState,
    name: &Name,
    vms: &[Name],
    interval: Option<u32>,
) -> Result<Result<Asked, Refusal>, NoMemory>
    requires all_in { AllAreIn fleet.now }
    requires named { IsName name.now }
    requires limited { IfSome interval (IsWithin 1 MAX_INTERVAL) }
    requires room { length state.now.plans < u32.MAX }
    ensures { IfOk result (λ answer. IsDecidedBy
        (plan_refusal name.now vms.now fleet.now state.now)
        (plan_records name.now vms.now interval fleet.now state.now) plan_reply answer) }
{
    let known = known_of(alloc, fleet, state)?;
    let interval = interval.unwrap_or(DEFAULT_INTERVAL);
    match validate(
        alloc,
        name.as_str(),
        vms,
        known.as_slice(),
        state.plans(),
        interval,
    ) {
        Ok(plan) => Ok(Ok(asked_once(alloc, made_by(plan), Reply::Done)?)),
        Err(why) => Ok(Err(plan_told(why).ok_or(NoMemory)?)),
    }
}

/// The record by which a plan is made.
fn made_by(plan: Plan) -> Record
    ensures { result ≡ made_by plan }
{
    Record::PlanMade {
        plan: plan.number,
        name: plan.name,
        interval: plan.interval,
        vms: plan.vms,
    }
}

/// What is told where machines may not be put into a plan. None for want of memory.
fn plan_told(why: PlanRefused) -> Option<Refusal>
    ensures { result ≡ plan_told why }
{
    match why {
        PlanRefused::Empty => Some(Refusal::Empty),
        PlanRefused::UnknownVm(vm) => Some(Refusal::UnknownListed(vm)),
        PlanRefused::InPlan(vm) => Some(Refusal::InPlan(vm)),
        PlanRefused::NoTracking(vm) => Some(Refusal::NoTracking(vm)),
        PlanRefused::NameTaken => Some(Refusal::NameTaken),
        PlanRefused::Doubled(vm) => Some(Refusal::Doubled(vm)),
        PlanRefused::NoMemory => None,
    }
}
