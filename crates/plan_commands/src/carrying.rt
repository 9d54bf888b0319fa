//! Commands on plans, carried out over a controller: what each asks for is kept, and then answered.
//!
//! A refused command leaves the controller as it was. Want of memory, told as
//! [`NotKept::NoMemory`], may come in place of any answer. Where a record isn't kept, those before
//! it are, the command isn't answered, and the journal is to be opened again: see [`keep_records`].
ghost use Rattle.std.specs.Prelude.{◌≡◌, None, IfSome};
ghost use Rattle.basics.specs.Spelled.{IsName};
ghost use Rattle.basics.specs.declared.limits.TheConstants.{MAX_INTERVAL};
ghost use Rattle.cmd_json.specs.Range.{IsWithin};
ghost use Rattle.fleet.specs.Sound.{AllAreIn};
ghost use Rattle.journal.specs.Journal.{IsKept};
ghost use Rattle.record_keeping.specs.Keeping.{keeping, IsReady, MayBeKept};
ghost use Rattle.plan_commands.specs.Carrying.{CarriesOut};
ghost use Rattle.plan_commands.specs.Machines.{HaveMachines};
ghost use Rattle.plan_commands.specs.commands.Plan.{plan_refusal, plan_records, plan_reply};
ghost use Rattle.plan_commands.specs.commands.Start.{start_refusal, start_records, start_reply};
ghost use Rattle.plan_commands.specs.commands.Cutover.{cutover_refusal, cutover_records, cutover_reply};

use crate::{Asked, ask_cutover, ask_plan, ask_start, numbers_suffice, what_is_asked_may_be_kept};
use answers::Answer;
use basics::Name;
use ctl_state::Controller;
use edge_traits::Disk;
use fleet::{Fleet, fleet_is_sound};
use plan_model::Moment;
use record_keeping::{NotKept, keep_records};
use std::alloc::Global;
use target_volume::VolumeStore;

/// Makes a plan, as [`ask_plan`] says it, and keeps it. No machine of the fleet may be out.
/// [`NotKept::Fault`] where the journal's disk failed, [`NotKept::Full`] where it has no room for
/// the plan, and [`NotKept::NoMemory`].
pub fn carry_out_plan<D: Disk, T: VolumeStore>(
    alloc: Global,
    controller: &mut Controller<D, T>,
    fleet: &Fleet,
    name: &Name,
    vms: &[Name],
    interval: Option<u32>,
) -> Result<Answer, NotKept>
    requires ready { IsReady (keeping controller.old.state controller.old.journal) }
    requires all_in { AllAreIn fleet.now }
    requires named { IsName name.now }
    requires limited { IfSome interval (IsWithin 1 MAX_INTERVAL) }
    ensures carried { CarriesOut
        (plan_refusal name.now vms.now fleet.now controller.old.state)
        (plan_records name.now vms.now interval fleet.now controller.old.state) plan_reply result
        (keeping controller.old.state controller.old.journal)
        (keeping controller.new.state controller.new.journal) }
    ensures store { controller.new.store ≡ controller.old.store }
{
    fleet_is_sound(fleet);
    journal_is_sound(controller);
    numbers_suffice();
    what_is_asked_may_be_kept();
    match ask_plan(alloc, fleet, &controller.state, name, vms, interval)? {
        Ok(asked) => kept(controller, asked),
        Err(why) => Ok(Err(why)),
    }
}

/// Starts a plan, as [`ask_start`] says it, and keeps that. The machines of all plans are in the
/// fleet. [`NotKept::Fault`] where the journal's disk failed, [`NotKept::Full`] where it has no
/// room for the next migration, and [`NotKept::NoMemory`]: the plan is then started in part, and a
/// later start goes on.
pub fn carry_out_start<D: Disk, T: VolumeStore>(
    alloc: Global,
    controller: &mut Controller<D, T>,
    fleet: &Fleet,
    plan: &Name,
) -> Result<Answer, NotKept>
    requires ready { IsReady (keeping controller.old.state controller.old.journal) }
    requires there { HaveMachines fleet.now controller.old.state }
    ensures carried { CarriesOut (start_refusal plan.now controller.old.state)
        (start_records plan.now fleet.now controller.old.state)
        (start_reply plan.now controller.old.state) result
        (keeping controller.old.state controller.old.journal)
        (keeping controller.new.state controller.new.journal) }
    ensures store { controller.new.store ≡ controller.old.store }
{
    fleet_is_sound(fleet);
    journal_is_sound(controller);
    numbers_suffice();
    what_is_asked_may_be_kept();
    match ask_start(alloc, fleet, &controller.state, plan)? {
        Ok(asked) => kept(controller, asked),
        Err(why) => Ok(Err(why)),
    }
}

/// Sets the cutover of a plan, as [`ask_cutover`] says it, and keeps that. [`NotKept::Fault`] where
/// the journal's disk failed, [`NotKept::Full`] where it has no room for it, and
/// [`NotKept::NoMemory`].
pub fn carry_out_cutover<D: Disk, T: VolumeStore>(
    alloc: Global,
    controller: &mut Controller<D, T>,
    plan: &Name,
    at: Option<Moment>,
) -> Result<Answer, NotKept>
    requires { IsReady (keeping controller.old.state controller.old.journal) }
    ensures carried { CarriesOut (cutover_refusal plan.now controller.old.state)
        (cutover_records plan.now at controller.old.state) cutover_reply result
        (keeping controller.old.state controller.old.journal)
        (keeping controller.new.state controller.new.journal) }
    ensures store { controller.new.store ≡ controller.old.store }
{
    what_is_asked_may_be_kept();
    match ask_cutover(alloc, &controller.state, plan, at)? {
        Ok(asked) => kept(controller, asked),
        Err(why) => Ok(Err(why)),
    }
}

/// Keeps what a command asks for that isn't refused, and gives its reply.
fn kept<D: Disk, T: VolumeStore>(
    controller: &mut Controller<D, T>,
    asked: Asked,
) -> Result<Answer, NotKept>
    requires ready { IsReady (keeping controller.old.state controller.old.journal) }
    requires follow { MayBeKept controller.old.state asked.records }
    ensures carried { CarriesOut None asked.records asked.reply result
        (keeping controller.old.state controller.old.journal)
        (keeping controller.new.state controller.new.journal) }
    ensures store { controller.new.store ≡ controller.old.store }
{
    keep_records(controller, asked.records.as_slice())?;
    Ok(Ok(asked.reply))
}

/// What is true of every journal: a look at its records tells it.
fn journal_is_sound<D: Disk, T: VolumeStore>(controller: &Controller<D, T>)
    ensures { IsKept controller.now.journal }
{
    let _ = controller.journal.records();
}
