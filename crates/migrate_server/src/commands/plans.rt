//! The commands that add records to the journal: each is carried out by `plan_commands`, and what
//! it answers and leaves is said by the definitions of a session.
ghost use Rattle.std.specs.Prelude.{◌≡◌, IfOk, IfErr, IfSome, OnOk, None};
ghost use Rattle.basics.specs.Spelled.{IsName};
ghost use Rattle.basics.specs.declared.limits.TheConstants.{MAX_INTERVAL};
ghost use Rattle.cmd_json.specs.Range.{IsWithin};
ghost use Rattle.cmd_json.specs.declared.command.Command.TheVariants.{Plan, Start, Cutover};
ghost use Rattle.fleet.specs.Sound.{AllAreIn};
ghost use Rattle.record_keeping.specs.Keeping.{keeping, IsReady, IsUnfailed};
ghost use Rattle.migrate_server.specs.Serve.{AllWouldBeTaken, IsUnanswered};
ghost use Rattle.migrate_server.specs.Session.{serving, Answers};
ghost use Rattle.migrate_server.specs.World.{server_of};

use answers::Answer;
use basics::Name;
use ctl_state::Controller;
use edge_traits::Disk;
use fleet::{Fleet, fleet_is_sound};
use plan_commands::{
    carry_out_cutover, carry_out_plan, carry_out_start, plans_list_tracked_machines,
    what_is_asked_may_be_kept,
};
use plan_model::Moment;
use record_keeping::NotKept;
use restart::agreeing_records_are_taken;
use std::alloc::Global;
use target_volume::VolumeStore;

/// Makes a plan and keeps it, as [`carry_out_plan`] says.
pub(crate) fn run_plan<D: Disk, T: VolumeStore>(
    alloc: Global,
    fleet: &Fleet,
    controller: &mut Controller<D, T>,
    name: &Name,
    vms: &[Name],
    interval: Option<u32>,
) -> Result<Answer, NotKept>
    requires all_in { AllAreIn fleet.now }
    requires named { IsName name.now }
    requires limited { IfSome interval (IsWithin 1 MAX_INTERVAL) }
    requires ready { IsReady (keeping controller.old.state controller.old.journal) }
    requires taken { AllWouldBeTaken fleet.now controller.old.journal }
    ensures answer { IfOk result (λ answer. Answers (Plan name.now vms.now interval) answer
        (serving fleet.now controller.old.journal.records (T.state controller.old.store))
        (serving fleet.now controller.new.journal.records (T.state controller.new.store))) }
    ensures ready { OnOk result
        (IsReady (keeping controller.new.state controller.new.journal)) }
    ensures unfailed { OnOk result
        (IsUnfailed controller.old.journal controller.new.journal) }
    ensures taken { AllWouldBeTaken fleet.now controller.new.journal }
    ensures unanswered { IfErr result (λ why. IsUnanswered (Plan name.now vms.now interval) why
        (server_of fleet.now controller.old.journal (T.state controller.old.store))
        (server_of fleet.now controller.new.journal (T.state controller.new.store))) }
{
    fleet_is_sound(fleet);
    what_is_asked_may_be_kept();
    plans_list_tracked_machines();
    carry_out_plan(alloc, controller, fleet, name, vms, interval)
}

/// Starts a plan and keeps that, as [`carry_out_start`] says.
pub(crate) fn run_start<D: Disk, T: VolumeStore>(
    alloc: Global,
    fleet: &Fleet,
    controller: &mut Controller<D, T>,
    plan: &Name,
) -> Result<Answer, NotKept>
    requires ready { IsReady (keeping controller.old.state controller.old.journal) }
    requires taken { AllWouldBeTaken fleet.now controller.old.journal }
    ensures answer { IfOk result (λ answer. Answers (Start plan.now) answer
        (serving fleet.now controller.old.journal.records (T.state controller.old.store))
        (serving fleet.now controller.new.journal.records (T.state controller.new.store))) }
    ensures ready { OnOk result
        (IsReady (keeping controller.new.state controller.new.journal)) }
    ensures unfailed { OnOk result
        (IsUnfailed controller.old.journal controller.new.journal) }
    ensures taken { AllWouldBeTaken fleet.now controller.new.journal }
    ensures unanswered { IfErr result (λ why. IsUnanswered (Start plan.now) why
        (server_of fleet.now controller.old.journal (T.state controller.old.store))
        (server_of fleet.now controller.new.journal (T.state controller.new.store))) }
{
    fleet_is_sound(fleet);
    what_is_asked_may_be_kept();
    agreeing_records_are_taken();
    carry_out_start(alloc, controller, fleet, plan)
}

/// Sets the cutover of a plan and keeps that, as [`carry_out_cutover`] says.
pub(crate) fn run_cutover<D: Disk, T: VolumeStore>(
    alloc: Global,
    fleet: &Fleet,
    controller: &mut Controller<D, T>,
    plan: &Name,
    at: Option<Moment>,
) -> Result<Answer, NotKept>
    requires ready { IsReady (keeping controller.old.state controller.old.journal) }
    requires taken { AllWouldBeTaken fleet.now controller.old.journal }
    ensures answer { IfOk result (λ answer. Answers (Cutover plan.now at) answer
        (serving fleet.now controller.old.journal.records (T.state controller.old.store))
        (serving fleet.now controller.new.journal.records (T.state controller.new.store))) }
    ensures ready { OnOk result
        (IsReady (keeping controller.new.state controller.new.journal)) }
    ensures unfailed { OnOk result
        (IsUnfailed controller.old.journal controller.new.journal) }
    ensures taken { AllWouldBeTaken fleet.now controller.new.journal }
    ensures unanswered { IfErr result (λ why. IsUnanswered (Cutover plan.now at) why
        (server_of fleet.now controller.old.journal (T.state controller.old.store))
        (server_of fleet.now controller.new.journal (T.state controller.new.store))) }
{
    what_is_asked_may_be_kept();
    carry_out_cutover(alloc, controller, plan, at)
}
