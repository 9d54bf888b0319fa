//! The command `snapshot`. The list of identifiers gets its room before the snapshot is taken, so
//! that want of memory comes before anything has changed.
ghost use Rattle.std.specs.Prelude.{◌≡◌, ◌+◌, ◌≤◌, [], true, false, IfOk, OnOk, OnErr, length, vec_capacity};
ghost use Rattle.basics.specs.Refusal.{IsRefusedOr};
ghost use Rattle.log_model.specs.Legal.{taken};
ghost use Rattle.log_model.specs.Link.{after_act_alone};
ghost use Rattle.log_model.specs.Refusals.{snap_refusal, is_live};
ghost use Rattle.log_model.specs.declared.refusals.LinkRefused.TheVariants as refusals;
ghost use Rattle.answers.specs.Answer.{AnswersFor};
ghost use Rattle.fleet_commands.specs.commands.Snapshot.{snap_act, ids_at, snapshot_refusal, snapshot_reply, after_snapshot};

use crate::machines::take_out;
use crate::refusals::link_told;
use answers::{Answer, Refusal};
use basics::{MAX_DISKS, Name, NoMemory, Sequence};
use change_id::ChangeId;
use fleet::Fleet;
use log_model::{Link, LinkRefused, Owner};
use reply_json::Reply;
use source_vm::PlainLink;
use std::alloc::Global;

/// Takes a snapshot of the machine of a name in the operator's name, and tells its number and the
/// change identifier of each disk at it, where there is one. [`Refusal::UnknownVm`], then
/// [`Refusal::Spent`] where the log has no room for an entry more. It answers want of memory too,
/// and has then changed nothing.
pub fn run_snapshot(alloc: Global, fleet: &mut Fleet, vm: &Name) -> Result<Answer, NoMemory>
    ensures answer { IfOk result (λ answer. AnswersFor (snapshot_refusal vm.now fleet.old)
        (snapshot_reply vm.now fleet.old) (after_snapshot vm.now fleet.old)
        answer fleet.old fleet.new) }
    ensures err { OnErr result (fleet.new ≡ fleet.old) }
{
    let mut ids = Vec::with_capacity(alloc, MAX_DISKS)?;
    let Some(machine) = take_out(fleet, vm) else {
        return Ok(Err(Refusal::UnknownVm));
    };
    let disks = machine.disks();
    let mut link = PlainLink::of(machine);
    let taken = snap(&mut link, disks, &mut ids);
    fleet.lower(link);
    match taken {
        Ok(snapshot) => Ok(Ok(Reply::Snapshot {
            snapshot,
            ids: Sequence::from_vec(ids),
        })),
        Err(why) => Ok(Err(link_told(why).ok_or(NoMemory)?)),
    }
}

/// Takes a snapshot of a machine with so many disks, and puts the identifier of each of them at it
/// into a list that has room for them. It gives the number of the snapshot.
fn snap(
    link: &mut PlainLink,
    disks: u32,
    ids: &mut Vec<Option<ChangeId>>,
) -> Result<u32, LinkRefused>
    requires alone { link.old.unshared ≡ true }
    requires disks { disks ≡ length link.old.capacities }
    requires none_yet { ids.old.items ≡ [] }
    requires room { disks ≤ vec_capacity ids.old }
    ensures adds { link.new ≡ after_act_alone result (snap_act link.old.seen) link.old }
    ensures refused { IsRefusedOr (snap_refusal false link.old.seen) refusals.NoMemory result }
    ensures number { IfOk result (λ snapshot. snapshot ≡ taken link.old.seen + 1) }
    ensures ids { OnOk result (ids.new.items ≡ ids_at link.old.machine link.old.capacities
        (taken link.old.seen + 1) link.new.seen) }
{
    let snapped = link.snap(Owner::Operator, false)?;
    put_ids(link, snapped.id, disks, ids);
    Ok(snapped.id)
}

/// Puts the identifier of each of a machine's disks at a live snapshot into a list that has room
/// for them.
fn put_ids(link: &mut PlainLink, snapshot: u32, disks: u32, ids: &mut Vec<Option<ChangeId>>)
    requires alone { link.old.unshared ≡ true }
    requires live { is_live snapshot link.old.seen ≡ true }
    requires disks { disks ≡ length link.old.capacities }
    requires none_yet { ids.old.items ≡ [] }
    requires room { disks ≤ vec_capacity ids.old }
    ensures same { link.new ≡ link.old }
    ensures ids { ids.new.items
        ≡ ids_at link.old.machine link.old.capacities snapshot link.old.seen }
{
    for disk in 0..disks {
        let id = link.change_id(snapshot, disk).unwrap();
        ids.push(id).unwrap();
    }
}
