//! The commands that add one entry to a machine's log and have nothing to tell.
ghost use Rattle.std.specs.Prelude.{◌≡◌, IfOk, OnErr};
ghost use Rattle.basics.specs.Refusal.{IsRefusedOr};
ghost use Rattle.log_model.specs.Link.{AddsAct, log_met};
ghost use Rattle.log_model.specs.declared.entry.TheConstants.{MIGRATION_CALLER};
ghost use Rattle.log_model.specs.declared.refusals.LinkRefused.TheVariants as refusals;
ghost use Rattle.answers.specs.Answer.{AnswersFor};
ghost use Rattle.fleet_commands.specs.commands.Deed.{act_of, refusal_by, deed_refusal, deed_reply, after_deed};

use crate::machines::take_out;
use crate::refusals::link_told;
use answers::{Answer, Refusal};
use basics::{Name, NoMemory};
use fleet::Fleet;
use log_model::{Link, LinkRefused, Owner};
use reply_json::Reply;
use source_vm::PlainLink;

/// What is done to a machine by one entry of its log.
#[derive(Clone, Copy, Debug, PartialEq, Eq)]
pub enum Deed {
    /// Its changes are tracked from the next snapshot or power-on on.
    Enable,
    /// A snapshot that an operator took is removed.
    Remove(u32),
    /// It is powered on.
    On,
    /// It is powered off.
    Off,
    /// What is known of a disk's changes is forgotten.
    Reset(u32),
}

impl Deed {
    /// Does it to the machine of a link.
    fn to<L: Link>(self, link: &mut L) -> Result<(), LinkRefused>
        requires { (L.state link.old).caller ≡ MIGRATION_CALLER }
        ensures adds { AddsAct result (act_of self) (L.state link.old) (L.state link.new) }
        ensures refused { IsRefusedOr
            (refusal_by self (L.state link.old).capacities (log_met result (L.state link.new)))
            refusals.NoMemory result }
    {
        match self {
            Deed::Enable => link.enable(),
            Deed::Remove(id) => link.remove(Owner::Operator, id),
            Deed::On => {
                link.power_on()?;
                Ok(())
            }
            Deed::Off => {
                link.power_off()?;
                Ok(())
            }
            Deed::Reset(disk) => link.reset(disk),
        }
    }
}

/// Does it to the machine of a name. [`Refusal::UnknownVm`] where there is no such machine; then,
/// by what is done: [`Refusal::AlreadyEnabled`]; [`Refusal::UnknownSnapshot`] and
/// [`Refusal::Owned`]; [`Refusal::AlreadyOn`] or [`Refusal::AlreadyOff`]; [`Refusal::Range`] where
/// the disk is unknown; and last [`Refusal::Spent`]. It answers want of memory too, and has then
/// changed nothing.
pub fn run_deed(fleet: &mut Fleet, vm: &Name, deed: Deed) -> Result<Answer, NoMemory>
    ensures answer { IfOk result (λ answer. AnswersFor (deed_refusal vm.now deed fleet.old)
        deed_reply (after_deed vm.now deed fleet.old) answer fleet.old fleet.new) }
    ensures err { OnErr result (fleet.new ≡ fleet.old) }
{
    let Some(machine) = take_out(fleet, vm) else {
        return Ok(Err(Refusal::UnknownVm));
    };
    let mut link = PlainLink::of(machine);
    let done = deed.to(&mut link);
    fleet.lower(link);
    match done {
        Ok(()) => Ok(Ok(Reply::Done)),
        Err(why) => Ok(Err(link_told(why).ok_or(NoMemory)?)),
    }
}
