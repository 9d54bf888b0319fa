//! The command `vm`: it adds a machine on a host, and tells the number that it got.
ghost use Rattle.std.specs.Prelude.{◌≡◌, IfOk, OnErr};
ghost use Rattle.basics.specs.Spelled.{IsName};
ghost use Rattle.answers.specs.Answer.{AnswersFor};
ghost use Rattle.fleet_commands.specs.commands.Vm.{vm_refusal, vm_reply, after_vm};

use crate::refusals::fleet_told;
use answers::{Answer, Refusal};
use basics::{Name, NoMemory};
use fleet::Fleet;
use reply_json::Reply;

/// Adds a machine on a host, with disks of these capacities in sectors, and tells its number. In
/// this order: [`Refusal::NameTaken`] where a machine has the name, [`Refusal::UnknownHost`],
/// [`Refusal::BadSize`] where a machine may not have such disks, [`Refusal::TooMany`]. It answers
/// want of memory too, and has then changed nothing.
pub fn run_vm(
    fleet: &mut Fleet,
    name: &Name,
    host: &Name,
    disks: &[u64],
) -> Result<Answer, NoMemory>
    requires { IsName name.now }
    ensures answer { IfOk result (λ answer. AnswersFor
        (vm_refusal name.now host.now disks.now fleet.old) (vm_reply fleet.old)
        (after_vm name.now host.now disks.now fleet.old) answer fleet.old fleet.new) }
    ensures err { OnErr result (fleet.new ≡ fleet.old) }
{
    match fleet.add_vm(name.as_str(), host.as_str(), disks) {
        Ok(number) => Ok(Ok(Reply::Number(number))),
        Err(why) => Ok(Err(fleet_told(why).ok_or(NoMemory)?)),
    }
}
