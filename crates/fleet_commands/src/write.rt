//! The command `write`: it makes sectors that are all of one byte, and writes them as a guest does.
ghost use Rattle.std.specs.Prelude.{◌≡◌, IfOk, OnErr, replicate};
ghost use Rattle.sector_model.specs.Sector.{filled};
ghost use Rattle.answers.specs.Answer.{AnswersFor};
ghost use Rattle.fleet_commands.specs.commands.Write.{write_refusal, write_reply, after_write};

use crate::machines::take_out;
use crate::refusals::write_told;
use answers::{Answer, Refusal};
use basics::{Name, NoMemory};
use fleet::Fleet;
use log_model::MIGRATION_CALLER;
use reply_json::Reply;
use sector_model::Sector;
use source_vm::PlainLink;
use std::alloc::Global;

/// What a line asks to be written: `count` sectors of a disk from sector `first` on, all bytes of
/// which are `fill`.
#[derive(Clone, Copy, Debug, PartialEq, Eq)]
pub struct WriteLine {
    pub disk: u32,
    pub first: u64,
    pub count: u64,
    pub fill: u8,
}

/// Writes to a disk of the machine of a name. In this order: [`Refusal::UnknownVm`],
/// [`Refusal::Off`], [`Refusal::Range`] where the disk is unknown or the sectors pass its end,
/// [`Refusal::LogFull`] where the log has no room for so many sectors or for an entry more. It
/// answers want of memory too, and has then changed nothing.
pub fn run_write(
    alloc: Global,
    fleet: &mut Fleet,
    vm: &Name,
    line: WriteLine,
) -> Result<Answer, NoMemory>
    ensures answer { IfOk result (λ answer. AnswersFor
        (write_refusal vm.now line.disk line.first line.count fleet.old) write_reply
        (after_write vm.now line.disk line.first line.count line.fill fleet.old)
        answer fleet.old fleet.new) }
    ensures err { OnErr result (fleet.new ≡ fleet.old) }
{
    let sectors = filled_sectors(alloc, line.fill, line.count)?;
    let Some(mut machine) = take_out(fleet, vm) else {
        return Ok(Err(Refusal::UnknownVm));
    };
    let written = machine.guest_write(MIGRATION_CALLER, line.disk, line.first, &sectors);
    fleet.lower(PlainLink::of(machine));
    match written {
        Ok(()) => Ok(Ok(Reply::Done)),
        Err(why) => Ok(Err(write_told(why).ok_or(NoMemory)?)),
    }
}

/// So many sectors whose bytes are all `fill`.
fn filled_sectors(alloc: Global, fill: u8, count: u64) -> Result<Vec<Sector>, NoMemory>
    ensures { IfOk result (λ sectors. sectors.items ≡ replicate count (filled fill)) }
{
    Ok(vec![in alloc; Sector::filled(fill); count as usize]?)
}
