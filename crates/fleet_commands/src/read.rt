//! The command `read`: it shows so few sectors that they are read into a buffer of a fixed size.
ghost use Rattle.std.specs.Prelude.{◌≡◌, IfOk, OnErr, map};
ghost use Rattle.cmd_json.specs.Range.{IsWithin};
ghost use Rattle.cmd_json.specs.declared.command.TheConstants.{MAX_READ_SECTORS};
ghost use Rattle.answers.specs.Answer.{AnswersFor};
ghost use Rattle.fleet_commands.specs.commands.Read.{read_refusal, read_reply, Reads};

use crate::machines::take_out;
use crate::refusals::link_told;
use answers::{Answer, Refusal};
use basics::{Name, NoMemory, SECTOR_BYTES, Sequence};
use cmd_json::MAX_READ_SECTORS;
use fleet::Fleet;
use log_model::{Link, LinkRefused};
use reply_json::Reply;
use sector_model::Sector;
use source_vm::PlainLink;
use std::alloc::Global;

/// How many sectors are read at most, so that no memory is taken for them.
const BUFFER_SECTORS: usize = MAX_READ_SECTORS as usize;

/// What a line asks to be shown: `count` sectors of a disk from sector `first` on, at a snapshot or
/// as they are now.
#[derive(Clone, Copy, Debug, PartialEq, Eq)]
pub struct ReadLine {
    pub disk: u32,
    pub first: u64,
    pub count: u64,
    pub snapshot: Option<u32>,
}

/// Shows sectors of a disk of the machine of a name. In this order: [`Refusal::UnknownVm`],
/// [`Refusal::UnknownSnapshot`], [`Refusal::Range`] where the disk is unknown or the sectors pass
/// its end. It answers want of memory too. Nothing changes.
pub fn run_read(
    alloc: Global,
    fleet: &mut Fleet,
    vm: &Name,
    line: ReadLine,
) -> Result<Answer, NoMemory>
    requires { IsWithin 1 MAX_READ_SECTORS line.count }
    ensures answer { IfOk result (λ answer. AnswersFor
        (read_refusal vm.now line.disk line.first line.count line.snapshot fleet.old)
        (read_reply vm.now line.disk line.first line.count line.snapshot fleet.old)
        fleet.old answer fleet.old fleet.new) }
    ensures err { OnErr result (fleet.new ≡ fleet.old) }
{
    let mut buffer = [Sector::filled(0); BUFFER_SECTORS];
    let sectors = &mut buffer[..line.count as usize];
    let Some(read) = read_into(fleet, vm, line, sectors) else {
        return Ok(Err(Refusal::UnknownVm));
    };
    match read {
        Ok(()) => Ok(Ok(Reply::Sectors(bytes_of(alloc, sectors)?))),
        Err(why) => Ok(Err(link_told(why).ok_or(NoMemory)?)),
    }
}

/// Reads sectors of a disk of the machine of a name, as many as the buffer holds. None where there
/// is no such machine. Nothing of the fleet changes.
fn read_into(
    fleet: &mut Fleet,
    vm: &Name,
    line: ReadLine,
    sectors: &mut [Sector],
) -> Option<Result<(), LinkRefused>>
    ensures reads { Reads vm.now line.disk line.first line.snapshot fleet.old result
        sectors.old sectors.new }
    ensures same { fleet.new ≡ fleet.old }
{
    let Some(snapshot) = line.snapshot else {
        let number = fleet.number_of(vm.as_str())?;
        let machine = fleet.machine(number)?;
        return Some(machine.read_now(line.disk, line.first, sectors));
    };
    let mut link = PlainLink::of(take_out(fleet, vm)?);
    let read = link.read_snap(snapshot, line.disk, line.first, sectors);
    fleet.lower(link);
    Some(read)
}

/// The bytes of sectors, in order.
fn bytes_of(alloc: Global, sectors: &[Sector]) -> Result<Sequence<[u8; SECTOR_BYTES]>, NoMemory>
    ensures { IfOk result (λ all. all ≡ map (λ sector. sector.0) sectors.now) }
{
    let mut all = Vec::with_capacity(alloc, sectors.len())?;
    for sector in sectors {
        all.push(sector.0)?;
    }
    Ok(Sequence::from_vec(all))
}
