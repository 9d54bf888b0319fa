//! Each command by its members, in the order of its row.
#![tactic(auto, unfolding(crate::specs::Line::command_named))]

ghost use Rattle.std.specs.Prelude.{codes, IfOk};
ghost use Rattle.cmd_json.specs.Known.{IsAskable};
ghost use Rattle.cmd_json.specs.Left.{left_in};
ghost use Rattle.cmd_json.specs.Line.{command_named};
ghost use Rattle.cmd_json.specs.Members.{Reads};

use crate::command::{Command, MAX_READ_SECTORS, MAX_WORKERS};
use crate::kinds::{
    BYTE, FlagKind, LONG, MomentKind, NameKind, SectorStartKind, TextKind, WORD, within,
};
use crate::lists::{ListKind, MoveWriteKind};
use crate::members::Members;
use crate::objects::{DisturbKind, GuestKind};
use crate::refusal::CmdRefused;
use basics::{MAX_DISK_SECTORS, MAX_HOST_LIMIT, MAX_INTERVAL, MAX_WRITE_SECTORS};

pub(crate) fn read_move(members: &mut Members<'_>) -> Result<Command, CmdRefused>
    ensures reads { Reads (command_named (codes "move") (left_in members.old)) (left_in members.new)
        result }
    ensures known { IfOk result IsAskable }
{
    let name = members.required("name", NameKind)?;
    let sectors = members.required("sectors", within(1, MAX_DISK_SECTORS))?;
    let writes = members.required("writes", ListKind(MoveWriteKind))?;
    Ok(Command::Move {
        name,
        sectors,
        writes,
    })
}

pub(crate) fn read_host(members: &mut Members<'_>) -> Result<Command, CmdRefused>
    ensures reads { Reads (command_named (codes "host") (left_in members.old)) (left_in members.new)
        result }
    ensures known { IfOk result IsAskable }
{
    let name = members.required("name", NameKind)?;
    let limit = members.optional("limit", within(1, MAX_HOST_LIMIT))?;
    Ok(Command::Host { name, limit })
}

pub(crate) fn read_vm(members: &mut Members<'_>) -> Result<Command, CmdRefused>
    ensures reads { Reads (command_named (codes "vm") (left_in members.old)) (left_in members.new)
        result }
    ensures known { IfOk result IsAskable }
{
    let name = members.required("name", NameKind)?;
    let host = members.required("host", NameKind)?;
    let disks = members.required("disks", ListKind(LONG))?;
    Ok(Command::Vm { name, host, disks })
}

pub(crate) fn read_enable(members: &mut Members<'_>) -> Result<Command, CmdRefused>
    ensures reads { Reads (command_named (codes "enable") (left_in members.old))
        (left_in members.new) result }
    ensures known { IfOk result IsAskable }
{
    let vm = members.required("vm", NameKind)?;
    Ok(Command::Enable { vm })
}

pub(crate) fn read_write(members: &mut Members<'_>) -> Result<Command, CmdRefused>
    ensures reads { Reads (command_named (codes "write") (left_in members.old))
        (left_in members.new) result }
    ensures known { IfOk result IsAskable }
{
    let vm = members.required("vm", NameKind)?;
    let disk = members.required("disk", WORD)?;
    let first = members.required("first", LONG)?;
    let count = members.required("count", within(1, MAX_WRITE_SECTORS))?;
    let fill = members.required("fill", BYTE)?;
    Ok(Command::Write {
        vm,
        disk,
        first,
        count,
        fill,
    })
}

pub(crate) fn read_snapshot(members: &mut Members<'_>) -> Result<Command, CmdRefused>
    ensures reads { Reads (command_named (codes "snapshot") (left_in members.old))
        (left_in members.new) result }
    ensures known { IfOk result IsAskable }
{
    let vm = members.required("vm", NameKind)?;
    Ok(Command::Snapshot { vm })
}

pub(crate) fn read_remove(members: &mut Members<'_>) -> Result<Command, CmdRefused>
    ensures reads { Reads (command_named (codes "remove") (left_in members.old))
        (left_in members.new) result }
    ensures known { IfOk result IsAskable }
{
    let vm = members.required("vm", NameKind)?;
    let snapshot = members.required("snapshot", WORD)?;
    Ok(Command::Remove { vm, snapshot })
}

pub(crate) fn read_query(members: &mut Members<'_>) -> Result<Command, CmdRefused>
    ensures reads { Reads (command_named (codes "query") (left_in members.old))
        (left_in members.new) result }
    ensures known { IfOk result IsAskable }
{
    let vm = members.required("vm", NameKind)?;
    let snapshot = members.required("snapshot", WORD)?;
    let disk = members.required("disk", WORD)?;
    let since = members.required("since", TextKind)?;
    let start = members.required("start", SectorStartKind)?;
    Ok(Command::Query {
        vm,
        snapshot,
        disk,
        since,
        start,
    })
}

pub(crate) fn read_read(members: &mut Members<'_>) -> Result<Command, CmdRefused>
    ensures reads { Reads (command_named (codes "read") (left_in members.old)) (left_in members.new)
        result }
    ensures known { IfOk result IsAskable }
{
    let vm = members.required("vm", NameKind)?;
    let disk = members.required("disk", WORD)?;
    let first = members.required("first", LONG)?;
    let count = members.required("count", within(1, MAX_READ_SECTORS))?;
    let snapshot = members.optional("snapshot", WORD)?;
    Ok(Command::Read {
        vm,
        disk,
        first,
        count,
        snapshot,
    })
}

pub(crate) fn read_power(members: &mut Members<'_>) -> Result<Command, CmdRefused>
    ensures reads { Reads (command_named (codes "power") (left_in members.old))
        (left_in members.new) result }
    ensures known { IfOk result IsAskable }
{
    let vm = members.required("vm", NameKind)?;
    let on = members.required("on", FlagKind)?;
    Ok(Command::Power { vm, on })
}

pub(crate) fn read_reset(members: &mut Members<'_>) -> Result<Command, CmdRefused>
    ensures reads { Reads (command_named (codes "reset") (left_in members.old))
        (left_in members.new) result }
    ensures known { IfOk result IsAskable }
{
    let vm = members.required("vm", NameKind)?;
    let disk = members.required("disk", WORD)?;
    Ok(Command::Reset { vm, disk })
}

pub(crate) fn read_plan(members: &mut Members<'_>) -> Result<Command, CmdRefused>
    ensures reads { Reads (command_named (codes "plan") (left_in members.old)) (left_in members.new)
        result }
    ensures known { IfOk result IsAskable }
{
    let name = members.required("name", NameKind)?;
    let vms = members.required("vms", ListKind(NameKind))?;
    let interval = members.optional("interval", within(1, MAX_INTERVAL))?;
    Ok(Command::Plan {
        name,
        vms,
        interval,
    })
}

pub(crate) fn read_start(members: &mut Members<'_>) -> Result<Command, CmdRefused>
    ensures reads { Reads (command_named (codes "start") (left_in members.old))
        (left_in members.new) result }
    ensures known { IfOk result IsAskable }
{
    let plan = members.required("plan", NameKind)?;
    Ok(Command::Start { plan })
}

pub(crate) fn read_run(members: &mut Members<'_>) -> Result<Command, CmdRefused>
    ensures reads { Reads (command_named (codes "run") (left_in members.old)) (left_in members.new)
        result }
    ensures known { IfOk result IsAskable }
{
    let at = members.required("at", MomentKind)?;
    let workers = members.required("workers", within(0, MAX_WORKERS))?;
    let guests = members.list("guests", GuestKind)?;
    let disturb = members.list("disturb", DisturbKind)?;
    Ok(Command::Run {
        at,
        workers,
        guests,
        disturb,
    })
}

pub(crate) fn read_cutover(members: &mut Members<'_>) -> Result<Command, CmdRefused>
    ensures reads { Reads (command_named (codes "cutover") (left_in members.old))
        (left_in members.new) result }
    ensures known { IfOk result IsAskable }
{
    let plan = members.required("plan", NameKind)?;
    let at = members.optional("at", MomentKind)?;
    Ok(Command::Cutover { plan, at })
}

pub(crate) fn read_cancel(members: &mut Members<'_>) -> Result<Command, CmdRefused>
    ensures reads { Reads (command_named (codes "cancel") (left_in members.old))
        (left_in members.new) result }
    ensures known { IfOk result IsAskable }
{
    let vm = members.required("vm", NameKind)?;
    Ok(Command::Cancel { vm })
}

pub(crate) fn read_target(members: &mut Members<'_>) -> Result<Command, CmdRefused>
    ensures reads { Reads (command_named (codes "target") (left_in members.old))
        (left_in members.new) result }
    ensures known { IfOk result IsAskable }
{
    let volume = members.required("volume", TextKind)?;
    let first = members.required("first", LONG)?;
    let count = members.required("count", within(1, MAX_READ_SECTORS))?;
    Ok(Command::Target {
        volume,
        first,
        count,
    })
}

pub(crate) fn read_digest(members: &mut Members<'_>) -> Result<Command, CmdRefused>
    ensures reads { Reads (command_named (codes "digest") (left_in members.old))
        (left_in members.new) result }
    ensures known { IfOk result IsAskable }
{
    let volume = members.required("volume", TextKind)?;
    Ok(Command::Digest { volume })
}
