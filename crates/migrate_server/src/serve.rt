//! The lines of an input, answered one after another.
ghost use Rattle.std.specs.Prelude.{◌≡◌, ℕ, List, false, IfOk, OnOk, OnErr, IfErr, length, None};
ghost use Rattle.std.specs.Io.KnownBytes.{Appends};
ghost use Rattle.fleet.specs.Sound.{AllAreIn};
ghost use Rattle.cmd_json.specs.Known.{IsAskable};
ghost use Rattle.cmd_json.specs.declared.command.Command.TheVariants.{Query};
ghost use Rattle.answers.specs.Answer.{answer_line};
ghost use Rattle.record_codec.specs.declared.record.Record.{Record};
ghost use Rattle.record_keeping.specs.Keeping.{keeping, IsReady, IsUnfailed};
ghost use Rattle.target_volume.specs.VolumeStore.{StoreState};
ghost use Rattle.migrate_server.specs.LineBuffer.{Holds};
ghost use Rattle.migrate_server.specs.Line.{AsksInRange};
ghost use Rattle.migrate_server.specs.Session.{serving, state_of, power_deed, Answers};
ghost use Rattle.migrate_server.specs.Serve.{is_on_plans, AllWouldBeTaken, IsAnswered, IsUnanswered, IsStopped, TellsQuit, ServesLine, LacksReply, LacksBytes, status_served};
ghost use Rattle.migrate_server.specs.World.{desk_of, server_of};
ghost use Rattle.migrate_server.specs.Serves.{Serves};
ghost use Rattle.migrate_server.specs.EndsFor.{EndsFor};

use crate::commands::moves::run_move;
use crate::commands::plans::{run_cutover, run_plan, run_start};
use crate::line::{Line, meaning_of};
use crate::line_buffer::LineBuffer;
use crate::reader::{LineReader, NoLine};
use answers::{Answer, Refusal, line_for};
use basics::{Name, NoMemory, Text};
use cmd_json::{Command, CommandReader};
use ctl_state::Controller;
use edge_traits::{Disk, Sink, Source};
use fleet::{Fleet, fleet_is_sound};
use fleet_commands::{
    Deed, QueryLine, ReadLine, WriteLine, run_deed, run_host, run_inventory, run_query, run_read,
    run_snapshot, run_vm, run_write,
};
use record_keeping::NotKept;
use reply_json::Reply;
use std::alloc::Global;
use target_volume::VolumeStore;

/// Why the serving of an input stopped before its end.
#[derive(Clone, Copy, Debug, PartialEq, Eq)]
pub(crate) enum Stop {
    /// The source failed.
    ReadFault,
    /// The journal's disk failed.
    JournalFault,
    /// The sink failed.
    WriteFault,
    /// The input goes on past its limit.
    InputLimit,
    /// The journal has no room for a record.
    JournalFull,
    /// Memory ran out.
    NoMemory,
}

impl From<NoLine> for Stop {
    ghost use Rattle.std.specs.Prelude.{◌≡◌};
    ghost use Rattle.migrate_server.specs.Serve.{stop_without_line};

    ghost from_gives = { λ why stop. stop ≡ stop_without_line why };

    fn from(why: NoLine) -> Stop {
        match why {
            NoLine::Fault => Stop::ReadFault,
            NoLine::Limit => Stop::InputLimit,
            NoLine::NoMemory => Stop::NoMemory,
        }
    }
}

/// Why a line has no reply, or not a whole one.
#[derive(Clone, Copy, Debug, PartialEq, Eq)]
pub(crate) enum NoReply {
    /// The sink failed.
    Fault,
    /// A record of the line wasn't kept, or memory ran out.
    Unkept(NotKept),
}

impl From<NotKept> for NoReply {
    ghost use Rattle.std.specs.Prelude.{◌≡◌};
    ghost use Rattle.migrate_server.specs.declared.serve.NoReply.TheVariants.{Unkept};

    ghost from_gives = { λ why no_reply. no_reply ≡ Unkept why };

    fn from(why: NotKept) -> NoReply {
        NoReply::Unkept(why)
    }
}

impl From<NoMemory> for NoReply {
    ghost use Rattle.std.specs.Prelude.{◌≡◌};
    ghost use Rattle.record_keeping.specs.declared.refusal.NotKept.TheVariants.{NoMemory as Wanting};
    ghost use Rattle.migrate_server.specs.declared.serve.NoReply.TheVariants.{Unkept};

    ghost from_gives = { λ _ no_reply. no_reply ≡ Unkept Wanting };

    fn from(_refused: NoMemory) -> NoReply {
        NoReply::Unkept(NotKept::NoMemory)
    }
}

/// Why an answer wasn't put, or not whole.
#[derive(Clone, Copy, Debug, PartialEq, Eq)]
pub(crate) enum NotPut {
    /// The sink failed.
    Fault,
    /// Memory ran out before anything was put.
    NoMemory,
}

impl From<NoMemory> for NotPut {
    ghost use Rattle.std.specs.Prelude.{◌≡◌};
    ghost use Rattle.migrate_server.specs.declared.serve.NotPut.TheVariants.{NoMemory as Wanting};

    ghost from_gives = { λ _ why. why ≡ Wanting };

    fn from(_refused: NoMemory) -> NotPut {
        NotPut::NoMemory
    }
}

impl From<NotPut> for NoReply {
    ghost use Rattle.std.specs.Prelude.{◌≡◌};
    ghost use Rattle.migrate_server.specs.Serve.{no_reply_unput};

    ghost from_gives = { λ why no_reply. no_reply ≡ no_reply_unput why };

    fn from(why: NotPut) -> NoReply {
        match why {
            NotPut::Fault => NoReply::Fault,
            NotPut::NoMemory => NoReply::Unkept(NotKept::NoMemory),
        }
    }
}

impl From<NoReply> for Stop {
    ghost use Rattle.std.specs.Prelude.{◌≡◌};
    ghost use Rattle.migrate_server.specs.Serve.{stop_without_reply};

    ghost from_gives = { λ why stop. stop ≡ stop_without_reply why };

    fn from(why: NoReply) -> Stop {
        match why {
            NoReply::Fault => Stop::WriteFault,
            NoReply::Unkept(NotKept::Fault) => Stop::JournalFault,
            NoReply::Unkept(NotKept::Full) => Stop::JournalFull,
            NoReply::Unkept(NotKept::NoMemory) => Stop::NoMemory,
        }
    }
}

/// Answers the lines of an input until it ends, one asks to quit, or something stops it.
pub(crate) fn serve<S: Source, K: Sink, D: Disk, T: VolumeStore>(
    alloc: Global,
    input: &mut S,
    out: &mut K,
    controller: &mut Controller<D, T>,
    fleet: &mut Fleet,
) -> Result<(), Stop>
    requires all_in { AllAreIn fleet.old }
    requires ready { IsReady (keeping controller.old.state controller.old.journal) }
    requires taken { AllWouldBeTaken fleet.old controller.old.journal }
    ensures served { Serves
        (desk_of (S.state input.old) (K.state out.old)
        (server_of fleet.old controller.old.journal (T.state controller.old.store)))
        (desk_of (S.state input.new) (K.state out.new)
        (server_of fleet.new controller.new.journal (T.state controller.new.store)))
        (status_served result) }
    ensures ends { EndsFor
        (desk_of (S.state input.old) (K.state out.old)
        (server_of fleet.old controller.old.journal (T.state controller.old.store)))
        (desk_of (S.state input.new) (K.state out.new)
        (server_of fleet.new controller.new.journal (T.state controller.new.store)))
        (status_served result) }
    ensures taken { AllWouldBeTaken fleet.new controller.new.journal }
{
    let Ok(mut reader) = LineReader::new(alloc) else {
        return Err(Stop::NoMemory);
    };
    let mut line = LineBuffer::new(alloc);
    let mut commands = CommandReader::new(alloc);
    loop {
        if !reader.next(&mut line, input)? {
            return Ok(());
        }
        let quits = serve_line(alloc, &mut commands, &line, out, fleet, controller)?;
        if quits {
            return Ok(());
        }
    }
}

/// Answers a line, puts the reply, and says whether the line asks to quit. The line's records are
/// kept before its reply is put.
fn serve_line<K: Sink, D: Disk, T: VolumeStore>(
    alloc: Global,
    commands: &mut CommandReader,
    line: &LineBuffer,
    out: &mut K,
    fleet: &mut Fleet,
    controller: &mut Controller<D, T>,
) -> Result<bool, NoReply>
    requires all_in { AllAreIn fleet.old }
    requires ready { IsReady (keeping controller.old.state controller.old.journal) }
    requires taken { AllWouldBeTaken fleet.old controller.old.journal }
    ensures served { OnOk result ((text : List ℕ) → Holds line.now text
        → ServesLine text (K.state out.old) (K.state out.new)
        (server_of fleet.old controller.old.journal (T.state controller.old.store))
        (server_of fleet.new controller.new.journal (T.state controller.new.store))) }
    ensures quits { IfOk result (λ quits. (text : List ℕ) → Holds line.now text
        → TellsQuit quits text) }
    ensures taken { AllWouldBeTaken fleet.new controller.new.journal }
    ensures ready { OnOk result
        (IsReady (keeping controller.new.state controller.new.journal)) }
    ensures lacks { IfErr result (λ why. (text : List ℕ) → Holds line.now text
        → LacksReply why text (K.state out.old) (K.state out.new)
        (server_of fleet.old controller.old.journal (T.state controller.old.store))
        (server_of fleet.new controller.new.journal (T.state controller.new.store))) }
{
    let what = meaning_of(alloc, commands, line)?;
    let quits = what.quits();
    if let Some(answer) = answer_to(alloc, what, fleet, controller)? {
        put_answer(alloc, answer, out)?;
    }
    Ok(quits)
}

/// Puts the reply that tells an answer.
fn put_answer<K: Sink>(alloc: Global, answer: Answer, out: &mut K) -> Result<(), NotPut>
    ensures written { OnOk result
        (Appends (K.state out.old).held (K.state out.new).held (answer_line answer)) }
    ensures steady { OnOk result ((K.state out.new).faults ≡ (K.state out.old).faults) }
    ensures lacks { IfErr result (λ why.
        LacksBytes why (answer_line answer) (K.state out.old) (K.state out.new)) }
{
    let line = line_for(alloc, answer)?;
    match out.put(&line) {
        Ok(()) => Ok(()),
        Err(_) => Err(NotPut::Fault),
    }
}

/// The answer to a line, and none to a blank one. Where its records weren't all kept, it has none
/// either, and nothing else of it was done.
fn answer_to<D: Disk, T: VolumeStore>(
    alloc: Global,
    what: Line,
    fleet: &mut Fleet,
    controller: &mut Controller<D, T>,
) -> Result<Option<Answer>, NotKept>
    requires known { AsksInRange what }
    requires all_in { AllAreIn fleet.old }
    requires ready { IsReady (keeping controller.old.state controller.old.journal) }
    requires taken { AllWouldBeTaken fleet.old controller.old.journal }
    ensures answer { IfOk result (λ answer. IsAnswered what answer
        (serving fleet.old controller.old.journal.records (T.state controller.old.store))
        (serving fleet.new controller.new.journal.records (T.state controller.new.store))) }
    ensures ready { OnOk result
        (IsReady (keeping controller.new.state controller.new.journal)) }
    ensures unfailed { OnOk result
        (IsUnfailed controller.old.journal controller.new.journal) }
    ensures taken { AllWouldBeTaken fleet.new controller.new.journal }
    ensures stopped { IfErr result (λ why. IsStopped what why
        (server_of fleet.old controller.old.journal (T.state controller.old.store))
        (server_of fleet.new controller.new.journal (T.state controller.new.store))) }
{
    match what {
        Line::Blank => Ok(None),
        Line::Refuses(why) => Ok(Some(Err(why))),
        Line::Asks(command) => Ok(Some(run(alloc, command, fleet, controller)?)),
    }
}

/// Carries out a command. Where its records weren't all kept, it has no answer, and nothing else of
/// it was done; and for want of memory nothing may be done at all.
fn run<D: Disk, T: VolumeStore>(
    alloc: Global,
    command: Command,
    fleet: &mut Fleet,
    controller: &mut Controller<D, T>,
) -> Result<Answer, NotKept>
    requires known { IsAskable command }
    requires all_in { AllAreIn fleet.old }
    requires ready { IsReady (keeping controller.old.state controller.old.journal) }
    requires taken { AllWouldBeTaken fleet.old controller.old.journal }
    ensures answer { IfOk result (λ answer. Answers command answer
        (serving fleet.old controller.old.journal.records (T.state controller.old.store))
        (serving fleet.new controller.new.journal.records (T.state controller.new.store))) }
    ensures ready { OnOk result
        (IsReady (keeping controller.new.state controller.new.journal)) }
    ensures unfailed { OnOk result
        (IsUnfailed controller.old.journal controller.new.journal) }
    ensures taken { AllWouldBeTaken fleet.new controller.new.journal }
    ensures unanswered { IfErr result (λ why. IsUnanswered command why
        (server_of fleet.old controller.old.journal (T.state controller.old.store))
        (server_of fleet.new controller.new.journal (T.state controller.new.store))) }
{
    fleet_is_sound(fleet);
    match command {
        Command::Plan {
            name,
            vms,
            interval,
        } => run_plan(alloc, fleet, controller, &name, vms.as_slice(), interval),
        Command::Start { plan } => run_start(alloc, fleet, controller, &plan),
        Command::Cutover { plan, at } => run_cutover(alloc, fleet, controller, &plan, at),
        Command::Status => Ok(Ok(plan_commands::status_of(alloc, fleet, &controller.state)?)),
        command => Ok(run_other(alloc, command, fleet, &mut controller.store)?),
    }
}

/// Carries out a command that doesn't go by the journal's records. It answers only want of memory,
/// and has then changed nothing.
fn run_other<T: VolumeStore>(
    alloc: Global,
    command: Command,
    fleet: &mut Fleet,
    store: &mut T,
) -> Result<Answer, NoMemory>
    requires known { IsAskable command }
    requires all_in { AllAreIn fleet.old }
    requires other { is_on_plans command ≡ false }
    ensures answer { IfOk result (λ answer. (records : List Record) → Answers command answer
        (serving fleet.old records (T.state store.old))
        (serving fleet.new records (T.state store.new))) }
    ensures err { OnErr result (fleet.new ≡ fleet.old) }
    ensures err_store { OnErr result (T.state store.new ≡ T.state store.old) }
{
    match command {
        Command::Move {
            name,
            sectors,
            writes,
        } => run_move(alloc, name, sectors, writes.as_slice(), store),
        Command::Host { name, limit } => run_host(fleet, &name, limit),
        Command::Vm { name, host, disks } => run_vm(fleet, &name, &host, disks.as_slice()),
        Command::Enable { vm } => run_deed(fleet, &vm, Deed::Enable),
        Command::Write {
            vm,
            disk,
            first,
            count,
            fill,
        } => run_write(alloc, fleet, &vm, write_line(disk, first, count, fill)),
        Command::Snapshot { vm } => run_snapshot(alloc, fleet, &vm),
        Command::Remove { vm, snapshot } => run_deed(fleet, &vm, Deed::Remove(snapshot)),
        Command::Query {
            vm,
            snapshot,
            disk,
            since,
            start,
        } => answer_query(alloc, fleet, &vm, snapshot, disk, &since, start),
        Command::Read {
            vm,
            disk,
            first,
            count,
            snapshot,
        } => run_read(alloc, fleet, &vm, read_line(disk, first, count, snapshot)),
        Command::Power { vm, on } => run_deed(fleet, &vm, power_deed(on)),
        Command::Reset { vm, disk } => run_deed(fleet, &vm, Deed::Reset(disk)),
        Command::Inventory => Ok(Ok(run_inventory(alloc, fleet)?)),
        Command::Quit => Ok(Ok(Reply::Done)),
        _ => Ok(Err(Refusal::Command)),
    }
}

/// What `power` asks for.
fn power_deed(on: bool) -> Deed
    ensures { result ≡ power_deed on }
{
    if on { Deed::On } else { Deed::Off }
}

fn write_line(disk: u32, first: u64, count: u64, fill: u8) -> WriteLine
    ensures { result ≡ record { disk = disk; first = first; count = count; fill = fill } }
{
    WriteLine {
        disk,
        first,
        count,
        fill,
    }
}

/// Shows a page of what changed on a disk, as the members of a line ask. It answers want of memory
/// too. Nothing changes.
fn answer_query(
    alloc: Global,
    fleet: &mut Fleet,
    vm: &Name,
    snapshot: u32,
    disk: u32,
    since: &Text,
    start: u64,
) -> Result<Answer, NoMemory>
    ensures answer { IfOk result (λ answer. (records : List Record) (store : StoreState)
        → Answers (Query vm.now snapshot disk since.now start) answer
        (serving fleet.old records store) (serving fleet.new records store)) }
    ensures err { OnErr result (fleet.new ≡ fleet.old) }
{
    let line = QueryLine {
        snapshot,
        disk,
        since: since.as_str(),
        start,
    };
    run_query(alloc, fleet, vm, line)
}

fn read_line(disk: u32, first: u64, count: u64, snapshot: Option<u32>) -> ReadLine
    ensures { result ≡ record { disk = disk; first = first; count = count; snapshot = snapshot } }
{
    ReadLine {
        disk,
        first,
        count,
        snapshot,
    }
}
