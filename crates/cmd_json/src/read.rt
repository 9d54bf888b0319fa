//! The command of a line, by its name.
ghost use Rattle.std.specs.Prelude.{◌≡◌, IfOk};
ghost use Rattle.std.specs.Option.{ok_or};
ghost use Rattle.cmd_json.specs.Known.{IsAskable};
ghost use Rattle.serde_json.specs.Read.{read};
ghost use Rattle.cmd_json.specs.Laws.{BuiltAreRows, TheseAreBuilt, KeepsOrder};
ghost use Rattle.cmd_json.specs.Kinds.{result_and_then};
ghost use Rattle.cmd_json.specs.Left.{left_in};
ghost use Rattle.cmd_json.specs.Line.{command_of, command_among, command_of_data, command_of_members, command_named, contains, names_of};
ghost use Rattle.cmd_json.specs.Members.{Gives, Reads};
ghost use Rattle.cmd_json.specs.Tree.{value_data};
ghost use Rattle.cmd_json.specs.declared.refusal.CmdRefused.TheVariants as refused;

use crate::command::Command;
use crate::commands::{
    read_cancel, read_cutover, read_digest, read_enable, read_host, read_move, read_plan,
    read_power, read_query, read_read, read_remove, read_reset, read_run, read_snapshot,
    read_start, read_target, read_vm, read_write,
};
use crate::members::Members;
use crate::refusal::CmdRefused;
use crate::tree::tree_of;
use json::{Scratch, Value};
use std::alloc::Global;

/// The names of the commands that the program carries out by now. A command whose name isn't among
/// them is refused before its members are tested.
pub const BUILT: [&str; 17] = [
    "move",
    "host",
    "vm",
    "enable",
    "write",
    "snapshot",
    "remove",
    "query",
    "read",
    "power",
    "reset",
    "inventory",
    "plan",
    "start",
    "cutover",
    "status",
    "quit",
];

/// The command that a line asks for, or why it asks for none. The line comes without its line feed.
/// In this order: [`CmdRefused::Json`] where it isn't JSON in UTF-8 or nests deeper than 127;
/// [`CmdRefused::Command`] where it isn't an object whose member `cmd` is the name of a command
/// that is built; then, member after member as the command has them, [`CmdRefused::Field`] for one
/// that is missing, of the wrong kind or no name, and [`CmdRefused::Number`] for a number or a
/// moment that isn't one of its own; at last [`CmdRefused::Field`] with the least member that the
/// command doesn't have. Of several members of one name the last one counts. What is wrong within a
/// list is told by the name of the list.
///
/// Blank lines and lines that are too long are told apart by the caller: here a blank one isn't
/// JSON, and no length is too much. Want of memory may stand in place of every answer.
pub fn read_command(alloc: Global, line: &[u8]) -> Result<Command, CmdRefused>
    ensures read { Gives refused.NoMemory (command_of line.now) result }
    ensures known { IfOk result IsAskable }
{
    CommandReader::new(alloc).read(alloc, line)
}

/// Reads one line after another, and keeps the memory that reading takes: 16 KiB, and at most twice
/// the longest line.
#[derive(Drop)]
pub struct CommandReader {
    scratch: Scratch,
}

impl CommandReader {
    /// A reader that hasn't read a line.
    pub fn new(alloc: Global) -> CommandReader {
        CommandReader {
            scratch: Scratch::new(alloc),
        }
    }

    /// The same as [`read_command`]. What was read before makes no difference, but perhaps whether
    /// memory runs out.
    pub fn read(&mut self, alloc: Global, line: &[u8]) -> Result<Command, CmdRefused>
        ensures read { Gives refused.NoMemory (command_of line.now) result }
        ensures known { IfOk result IsAskable }
    {
        self.read_among(alloc, &BUILT, line)
    }

    /// The same, where the commands of these names are built.
    pub(crate) fn read_among(
        &mut self,
        alloc: Global,
        built: &[&str],
        line: &[u8],
    ) -> Result<Command, CmdRefused>
        ensures read { Gives refused.NoMemory (command_among (names_of built.now) line.now) result }
        ensures known { IfOk result IsAskable }
    {
        match simdutf8::basic::from_utf8(line) {
            Ok(text) => read_text(alloc, built, text, &mut self.scratch),
            Err(_) => Err(CmdRefused::Json),
        }
    }
}

fn read_text(
    alloc: Global,
    built: &[&str],
    text: &str,
    scratch: &mut Scratch,
) -> Result<Command, CmdRefused>
    ensures read { Gives refused.NoMemory (result_and_then (command_of_data (names_of built.now))
        (ok_or (read text.now) refused.Json)) result }
    ensures known { IfOk result IsAskable }
{
    let value = tree_of(alloc, text, scratch)?;
    read_value(alloc, built, value)
}

fn read_value(alloc: Global, built: &[&str], value: Value<'_>) -> Result<Command, CmdRefused>
    ensures read { Gives refused.NoMemory
        (command_of_data (names_of built.now) (value_data value.entry)) result }
    ensures known { IfOk result IsAskable }
{
    match value {
        Value::Object(list) => read_object(built, Members::of(alloc, list)),
        _ => Err(CmdRefused::Command),
    }
}

fn read_object(built: &[&str], mut members: Members<'_>) -> Result<Command, CmdRefused>
    ensures read { Gives refused.NoMemory
        (command_of_members (names_of built.now) (left_in members.entry)) result }
    ensures known { IfOk result IsAskable }
{
    let Some(Value::String(name)) = members.take("cmd") else {
        return Err(CmdRefused::Command);
    };
    if !is_among(name, built) {
        return Err(CmdRefused::Command);
    }
    let command = read_named(name, &mut members)?;
    members.finish(command)
}

fn is_among(name: &str, names: &[&str]) -> bool
    ensures { result ≡ contains (names_of names.now) name.now }
{
    names.contains(&name)
}

// Reads the members of the command of that name.
fn read_named(name: &str, members: &mut Members<'_>) -> Result<Command, CmdRefused>
    ensures reads { Reads (command_named name.now (left_in members.old)) (left_in members.new)
        result }
    ensures known { IfOk result IsAskable }
{
    match name {
        "move" => read_move(members),
        "host" => read_host(members),
        "vm" => read_vm(members),
        "enable" => read_enable(members),
        "write" => read_write(members),
        "snapshot" => read_snapshot(members),
        "remove" => read_remove(members),
        "query" => read_query(members),
        "read" => read_read(members),
        "power" => read_power(members),
        "reset" => read_reset(members),
        "inventory" => Ok(Command::Inventory),
        "plan" => read_plan(members),
        "start" => read_start(members),
        "run" => read_run(members),
        "cutover" => read_cutover(members),
        "cancel" => read_cancel(members),
        "status" => Ok(Command::Status),
        "target" => read_target(members),
        "digest" => read_digest(members),
        "restart" => Ok(Command::Restart),
        "quit" => Ok(Command::Quit),
        _ => Err(CmdRefused::Command),
    }
}

/// The object that a line is has each name once, in ascending order of its bytes, and so have the
/// members that are left when one was taken out. So the first that is left, which is told, is the
/// least. Taking one out leaves the others as they are.
pub fn order_is_kept()
    ensures { KeepsOrder }
{}

/// Which commands are built; each has a row of its own.
pub fn built_are_rows()
    ensures these { TheseAreBuilt }
    ensures rows { BuiltAreRows }
{}
