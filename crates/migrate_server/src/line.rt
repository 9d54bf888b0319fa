//! What a line of an input is.
ghost use Rattle.std.specs.Prelude.{◌≡◌, ◌≤◌, ℕ, List, length, IfOk};
ghost use Rattle.std.specs.List.{list_all};
ghost use Rattle.migrate_server.specs.Line.{is_space, is_blank, quits, Means, AsksInRange};
ghost use Rattle.migrate_server.specs.LineBuffer.{Holds};

use crate::line_buffer::LineBuffer;
use answers::Refusal;
use basics::NoMemory;
use cmd_json::{CmdRefused, Command, CommandReader};
use std::alloc::Global;

/// The most bytes of a line, without its LF.
pub(crate) const LINE_LIMIT: usize = 1 << 20;

/// What ends a line.
pub(crate) const LF: u8 = b'\n';

/// What a line is.
#[derive(Debug, Drop)]
pub(crate) enum Line {
    /// Nothing that has a reply.
    Blank,
    /// A command.
    Asks(Command),
    /// Nothing that can be carried out, and why.
    Refuses(Refusal),
}

impl Line {
    /// Whether it ends the session.
    pub(crate) fn quits(&self) -> bool
        ensures { result ≡ quits self.now }
    {
        matches!(self, Line::Asks(Command::Quit))
    }
}

/// Says what a line is. It answers only want of memory.
pub(crate) fn meaning_of(
    alloc: Global,
    commands: &mut CommandReader,
    line: &LineBuffer,
) -> Result<Line, NoMemory>
    ensures means { IfOk result (λ what. (text : List ℕ) → Holds line.now text → Means text what) }
    ensures known { IfOk result AsksInRange }
{
    if line.is_long() {
        return Ok(Line::Refuses(Refusal::Long));
    }
    read_line(alloc, commands, line.as_slice())
}

fn read_line(alloc: Global, commands: &mut CommandReader, line: &[u8]) -> Result<Line, NoMemory>
    requires { length line.now ≤ LINE_LIMIT }
    ensures means { IfOk result (Means line.now) }
    ensures known { IfOk result AsksInRange }
{
    if is_blank(line) {
        return Ok(Line::Blank);
    }
    match commands.read(alloc, line) {
        Ok(command) => Ok(Line::Asks(command)),
        Err(CmdRefused::Json) => Ok(Line::Refuses(Refusal::Json)),
        Err(CmdRefused::Command) => Ok(Line::Refuses(Refusal::Command)),
        Err(CmdRefused::Field(name)) => Ok(Line::Refuses(Refusal::Field(name))),
        Err(CmdRefused::Number(name)) => Ok(Line::Refuses(Refusal::Number(name))),
        Err(CmdRefused::NoMemory) => Err(NoMemory),
    }
}

/// Whether all bytes are spaces, tabs and CRs.
fn is_blank(line: &[u8]) -> bool
    requires { length line.now ≤ LINE_LIMIT }
    ensures { result ≡ is_blank line.now }
{
    all_spaces(line)
}

fn all_spaces(bytes: &[u8]) -> bool
    ensures { result ≡ list_all is_space bytes.now }
{
    bytes.iter().all(|byte| is_space(*byte))
}

fn is_space(byte: u8) -> bool
    ensures { result ≡ is_space byte }
{
    byte == b' ' || byte == b'\t' || byte == b'\r'
}
