//! What lines are answered, and what is read from them.
use crate::{CmdRefused, Command, CommandReader};
use std::alloc::Global;
use std::process::Abort;
use std::test::Fail;

mod built;
mod lines;
mod rows;
mod values;

// The names of all commands of the table, built or not.
const ALL: [&str; 22] = [
    "move",
    "host",
    "vm",
    "enable",
    "write",
    "snapshot",
    "remove",
    "query",
    "read",
    "power",
    "reset",
    "inventory",
    "plan",
    "start",
    "run",
    "cutover",
    "cancel",
    "status",
    "target",
    "digest",
    "restart",
    "quit",
];

// What a line asks for where all commands are built.
fn read(alloc: Global, line: &[u8]) -> Result<Command, CmdRefused> {
    CommandReader::new(alloc).read_among(alloc, &ALL, line)
}

// `ok`, or the refusal with the member that it names.
fn told(alloc: Global, read: Result<Command, CmdRefused>) -> Result<String, Fail> {
    match read {
        Ok(_) => Ok(String::from_str(alloc, "ok")?),
        Err(CmdRefused::Json) => Ok(String::from_str(alloc, "json")?),
        Err(CmdRefused::Command) => Ok(String::from_str(alloc, "command")?),
        Err(CmdRefused::Field(name)) => Ok(format!(in alloc; "field {}", name.as_str())?),
        Err(CmdRefused::Number(name)) => Ok(format!(in alloc; "number {}", name.as_str())?),
        Err(CmdRefused::NoMemory) => Ok(String::from_str(alloc, "no memory")?),
    }
}

// Each line is answered so. It is the front, what the row has, and the back.
fn answer(
    rt: &impl Abort,
    alloc: Global,
    front: &str,
    rows: &[(&str, &str)],
    back: &str,
) -> Result<(), Fail> {
    for (middle, wanted) in rows {
        let line = format!(in alloc; "{front}{middle}{back}")?;
        let answer = told(alloc, read(alloc, line.as_bytes()))?;
        assert_eq!(rt; answer.as_str(), *wanted, "{line}");
    }
    Ok(())
}
