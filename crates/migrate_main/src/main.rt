//! The program `warm_migrate`: it reads commands from standard input, writes replies to standard
//! output, and keeps its journal in a file of the current folder.
#![tactic(auto)]

mod input;
mod output;
mod run;
#[cfg(test)]
mod tests;

use crate::input::StandardInput;
use crate::output::StandardOutput;
use crate::run::run;
use file_disk::{FileDisk, NamedFile};
use migrate_server::Status;
use std::io::ErrorKind;
use std::process::ExitCode;
use std::{env, io};

/// The file of the journal.
const JOURNAL_FILE: &str = "warm.journal";

fn main(rt: HostRuntime) -> ExitCode {
    let Some(words) = words(&rt) else {
        return ExitCode::from(Status::NoMemory.code());
    };
    let mut input = StandardInput::new(rt.reader());
    let mut output = StandardOutput::new(io::writer(&rt));
    let disk = FileDisk::new(NamedFile::new(&rt, JOURNAL_FILE));
    let exit = run(&rt, rt.alloc(), &words, &mut input, &mut output, disk);
    ExitCode::from(exit.code)
}

/// The words after the program's name. None means that memory ran out. Where the system doesn't
/// tell them, one empty word stands for them, which is no word that the program takes.
fn words(rt: &HostRuntime) -> Option<Vec<String>> {
    match env::args(rt) {
        Ok(words) => words.skip(1).collect(rt.alloc()).ok(),
        Err(error) if error.kind() == ErrorKind::OutOfMemory => None,
        Err(_) => vec![in rt.alloc(); String::new(rt.alloc())].ok(),
    }
}
