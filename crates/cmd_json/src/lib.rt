//! The commands of the program, read from lines of JSON. Each command is one row of a table: its
//! name, and its members with what each of them may be, in the order in which they are tested.
#![tactic(auto)]

mod command;
mod commands;
mod kind;
mod kinds;
mod lists;
mod members;
mod numbers;
mod objects;
mod read;
mod refusal;
#[cfg(test)]
mod tests;
mod tree;

pub use basics::{Sequence, Text};
pub use command::{
    ActLine, Command, DisturbLine, GuestLine, MAX_READ_SECTORS, MAX_WORKERS, MoveWrite,
    SECTOR_START_UNIT,
};
pub use plan_model::{Moment, Name};
pub use read::{BUILT, CommandReader, built_are_rows, order_is_kept, read_command};
pub use refusal::CmdRefused;
