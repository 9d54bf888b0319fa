//! The replies of the program and their text. A reply is one object of JSON, with no space and its
//! members in ascending order of their names, and a line feed. Definitions go in two steps, from a
//! reply to the members that it has, and from members to bytes; a reader has the object back.
#![tactic(auto)]

mod line;
mod lists;
mod objects;
mod reply;
#[cfg(test)]
mod tests;
mod to_json;
mod values;

pub use basics::{Sequence, Text};
pub use line::{digits_are_text, one_line, reads_back, reply_line};
pub use reply::{Area, Carried, CheckLine, GuestDone, HostLine, MigLine, Reply, VmLine};
