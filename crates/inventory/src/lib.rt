//! The hosts and the machines of a fleet as rows, and the number of a machine by its name.
#![tactic(auto)]

mod finding;
mod rows;
#[cfg(test)]
mod tests;

pub use finding::find;
pub use rows::{HostRow, VmRow, hosts, machines};
