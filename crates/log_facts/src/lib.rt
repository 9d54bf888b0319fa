//! What the log of a machine says, read once, and what a record of a migration asks of it: whether
//! the log bears the record out.
#![tactic(auto)]

mod disks;
mod log_facts;
mod places;
mod snapshots;
mod stages;
#[cfg(test)]
mod tests;

pub use log_facts::LogFacts;
