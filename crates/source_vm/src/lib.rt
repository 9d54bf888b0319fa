//! A machine: its disks, and the log of all that happened to it.
//!
//! What a machine is, its log says. Beside the log it keeps its disks and some facts, so that no
//! call walks the log but the one that counts writes.
#![tactic(auto)]

mod disks;
mod kept_facts;
mod laws;
mod live;
mod machine;
mod machine_log;
mod plain_link;
#[cfg(test)]
mod tests;

pub use laws::additions_follow;
pub use log_model::WriteRefused;
pub use machine::{Machine, may_have_disks};
pub use plain_link::PlainLink;
