//! The writes that a guest makes in a test run: a list that a seed, a count and the disks'
//! capacities determine.
#![tactic(auto)]

mod script;
#[cfg(test)]
mod tests;

pub use script::{GuestScript, GuestWrite};
