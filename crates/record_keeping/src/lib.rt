//! Records are kept: each is appended to the journal, so that it is on the disk, and then takes
//! effect in the controller's state.
#![tactic(auto)]

mod keep;
mod laws;
mod refusal;
#[cfg(test)]
mod tests;

pub use keep::keep_records;
pub use laws::{fronts_may_be_kept, one_may_be_kept};
pub use refusal::NotKept;
