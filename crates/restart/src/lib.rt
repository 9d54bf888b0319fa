//! The controller at its start: the journal is read, its records are folded one after another, and
//! each is compared with what the fleet's machines and their logs say. Only a journal whose records
//! are all taken is repaired and opened; one that is strange is left as it was.
#![tactic(auto)]

mod borne_out;
mod laws;
mod machines;
mod read_logs;
mod refusal;
mod reopening;
mod standing;
#[cfg(test)]
mod tests;

pub use laws::{agreeing_records_are_taken, strange_at_one_record};
pub use refusal::ReopenRefused;
pub use reopening::reopen;
