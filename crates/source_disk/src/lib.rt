//! One disk of a machine, as its machine's log tells it: what it holds now and at each live
//! snapshot, and which blocks changed between snapshots.
//!
//! A disk has a chain of snapshots and a tracker of changes. It keeps them in step, and makes the
//! room of both before either changes.
#![tactic(auto)]

mod laws;
mod source_disk;
#[cfg(test)]
mod tests;

pub use laws::{next_is_free, others_pass, room_is_no_part, standing_holds, untouched_is_zero};
pub use source_disk::SourceDisk;
