//! Changed block tracking of one disk: which blocks changed between the snapshot of an identifier
//! and another snapshot.
//!
//! A tracker is told what is written, and when a snapshot is frozen. It keeps, under the number of
//! each word of 64 blocks, which of them were touched between two freezes; and, once for each
//! block, when it was touched first, which outlives a reset.
#![tactic(auto)]

mod frozen_snapshot;
mod laws;
mod maps;
mod refusals;
#[cfg(test)]
mod tests;
mod touches;
mod tracker;
mod word;

pub use laws::{answer_pages_join, room_is_no_part};
pub use refusals::TrackRefused;
pub use tracker::Tracker;
