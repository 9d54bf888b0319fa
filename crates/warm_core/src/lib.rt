//! The pure core of a warm migration: the world of one disk, all that may happen to it, and what is
//! kept of it by every list of events.
//!
//! A disk is copied to its volume stage after stage, each from a snapshot, while the machine writes
//! on. Until one was finished each stage is full: it copies what was ever written, and zeroes the
//! rest. A later one is partial: it copies what changed since the last stage that was finished, but
//! becomes full where the disk was reset since. Nothing here knows devices, threads or files. All
//! numbers count sectors, but for marks and places, which count the entries of a log.
#![tactic(auto)]

mod asked;
mod conditions;
mod disk_world;
mod effects;
mod event;
mod laws;
mod stage_state;
mod stepping;
#[cfg(test)]
mod tests;

pub use disk_world::{Base, DiskWorld};
pub use event::{CoreRefused, Event};
pub use laws::{
    fillings_stay, finished_is_whole, pieces_may_be_next, staged_stays, stages_are_answered,
    stages_end, stages_stay, whatever_happens, worlds_stay_sound,
};
pub use stage_state::{MAX_PIECE_SECTORS, Piece, StageState};
pub use stepping::{follow, step};
