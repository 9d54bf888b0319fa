//! The checkpoints of a data volume, as the Containerized Data Importer imports one checkpoint by
//! checkpoint: each goes on from the snapshot of the one before it, and one is the final one.
#![tactic(auto)]

mod checkpoint;
mod data_volume;
mod laws;
#[cfg(test)]
mod tests;

pub use checkpoint::{CheckRefused, Checkpoint, DvPhase};
pub use data_volume::DataVolume;
pub use laws::{
    calls_keep_it_sound, calls_move_the_phase, finishing_counts_one, finishing_turns_the_last,
    neighbours_join,
};
