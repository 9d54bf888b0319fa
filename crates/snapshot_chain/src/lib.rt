//! A chain of snapshots of one disk: what the disk holds now, and what it held at each live
//! snapshot.
//!
//! Each freeze closes a layer and opens an empty one above it. A layer has pages for the blocks of
//! 128 sectors that were written while it was open, and a page has the written sectors alone. What
//! is read is the newest sector among the layers that the snapshot sees, or zero where none has it.
#![tactic(auto)]

mod boxed_sector;
mod chain;
mod laws;
mod layer;
mod layers;
mod page128;
mod placed_sectors;
mod reading;
mod sector_pair;
mod steps;
#[cfg(test)]
mod tests;

pub use chain::{Chain, ChainRefused};
pub use laws::{reads_the_fold, room_is_no_part};
pub use layer::Layer;
pub use page128::Page128;
pub use steps::Steps;
