//! A disk in sectors of 512 bytes: its contents, the runs of its sectors, and pages of changed
//! areas.
//!
//! The tracker looks at a disk in blocks of 128 sectors, block `b` being the sectors `128 * b` to
//! `128 * b + 127`, clipped at the disk's capacity. All numbers here count sectors.
#![tactic(auto)]

mod laws;
mod loose_runs;
mod page;
mod run;
mod sector;
#[cfg(test)]
mod tests;

pub use laws::{
    broken_volumes, folds_join, loose_sectors_after, pages_join, pages_lie_within, runs_are_exact,
    touched_blocks_are_met, volume_stops, volumes_keep_their_size,
};
pub use loose_runs::loose_runs_tell;
pub use page::{PAGE_AREAS, Page};
pub use run::{BLOCK_SECTORS, Run, Runs, next_run};
pub use sector::{Sector, SectorList};
use std::alloc::{AllocError, AllocFailed};

/// Memory ran out. A call that answers it has changed nothing.
#[derive(Clone, Copy, Debug, PartialEq, Eq)]
pub struct NoMemory;

impl From<AllocError> for NoMemory {
    fn from(_refused: AllocError) -> Self {
        NoMemory
    }
}

impl<T: Drop> From<AllocFailed<T>> for NoMemory {
    fn from(_refused: AllocFailed<T>) -> Self {
        NoMemory
    }
}
