//! The journal: records that are on a disk before they are acknowledged. Each record's cell stands
//! behind a gate byte that was closed on the disk before the cell was written, and that is opened
//! by a write of its own, so that a crash at any moment leaves each record whole or not at all.
#![tactic(auto)]

mod cells;
mod device;
mod failure;
mod format;
mod journal;
mod laws;
mod refusal;
#[cfg(test)]
mod tests;
mod unrepaired;

pub use edge_traits::Disk;
pub use format::{EMPTY_BYTES, MAGIC, MAX_BYTES};
pub use journal::Journal;
pub use laws::{
    a_crash_keeps_them, a_file_stands_for_one_thing, a_reading_gives_one_of_them,
    a_reading_keeps_them, a_refused_opening_keeps_them, an_opening_gives_one_of_them,
    their_file_is_a_journal,
};
pub use record_codec::Record;
pub use refusal::JournalRefused;
pub use unrepaired::Unrepaired;
