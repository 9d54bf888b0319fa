//! A machine as the list of what happened to it: its entries, what they mean for its disks,
//! snapshots and change identifiers, and the calls by which one caller reaches it.
#![tactic(auto)]

mod acts;
mod entry;
mod folds;
mod laws;
mod link;
mod may_stand;
mod plain_machine;
mod query;
mod refusals;
#[cfg(test)]
mod tests;

pub use acts::may_remove;
pub use entry::{Act, Entry, EntryList, MAX_LOG_ENTRIES, MIGRATION_CALLER, Owner};
pub use folds::{
    Tracking, epoch, facts_of, is_enabled, last_off, machine_on, mark, number, owner_of, taken,
    tracking_of, written,
};
pub use laws::{
    accepted_may_stand, answer_pages_join, answers_stay, calls_alone, calls_follow,
    ids_answer_between, ids_exist, later_entries_keep, legal_logs, marks_of_ids,
    migrations_keep_theirs, numbers_have_no_gap, off_is_frozen, snapshots_have_their_marks,
    touched_blocks_join,
};
pub use link::{Facts, Link, Snapped};
pub use may_stand::may_stand_alone;
pub use plain_machine::PlainMachine;
pub use query::{
    accepts, answer_page, before, between, entry_touches, in_force, is_on_disk, is_touched,
    read_into, sector_at, since_place, through,
};
pub use refusals::{LinkRefused, WriteRefused};
