//! The 22 phases of a migration and the finite table of their successors, by what was seen in a
//! phase. The controller goes through the table by at most one step a record. From every phase but
//! the three ends a migration can also be cancelled or fail.
#![tactic(auto)]

mod edges;
mod laws;
mod phases;
mod table;
#[cfg(test)]
mod tests;

pub use edges::{back_edge, next};
pub use laws::{
    final_snapshot_is_passed, no_way_back, paths_grow, rows_are_told_apart, steps_are_rows,
    successors_are_those,
};
pub use phases::Phase;
pub use table::{Fact, Row, Table};
