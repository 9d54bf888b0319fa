//! The controller's state: what the records of the journal come to, read record by record. A record
//! that may not stand behind those before it is strange, and changes nothing. From the state come
//! the jobs that may be done at a moment, and what each job is told.
#![tactic(auto)]

mod apply;
mod asks;
mod copies;
mod effect;
mod laws;
mod marks;
mod migration;
mod plans;
mod ready;
mod refusal;
mod sound;
mod stands;
mod state;
mod steps;
mod task;
#[cfg(test)]
mod tests;
mod work;

pub use asks::{asked_is_there, small_lines};
pub use basics::{Name, NoMemory, NumberList};
pub use copies::{CopyBase, CopyList, DiskCopy, MAX_STAGE_SECTORS};
pub use effect::{effects_are_one, effects_may_stand, tasks_tell_jobs};
pub use laws::{lists_join, records_change_their_own, states_go_on};
pub use marks::MarkList;
pub use migration::{How, Migration};
pub use plans::PlanCourse;
pub use ready::{Job, JobList};
pub use refusal::StateRefused;
pub use sound::{ends_are_as_asked, other_jobs_stay, values_are_sound};
pub use state::CtlState;
pub use task::{Controller, Did, PhaseTask};
