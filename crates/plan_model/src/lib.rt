//! Plans of machines that migrate together, the moments at which something is to be done, and what
//! is due at one.
#![tactic(auto)]

mod book;
mod calendar;
mod laws;
mod moment;
mod plan;
mod reading;
#[cfg(test)]
mod tests;
mod validation;
mod way;

pub use basics::{MAX_INTERVAL, Name, NumberList};
pub use calendar::{MAX_YEAR, MIN_YEAR};
pub use laws::{accepted_plans, moments_are_written_one_way, nothing_is_due_twice};
pub use moment::{Moment, MomentRefused, SECONDS_PER_DAY, SECONDS_PER_HOUR, SECONDS_PER_MINUTE};
pub use plan::{Plan, PlanRefused, VmFact};
pub use validation::validate;
pub use way::{Cutover, Way, due};
