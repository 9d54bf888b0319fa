//! The hosts and the machines of a fleet by their names, in the order in which they were added. A
//! machine is changed through a link over it, for which it is taken out and put back.
#![tactic(auto)]

mod fleet;
mod laws;
mod limits;
mod name_map;
mod refusals;
#[cfg(test)]
mod tests;
mod vm;

pub use fleet::Fleet;
pub use laws::{
    fleet_is_sound, fleets_go_on, found_after_adding, lowers_what_was_lifted, machines_stay_in,
    names_lead_there, others_stay,
};
pub use limits::{MAX_HOSTS, MAX_VMS};
pub use refusals::FleetRefused;
