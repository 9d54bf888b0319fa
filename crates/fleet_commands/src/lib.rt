//! The commands on hosts and machines: each with the refusals that it may have, its reply, and what
//! it leaves of the fleet.
#![tactic(auto)]

mod deed;
mod host;
mod laws;
mod listing;
mod machines;
mod query;
mod read;
mod refusals;
mod snapshot;
mod vm;
mod write;

pub use deed::{Deed, run_deed};
pub use host::{DEFAULT_HOST_LIMIT, run_host};
pub use laws::{acts_add_one_entry, texts_ask_for_one};
pub use listing::run_inventory;
pub use query::{QueryLine, run_query};
pub use read::{ReadLine, run_read};
pub use refusals::link_told;
pub use snapshot::run_snapshot;
pub use vm::run_vm;
pub use write::{WriteLine, run_write};
