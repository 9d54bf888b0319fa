//! Small types that belong to no crate above: the failure of an object outside, want of memory, the
//! calls of an object in memory that are to fail, names, texts and lists.
#![tactic(auto)]

mod calls;
mod generator;
mod limits;
mod name;
mod number_list;
mod refusal;
mod sequence;
mod spelled;
#[cfg(test)]
mod tests;
mod text;

pub use calls::Calls;
pub use generator::{INCREMENT, MULTIPLIER, advance};
pub use limits::{
    MAX_DISK_SECTORS, MAX_DISKS, MAX_HOST_LIMIT, MAX_INTERVAL, MAX_LOGGED_SECTORS,
    MAX_WRITE_SECTORS, SECTOR_BYTES,
};
pub use name::{MAX_NAME_BYTES, Name};
pub use number_list::NumberList;
pub use refusal::{Failed, NoMemory};
pub use sequence::Sequence;
pub use spelled::is_name;
pub use text::Text;
