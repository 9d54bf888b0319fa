//! The outside as the rest of the repository sees it: where bytes come from, where they go, and a
//! disk. Beside each trait stands a type in memory that meets it, whose calls can be made to fail.
#![tactic(auto)]

mod disk;
mod mem_disk;
mod mem_sink;
mod mem_source;
mod overlay;
mod sink;
mod source;
mod span;
mod stop_disk;
#[cfg(test)]
mod tests;

pub use basics::{Failed, NoMemory};
pub use disk::Disk;
pub use mem_disk::{CALL_USE, MemDisk, Pick};
pub use mem_sink::MemSink;
pub use mem_source::MemSource;
pub use sink::Sink;
pub use source::Source;
pub use stop_disk::StopDisk;
