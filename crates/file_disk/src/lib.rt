//! A disk that is a file of the system, as a program keeps its journal in one.
#![tactic(auto)]

mod file_calls;
mod file_disk;
mod named_file;
#[cfg(test)]
mod tests;

pub use edge_traits::{Disk, Failed};
pub use file_calls::FileCalls;
pub use file_disk::FileDisk;
pub use named_file::NamedFile;
