//! Target volumes, the stores that keep them by name, and a store in memory.
//!
//! A volume is a disk of a fixed number of sectors that a migration fills. What is written to it
//! is loose until a flush succeeds. A store lends its volumes out, and takes each back.
#![tactic(auto)]

mod mem_volume;
mod mem_volumes;
mod store_refused;
#[cfg(test)]
mod tests;
mod volume;
mod volume_name;
mod volume_store;

pub use basics::Name;
pub use mem_volume::MemVolume;
pub use mem_volumes::{MemVolumes, VOLUME_CALLS};
pub use sector_model::NoMemory;
pub use store_refused::StoreRefused;
pub use volume::{Volume, VolumeFailed};
pub use volume_name::VolumeName;
pub use volume_store::VolumeStore;
